//! Tests of runs that the built command can't show: sources and sinks that fail, the gate that a run's workers pass, and command
//! lines. Cases show the rest.
#![tactic(auto)]

#[cfg(test)]
mod calls;
#[cfg(test)]
mod checks;
#[cfg(test)]
mod command_lines;
#[cfg(test)]
mod gates;
#[cfg(test)]
mod hello_file;
#[cfg(test)]
mod holding_gates;
#[cfg(test)]
mod outside_faults;
