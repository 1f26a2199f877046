//! Tests of the set of threads that wait or run: who is found after a change, how many tests that takes, and which places stay.
#![tactic(auto)]

#[cfg(test)]
mod places;
#[cfg(test)]
mod readers;
