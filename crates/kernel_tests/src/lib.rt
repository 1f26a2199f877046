//! Tests of the kernel where the built command can't show it: what calls need, how processes end, reports of entries that no run has,
//! number maps, the queue of tickets and the board.
#![tactic(auto)]

#[cfg(test)]
mod boards;
#[cfg(test)]
mod kernel_ends;
#[cfg(test)]
mod needs;
#[cfg(test)]
mod number_maps;
#[cfg(test)]
mod queues;
#[cfg(test)]
mod reports;
#[cfg(test)]
mod stdout_kernel;
#[cfg(test)]
mod tickets;
