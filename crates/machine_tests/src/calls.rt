//! Calls that registers and memory encode. What is wanted follows from docs/ABI.md's numbers and the order of refusals.

mod descriptors;
mod files;
mod locks_and_clocks;
mod polls;
mod processes;
mod showing;
mod sockets;
mod wakes;
