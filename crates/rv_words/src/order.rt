//! The order of an atomic instruction.

/// The order that an atomic instruction keeps with other memory operations (RISC-V unprivileged manual, "Specifying
/// Ordering of Atomic Instructions").
#[derive(Clone, Copy)]
pub enum Order {
    /// Nothing behind the mnemonic.
    Relaxed,
    /// `.rl`
    Release,
    /// `.aq`
    Acquire,
    /// `.aqrl`
    AcquireRelease,
}
