//! Descriptors, and why a call was denied.
use abi_base::{ObjId, Rights};

/// What a number of a process's table stands for: an open, the rights that it has there, and those that a descriptor
/// opened through it may have.
#[derive(Clone, Copy)]
pub struct Descriptor {
    pub id: ObjId,
    pub base: Rights,
    pub inheriting: Rights,
}

/// Why a call answered `Errno::Notcapable`.
#[derive(Clone, Copy, Debug, PartialEq, Eq)]
pub enum Denial {
    /// The descriptor `fd` lacks exactly these rights of those that the call needs or asks.
    Missing {
        fd: u32,
        base: Rights,
        inheriting: Rights,
    },
    /// A component of a path, counted from 0, would leave the directory from which the path begins.
    Outside {
        component: u32,
    },
}
