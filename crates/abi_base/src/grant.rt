//! The descriptors that a launch gives.
use crate::ids::ObjId;
use crate::rights::Rights;
use lists::{Items, TryClone};
use std::alloc::AllocError;

/// What a granted descriptor stands for.
#[derive(Clone, Copy)]
pub enum GrantTarget {
    /// A standard stream: 0 is stdin, 1 is stdout, 2 is stderr.
    Terminal(u32),
    /// A file or directory of the file tree.
    Node(ObjId),
}

/// A descriptor of the launched process.
#[derive(Clone, Copy)]
pub struct Grant {
    pub target: GrantTarget,
    pub base: Rights,
    pub inheriting: Rights,
}

/// Grants in the order of their descriptors' numbers, from 0.
pub type GrantList = Items<Grant>;

impl TryClone for Grant {
    fn copy(&self) -> Result<Self, AllocError> {
        Ok(*self)
    }
}
