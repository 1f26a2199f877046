//! What a run starts from.
use abi_base::GrantList;
use abi_types::Constants;
use elf_image::Elf;
use file_tree::Tree;
use lists::{Bytes, TryClone};
use std::alloc::AllocError;

/// What a run starts from.
#[derive(Drop)]
pub struct Launch {
    /// The program.
    pub elf: Elf,
    /// Its argument data.
    pub argdata: Bytes,
    /// The descriptors that it is given.
    pub grants: GrantList,
    /// The file tree at the start.
    pub tree: Tree,
    /// What it can read from the terminal `stdin`.
    pub stdin: Bytes,
    /// The key of its random bytes, and the time at which it begins.
    pub constants: Constants,
    /// The turns that it may take.
    pub turns: u64,
}

impl TryClone for Launch {
    fn copy(&self) -> Result<Self, AllocError> {
        Ok(Launch {
            elf: self.elf.copy()?,
            argdata: self.argdata.copy()?,
            grants: self.grants.copy()?,
            tree: self.tree.copy()?,
            stdin: self.stdin.copy()?,
            constants: self.constants,
            turns: self.turns,
        })
    }
}
