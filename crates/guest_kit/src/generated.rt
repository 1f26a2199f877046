//! What is generated.
ghost use Rattle.std.specs.Prelude.{◌≡◌, ◌≤◌, IfOk};
ghost use Rattle.guest_kit.specs.Generated.{IsGenerated};

use crate::launch_text::launch_bytes;
use crate::program::program_file;
use crate::tree_text::tree_bytes;
use lists::Bytes;
use std::alloc::{AllocError, Global};

/// A program and what it is run on.
#[derive(Drop)]
pub struct Generated {
    /// The program's ELF file.
    pub program: Bytes,
    /// The launch text.
    pub launch: Bytes,
    /// The tree document.
    pub tree: Bytes,
}

/// The workload of so many children.
pub fn generate(alloc: Global, n: u32) -> Result<Generated, AllocError>
    requires { (1 ≤ n) × (n ≤ 128) }
    ensures { IfOk result (λ generated. IsGenerated n generated) }
{
    Ok(Generated {
        program: program_file(alloc, n)?,
        launch: Bytes::from_vec(launch_bytes(alloc)?),
        tree: Bytes::from_vec(tree_bytes(alloc, n)?),
    })
}
