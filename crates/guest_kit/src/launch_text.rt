//! The launch text of a workload.
ghost use Rattle.std.specs.Prelude.{◌≡◌, IfOk};
ghost use Rattle.guest_kit.specs.Generated.{launch_text};

use std::alloc::{AllocError, Global};

// The directory of the files to be read, through which they may be opened to read them.
const INPUTS: &[u8] = b"- !file {path: in, rights: [FILE_OPEN], inheriting: [FD_READ]}\n";

// The directory of the files to be written, in which files may be made and opened to write them.
const OUTPUTS: &[u8] =
    b"- !file {path: out, rights: [FILE_OPEN, FILE_CREATE_FILE], inheriting: [FD_WRITE]}\n";

/// The launch text: descriptor 0 is of the directory `in`, and descriptor 1 of `out`.
pub(crate) fn launch_bytes(alloc: Global) -> Result<Vec<u8>, AllocError>
    ensures { IfOk result (λ out. out.items ≡ launch_text) }
{
    let mut out = Vec::new(alloc);
    out.extend_from_slice(INPUTS)?;
    out.extend_from_slice(OUTPUTS)?;
    Ok(out)
}
