//! A piece of the output.
ghost use Rattle.std.specs.Prelude.{◌≡◌, ◌++◌, OnOk};
ghost use Rattle.rv_asm.specs.Pieces.{piece_bytes};

use std::alloc::AllocError;

/// The bytes of a line. Numbers are little-endian.
#[derive(Clone, Copy)]
pub enum Piece<'a> {
    Empty,
    Byte(u8),
    Word(u32),
    Dword(u64),
    /// Two words.
    Pair(u32, u32),
    /// So many zeros.
    Zeros(u32),
    Text(&'a [u8]),
}

impl<'a> Piece<'a> {
    /// Puts the bytes at the end. `Err` may leave a part of them.
    pub fn append_to(self, out: &mut Vec<u8>) -> Result<(), AllocError>
        ensures { OnOk result (out.new.items ≡ out.old.items ++ piece_bytes self.entry) }
    {
        match self {
            Piece::Empty => Ok(()),
            Piece::Byte(n) => out.extend_from_slice(&n.to_le_bytes()),
            Piece::Word(n) => out.extend_from_slice(&n.to_le_bytes()),
            Piece::Dword(n) => out.extend_from_slice(&n.to_le_bytes()),
            Piece::Pair(first, second) => {
                out.extend_from_slice(&first.to_le_bytes())?;
                out.extend_from_slice(&second.to_le_bytes())
            }
            Piece::Zeros(n) => out.resize(out.len() + n as usize, 0),
            Piece::Text(text) => out.extend_from_slice(text),
        }
    }
}
