//! The bytes of each directive, by its operand. `None` exactly where the operand is not the directive's.
ghost use Rattle.std.specs.Prelude.{◌≡◌, IfSome, option_map, length};
ghost use Rattle.std.specs.List.{list_all};
ghost use Rattle.rv_asm.specs.Directives.{byte_of, word_of, dword_of, zeros_of, is_printable, quoted_of, directive_of};
ghost use Rattle.rv_asm.specs.Sizes.{size_of_form};
ghost use Rattle.rv_asm.specs.Pieces.{PieceIs, piece_bytes};

use crate::piece::Piece;
use rv_syntax::{Form, number_within, split_at, unsigned};

// `.byte N`
#[tactic(auto, unfolding(crate::specs::Directives::byte_of))]
fn byte(text: &[u8]) -> Option<Piece<'_>>
    ensures exact { PieceIs result (byte_of text.now) }
    ensures size { IfSome result (λ piece. length (piece_bytes piece) ≡ 1) }
{
    let n = number_within(text, -0x80, 0xff)?;
    Some(Piece::Byte(if n < 0 { (n + 0x100) as u8 } else { n as u8 }))
}

// `.word N`
#[tactic(auto, unfolding(crate::specs::Directives::word_of))]
fn word(text: &[u8]) -> Option<Piece<'_>>
    ensures exact { PieceIs result (word_of text.now) }
    ensures size { IfSome result (λ piece. length (piece_bytes piece) ≡ 4) }
{
    let n = number_within(text, -0x8000_0000, 0xffff_ffff)?;
    Some(Piece::Word(if n < 0 {
        (n + 0x1_0000_0000) as u32
    } else {
        n as u32
    }))
}

// `.dword N`
#[tactic(auto, unfolding(crate::specs::Directives::dword_of))]
fn dword(text: &[u8]) -> Option<Piece<'_>>
    ensures exact { PieceIs result (dword_of text.now) }
    ensures size { IfSome result (λ piece. length (piece_bytes piece) ≡ 8) }
{
    let n = number_within(text, -0x8000_0000_0000_0000, 0xffff_ffff_ffff_ffff)?;
    Some(Piece::Dword(if n < 0 {
        (n + 0x1_0000_0000_0000_0000) as u64
    } else {
        n as u64
    }))
}

/// How many zeros `.zero` asks for.
#[tactic(auto, unfolding(crate::specs::Directives::zeros_of))]
pub fn zeros(text: &[u8]) -> Option<u32>
    ensures { result ≡ zeros_of text.now }
{
    unsigned(text, 0x1_0000)
}

// Whether a text between quotation marks may have this byte.
fn is_printable(b: u8) -> bool
    ensures { result ≡ is_printable b }
{
    b >= 0x20 && b <= 0x7e && b != b'"' && b != b'\\'
}

// Whether a text between quotation marks may have these bytes.
fn are_printable(text: &[u8]) -> bool
    ensures { result ≡ list_all is_printable text.now }
{
    text.iter().all(|b| is_printable(*b))
}

/// What stands between quotation marks that are a text's first and last byte.
#[tactic(auto, unfolding(crate::specs::Directives::quoted_of))]
pub fn quoted(text: &[u8]) -> Option<&[u8]>
    ensures { option_map (λ inner. inner.now) result ≡ quoted_of text.now }
{
    let (front, rest) = split_at(text, b'"')?;
    let (inner, back) = split_at(rest, b'"')?;
    if front.is_empty() && back.is_empty() && are_printable(inner) {
        Some(inner)
    } else {
        None
    }
}

/// The bytes of a directive. `None` for a form that is none, too.
pub fn directive(form: Form, text: &[u8]) -> Option<Piece<'_>>
    ensures exact { PieceIs result (directive_of form text.now) }
    ensures size { IfSome result (λ piece. length (piece_bytes piece) ≡ size_of_form form text.now) }
{
    match form {
        Form::Byte => byte(text),
        Form::Word => word(text),
        Form::Dword => dword(text),
        Form::Zero => Some(Piece::Zeros(zeros(text)?)),
        Form::Ascii => Some(Piece::Text(quoted(text)?)),
        _ => None,
    }
}
