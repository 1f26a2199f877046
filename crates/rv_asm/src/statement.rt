//! The parts of a line, how many bytes it takes, and what it stands for.
ghost use Rattle.std.specs.Prelude.{◌≡◌, IsTrue, IfSome, option_map, length};
ghost use Rattle.rv_syntax.specs.Forms.{is_fit, is_directive};
ghost use Rattle.rv_asm.specs.Lines.{bare_of, labelled_of, label_of, content_of, operation_of, size_of_content, size_of, item_at, item_of, is_defined, line_item};
ghost use Rattle.rv_syntax.specs.Names.{rows};
ghost use Rattle.rv_asm.specs.Pieces.{PieceIs, piece_bytes};
ghost use Rattle.rv_asm.specs.Sizes.{size_of_form};

use crate::directives::{directive, quoted, zeros};
use crate::instructions::code;
use crate::piece::Piece;
use abi_base::INSTRUCTION_ALIGNMENT;
use rv_syntax::{
    Form, Label, form_of, has_control, is_name, lookup, split_at, trim, without_comment,
};

/// The parts of a line.
#[derive(Clone, Copy)]
pub struct Statement<'a> {
    /// The label that it defines.
    pub label: Option<&'a [u8]>,
    /// What stands besides.
    pub content: &'a [u8],
}

// The line without its comment and its outer spaces.
fn bare(line: &[u8]) -> &[u8]
    ensures { result.now ≡ bare_of line.now }
{
    trim(without_comment(line))
}

// The label that a line begins with, and what stands behind its colon.
#[tactic(auto, unfolding(crate::specs::Lines::labelled_of))]
fn labelled(bare: &[u8]) -> Option<(&[u8], &[u8])>
    ensures { option_map (λ parts. (parts.0.now, parts.1.now)) result ≡ labelled_of bare.now }
{
    let (name, rest) = split_at(bare, b':')?;
    if is_name(name) {
        Some((name, rest))
    } else {
        None
    }
}

impl<'a> Statement<'a> {
    /// The parts of a line. A line that is outside the grammar has them too.
    pub fn of(line: &'a [u8]) -> Self
        ensures label { option_map (λ label. label.now) result.label ≡ label_of line.now }
        ensures content { result.content.now ≡ content_of line.now }
    {
        let bare = bare(line);
        match labelled(bare) {
            Some((name, rest)) => Statement {
                label: Some(name),
                content: trim(rest),
            },
            None => Statement {
                label: None,
                content: bare,
            },
        }
    }
}

// The mnemonic, and the operands behind the first space.
fn operation(content: &[u8]) -> (&[u8], &[u8])
    ensures { (result.0.now, result.1.now) ≡ operation_of content.now }
{
    match split_at(content, b' ') {
        Some((mnemonic, operands)) => (mnemonic, trim(operands)),
        None => (content, b""),
    }
}

// How many bytes a form with these operands takes.
fn size_of_form(form: Form, operands: &[u8]) -> usize
    ensures { result ≡ size_of_form form operands.now }
{
    match form {
        Form::Byte => 1,
        Form::Word => 4,
        Form::Dword => 8,
        Form::Zero => zeros(operands).map_or(0, |n| n as usize),
        Form::Ascii => quoted(operands).map_or(0, |text| text.len()),
        Form::La => 8,
        _ => 4,
    }
}

/// How many bytes a line with this content takes.
#[tactic(auto, unfolding(crate::specs::Lines::size_of_content))]
pub fn size(content: &[u8]) -> usize
    ensures { result ≡ size_of_content content.now }
{
    let (mnemonic, operands) = operation(content);
    match form_of(mnemonic) {
        Some(form) => size_of_form(form, operands),
        None => 0,
    }
}

// Whether a form is a directive, which may be placed anywhere.
fn is_directive(form: Form) -> bool
    ensures { result ≡ is_directive form }
{
    match form {
        Form::Byte | Form::Word | Form::Dword | Form::Zero | Form::Ascii => true,
        _ => false,
    }
}

// The piece of a form at this address.
#[tactic(auto, unfolding(crate::specs::Lines::item_at))]
fn piece_at<'a>(
    labels: &[Label<'_>],
    here: u64,
    form: Form,
    operands: &'a [u8],
) -> Option<Piece<'a>>
    requires { IsTrue (is_fit form) }
    ensures exact { PieceIs result (item_at (rows labels.now) here operands.now form) }
    ensures size { IfSome result (λ piece. length (piece_bytes piece) ≡ size_of_form form operands.now) }
{
    if is_directive(form) {
        directive(form, operands)
    } else if here % INSTRUCTION_ALIGNMENT == 0 {
        code(form, labels, here, operands)
    } else {
        None
    }
}

// The piece of a content at this address.
#[tactic(auto, unfolding(crate::specs::Lines::item_of, crate::specs::Lines::size_of_content))]
fn piece_of<'a>(labels: &[Label<'_>], here: u64, content: &'a [u8]) -> Option<Piece<'a>>
    ensures exact { PieceIs result (item_of (rows labels.now) here content.now) }
    ensures size { IfSome result (λ piece. length (piece_bytes piece) ≡ size_of_content content.now) }
{
    if content.is_empty() {
        return Some(Piece::Empty);
    }
    let (mnemonic, operands) = operation(content);
    let form = form_of(mnemonic)?;
    piece_at(labels, here, form, operands)
}

// Whether a label is among these.
fn is_defined(labels: &[Label<'_>], label: Option<&[u8]>) -> bool
    ensures { result ≡ is_defined (rows labels.now) (option_map (λ name. name.now) label.entry) }
{
    match label {
        Some(name) => lookup(labels, name).is_some(),
        None => false,
    }
}

/// The piece of a line at this address, where these are the labels of the text and those of the lines before. `None`
/// exactly where the line is outside the grammar.
#[tactic(auto, unfolding(crate::specs::Lines::line_item))]
pub fn piece<'a>(
    labels: &[Label<'_>],
    before: &[Label<'_>],
    here: u64,
    line: &'a [u8],
) -> Option<Piece<'a>>
    ensures exact { PieceIs result (line_item (rows labels.now) (rows before.now) here line.now) }
    ensures size { IfSome result (λ piece. length (piece_bytes piece) ≡ size_of line.now) }
{
    if has_control(without_comment(line)) {
        return None;
    }
    let Statement { label, content } = Statement::of(line);
    if is_defined(before, label) {
        return None;
    }
    piece_of(labels, here, content)
}
