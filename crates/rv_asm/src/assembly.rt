//! A text, assembled.
ghost use Rattle.std.specs.Prelude.{◌≡◌, ◌+◌, ◌++◌, ◌<◌, [], None, Some, map, length, IfOk, IfErr, IfSome, OnOk};
ghost use Rattle.rv_asm.specs.Lines.{labels_of, labels_up_to, unplaced, fault_from, fault_with, first_fault, AreBytesFrom, Assembles, IsFaultOf};
ghost use Rattle.rv_syntax.specs.Names.{rows};
ghost use Rattle.rv_syntax.specs.Text.{lines_of};

use crate::place::Place;
use crate::statement::piece;
use lists::Bytes;
use rv_syntax::Label;
use std::alloc::{AllocError, Global};

/// Why a text gave no bytes.
#[derive(Clone, Copy, Debug, PartialEq, Eq)]
pub enum AsmFault {
    /// The line of this number, where the first has number 1, is outside the grammar, and those before it are inside.
    Line(u32),
    /// Memory ran out. This comes too where an address needs more than 64 bits, or a line's number more than 32.
    NoMemory,
}

impl From<AllocError> for AsmFault {
    ghost use Rattle.std.specs.Prelude.{◌≡◌};
    ghost use Rattle.rv_asm.specs.declared.assembly.AsmFault.TheVariants.{NoMemory};

    ghost from_gives = { λ _ fault. fault ≡ NoMemory };

    fn from(_error: AllocError) -> AsmFault {
        AsmFault::NoMemory
    }
}

// The lines of a text, between its line feeds.
fn lines(alloc: Global, text: &str) -> Result<Vec<&str>, AllocError>
    ensures { IfOk result (λ lines. map (λ line. line.now) lines.items ≡ lines_of text.now) }
{
    text.split('\n').collect(alloc)
}

// The labels of lines, with their addresses.
fn labels<'a>(alloc: Global, lines: &[&'a str]) -> Result<Vec<Label<'a>>, AllocError>
    ensures { IfOk result (λ labels. rows labels.items ≡ labels_of (map (λ line. line.now) lines.now)) }
{
    let mut place = Place::start(alloc);
    for line in lines {
        place.pass(line.as_bytes())?;
    }
    let Place { labels, address: _ } = place;
    Ok(labels)
}

// The fault of the line at this index.
fn fault_at(index: usize) -> AsmFault
    ensures { IsFaultOf result (Some (index + 1)) }
{
    match u32::try_from(index) {
        Ok(before) if before < u32::MAX => AsmFault::Line(before + 1),
        _ => AsmFault::NoMemory,
    }
}

// The bytes of lines, where these are the labels of the text.
fn emit(alloc: Global, lines: &[&str], labels: &[Label<'_>]) -> Result<Vec<u8>, AsmFault>
    ensures ok { IfOk result (λ out. AreBytesFrom (rows labels.now) [] 0 (map (λ line. line.now) lines.now) out.items) }
    ensures taken { OnOk result (fault_from (rows labels.now) [] 0 1 (map (λ line. line.now) lines.now) ≡ None) }
    ensures err { IfErr result (λ fault. IsFaultOf fault (fault_from (rows labels.now) [] 0 1 (map (λ line. line.now) lines.now))) }
{
    let mut place = Place::start(alloc);
    let mut out = Vec::new(alloc);
    for (i, line) in lines.iter().enumerate() {
        let Some(piece) = piece(labels, &place.labels, place.address, line.as_bytes()) else {
            return Err(fault_at(i));
        };
        piece.append_to(&mut out)?;
        place.pass(line.as_bytes())?;
    }
    Ok(out)
}

// Puts labels without their addresses at the end of others.
fn append_unplaced<'a>(labels: &mut Vec<Label<'a>>, names: &[Label<'a>]) -> Result<(), AllocError>
    ensures { OnOk result (rows labels.new.items ≡ rows labels.old.items ++ unplaced (rows names.now)) }
{
    for (name, _) in names {
        labels.push((*name, None))?;
    }
    Ok(())
}

// The index of the first line that is outside the grammar, where these are the labels of the text.
fn fault_index(
    alloc: Global,
    lines: &[&str],
    labels: &[Label<'_>],
) -> Result<Option<usize>, AllocError>
    ensures exact { IfOk result (λ found. found ≡ fault_from (rows labels.now) [] 0 0 (map (λ line. line.now) lines.now)) }
    ensures inside { IfOk result (λ found. IfSome found (λ i. i < length lines.now)) }
{
    let mut place = Place::start(alloc);
    for (i, line) in lines.iter().enumerate() {
        let Some(_) = piece(labels, &place.labels, place.address, line.as_bytes()) else {
            return Ok(Some(i));
        };
        place.pass(line.as_bytes())?;
    }
    Ok(None)
}

// The fault of lines, where the line at this index is outside the grammar wherever labels are.
fn fault_up_to<'a>(
    alloc: Global,
    lines: &[&'a str],
    all: &[Label<'a>],
    index: usize,
) -> Result<AsmFault, AllocError>
    requires inside { index < length lines.now }
    requires all { rows all.now ≡ labels_of (map (λ line. line.now) lines.now) }
    ensures { IfOk result (λ fault. IsFaultOf fault (fault_with (map (λ line. line.now) lines.now) (Some index))) }
{
    let mut known = labels(alloc, &lines[..index + 1])?;
    append_unplaced(&mut known, all)?;
    let first = fault_index(alloc, &lines[..index], &known)?;
    Ok(fault_at(first.unwrap_or(index)))
}

/// The bytes of a text: those of its lines, in their order. An instruction's word is decoded to the instruction that its
/// line names. `Line` names the first line that is outside the grammar, and comes where there is one unless memory ran
/// out.
pub fn assemble(alloc: Global, text: &str) -> Result<Bytes, AsmFault>
    // The bytes are of the text's lines.
    ensures ok { IfOk result (λ bytes. Assembles text.now bytes) }
    // Each line is inside the grammar.
    ensures taken { OnOk result (first_fault text.now ≡ None) }
    // The first line that is outside is the one that is named.
    ensures line { IfErr result (λ fault. IsFaultOf fault (first_fault text.now)) }
    // No line is named where all are inside.
    ensures inside { first_fault text.now ≡ None → IfErr result (λ fault. fault ≡ AsmFault.NoMemory) }
{
    let lines = lines(alloc, text)?;
    let labels = labels(alloc, &lines)?;
    let mut names = Vec::new(alloc);
    append_unplaced(&mut names, &labels)?;
    if let Some(index) = fault_index(alloc, &lines, &names)? {
        return Err(fault_up_to(alloc, &lines, &labels, index)?);
    }
    Ok(Bytes::from_vec(emit(alloc, &lines, &labels)?))
}
