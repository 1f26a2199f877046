//! The lines of a report on denied calls.
ghost use Rattle.std.specs.Prelude.{◌≡◌, ◌++◌, IfOk, OnOk, map, filter};
ghost use Rattle.std.specs.List.{flat_map};
ghost use Rattle.abi_base.specs.Rights.{has_all};
ghost use Rattle.std.specs.String.{string_bytes};
ghost use Rattle.run_report.specs.Denials.{denial_line, denial_text, missing_text, thread_text, listed, rights_text, right_names, listed_denials};

use crate::call_names::number_name;
use abi_types::{Bytes, Denial, Pid, Rights, Tid};
use bitflags::{Flag, Flags};
use block_list::BlockList;
use denied_calls::DeniedCall;
use std::alloc::{AllocError, Global};

// The names of those flags whose rights are all in the set.
fn names_among(
    alloc: Global,
    flags: &[Flag<Rights>],
    rights: Rights,
) -> Result<Vec<&'static str>, AllocError>
    ensures { IfOk result (λ found. found.items
        ≡ map (λ flag. flag.name) (filter (λ flag. has_all rights.0 flag.value.0) flags.now)) }
{
    flags
        .iter()
        .filter(|flag| rights.contains(flag.value))
        .map(|flag| flag.name)
        .collect(alloc)
}

// The names of the rights in the set, in rising bit order. A bit that is no right's has no name here.
fn right_names(alloc: Global, rights: Rights) -> Result<Vec<&'static str>, AllocError>
    ensures { IfOk result (λ found. map (λ name. name.now) found.items ≡ right_names rights.0) }
{
    names_among(alloc, Rights::flags(), rights)
}

// The names with commas between them, or `-` where there is none.
#[tactic(auto, using(crate::proofs::ReportTexts::listing))]
fn listed(alloc: Global, names: &[&str]) -> Result<String, AllocError>
    ensures { IfOk result (λ text. string_bytes text ≡ listed (map (λ name. name.now) names.now)) }
{
    if names.is_empty() {
        String::from_str(alloc, "-")
    } else {
        names.join(alloc, ",")
    }
}

// The names of the rights in the set, in rising bit order, with commas between them, or `-` where there is none.
#[tactic(auto, unfolding(crate::specs::Denials::rights_text))]
fn rights_text(alloc: Global, rights: Rights) -> Result<String, AllocError>
    ensures { IfOk result (λ text. string_bytes text ≡ rights_text rights.0) }
{
    let names = right_names(alloc, rights)?;
    listed(alloc, &names)
}

// The rights that a descriptor lacks.
fn missing_text(
    alloc: Global,
    fd: u32,
    base: Rights,
    inheriting: Rights,
) -> Result<String, AllocError>
    ensures { IfOk result (λ text. string_bytes text ≡ missing_text fd base inheriting) }
{
    let base = rights_text(alloc, base)?;
    let inheriting = rights_text(alloc, inheriting)?;
    format!(in alloc; "fd {fd} base {base} inheriting {inheriting}")
}

// Why a call was denied.
fn denial_text(alloc: Global, denial: Denial) -> Result<String, AllocError>
    ensures { IfOk result (λ text. string_bytes text ≡ denial_text denial) }
{
    match denial {
        Denial::Missing {
            fd,
            base,
            inheriting,
        } => missing_text(alloc, fd, base, inheriting),
        Denial::Outside { component } => format!(in alloc; "outside {component}"),
    }
}

/// A process and its thread.
#[tactic(auto, using(crate::proofs::ReportTexts::padded_eight))]
pub(crate) fn thread_text(alloc: Global, pid: Pid, tid: Tid) -> Result<String, AllocError>
    ensures { IfOk result (λ text. string_bytes text ≡ thread_text pid tid) }
{
    format!(in alloc; "{:08x}.{}", pid.0, tid.0)
}

// The line of a denied call.
#[tactic(auto, unfolding(crate::specs::Denials::denial_line))]
fn denial_line(alloc: Global, call: &DeniedCall) -> Result<String, AllocError>
    ensures { IfOk result (λ line. string_bytes line ≡ denial_line call.now) }
{
    let thread = thread_text(alloc, call.pid, call.tid)?;
    let name = number_name(alloc, call.number)?;
    let denial = denial_text(alloc, call.denial)?;
    format!(in alloc; "{thread} {name} {denial}\n")
}

// Puts the lines of denied calls at the end. `Err` may leave a part of them.
fn append_lines(
    alloc: Global,
    text: &mut Bytes,
    calls: &BlockList<DeniedCall>,
) -> Result<(), AllocError>
    ensures { OnOk result (text.new ≡ text.old ++ flat_map denial_line calls.now.items) }
{
    for index in 0..calls.len() {
        text.append(denial_line(alloc, calls.at(index))?.as_bytes())?;
    }
    Ok(())
}

/// Puts the lines of denied calls at the end, under a line with their number. `Err` may leave a part of it.
pub fn append_denials(
    alloc: Global,
    text: &mut Bytes,
    calls: &BlockList<DeniedCall>,
) -> Result<(), AllocError>
    ensures { OnOk result (text.new ≡ text.old ++ listed_denials calls.now.items) }
{
    let count = calls.len();
    text.append(format!(in alloc; "== denials {count}\n")?.as_bytes())?;
    append_lines(alloc, text, calls)
}
