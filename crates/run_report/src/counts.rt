//! How many calls a history has, and how many of each number.
ghost use Rattle.std.specs.Prelude.{◌≡◌, ◌++◌, OnOk, slice_get};
ghost use Rattle.abi_types.specs.CallNumbers.{all_calls};
ghost use Rattle.run_report.specs.Counts.{calls_count, count_line, is_call, is_call_of, is_number, number_count, number_lines, place_line};

use abi_types::{Bytes, CallNumber};
use block_list::BlockList;
use run_types::{Act, Entry};
use std::alloc::{AllocError, Global};

// How many numbers of calls there are.
const NUMBERS: u64 = 49;

// Whether the act is a call.
fn is_call(act: &Act) -> bool
    ensures { result ≡ is_call act.now }
{
    matches!(act, Act::Call { .. })
}

// Whether a call that has such a number, or one that none of the 49 has, is this one.
fn is_number(number: CallNumber, other: Result<CallNumber, u64>) -> bool
    ensures { result ≡ is_number number other }
{
    match other {
        Ok(other) => other.number() == number.number(),
        Err(_) => false,
    }
}

// Whether the act is a call of this number.
fn is_call_of(number: CallNumber, act: &Act) -> bool
    ensures { result ≡ is_call_of number act.now }
{
    match act {
        Act::Call { call, .. } => is_number(number, call.number()),
        _ => false,
    }
}

/// How many entries are calls.
pub fn calls_count(entries: &BlockList<Entry>) -> usize
    ensures { result ≡ calls_count entries.now.items }
{
    let mut count = 0;
    for index in 0..entries.len() {
        if is_call(&entries.at(index).act) {
            count += 1;
        }
    }
    count
}

// How many entries are calls of this number.
fn number_count(number: CallNumber, entries: &BlockList<Entry>) -> usize
    ensures { result ≡ number_count number entries.now.items }
{
    let mut count = 0;
    for index in 0..entries.len() {
        if is_call_of(number, &entries.at(index).act) {
            count += 1;
        }
    }
    count
}

// Puts a name and how many there are of it at the end, where there are any. `Err` may leave a part of it.
fn append_count(alloc: Global, text: &mut Bytes, name: &str, count: usize) -> Result<(), AllocError>
    ensures { OnOk result (text.new ≡ text.old ++ count_line name.now count) }
{
    if count == 0 {
        return Ok(());
    }
    text.append(format!(in alloc; "{name} {count}\n")?.as_bytes())
}

// Puts the line of the number at this place at the end, where there is such a number and there are calls of it. `Err` may leave a part of it.
fn append_number(
    alloc: Global,
    text: &mut Bytes,
    entries: &BlockList<Entry>,
    place: u64,
) -> Result<(), AllocError>
    ensures { OnOk result (text.new ≡ text.old ++ place_line entries.now.items (slice_get all_calls place)) }
{
    match CallNumber::of(place) {
        Some(number) => {
            let count = number_count(number, entries);
            append_count(alloc, text, number.name(), count)
        }
        None => Ok(()),
    }
}

/// Puts a line for each number of which there are calls at the end, in the order of the numbers. `Err` may leave a part of them. It
/// goes over the entries once for each number.
pub fn append_numbers(
    alloc: Global,
    text: &mut Bytes,
    entries: &BlockList<Entry>,
) -> Result<(), AllocError>
    ensures { OnOk result (text.new ≡ text.old ++ number_lines entries.now.items) }
{
    for place in 0..NUMBERS {
        append_number(alloc, text, entries, place)?;
    }
    Ok(())
}
