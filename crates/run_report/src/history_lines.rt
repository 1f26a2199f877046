//! The lines of a report on the entries of a history.
ghost use Rattle.std.specs.Prelude.{◌≡◌, ◌++◌, IfOk, OnOk};
ghost use Rattle.std.specs.List.{flat_map};
ghost use Rattle.std.specs.String.{string_bytes};
ghost use Rattle.run_report.specs.HistoryLines.{act_text, answer_text, call_text, entry_text, history_text};

use crate::call_names::call_name;
use crate::denials::thread_text;
use abi_types::{Answer, Bytes, Call};
use block_list::BlockList;
use run_types::{Act, Entry};
use std::alloc::{AllocError, Global};

// The name of an answer's error, and the two numbers that it gave. The answer that the thread waits gave none.
fn answer_text(alloc: Global, answer: &Answer) -> Result<String, AllocError>
    ensures { IfOk result (λ text. string_bytes text ≡ answer_text answer.now) }
{
    match answer {
        Answer::Parked(_) => String::from_str(alloc, "PARKED 0 0"),
        Answer::Reply(reply) => {
            let error = reply.errno.name();
            format!(in alloc; "{error} {} {}", reply.r1, reply.r2)
        }
    }
}

// The word of an act, its call and the answer.
fn call_text(alloc: Global, word: &str, call: &Call, answer: &Answer) -> Result<String, AllocError>
    ensures { IfOk result (λ text. string_bytes text ≡ call_text word.now call.now answer.now) }
{
    let call = call_name(alloc, call)?;
    let answer = answer_text(alloc, answer)?;
    format!(in alloc; "{word} {call} {answer}")
}

// What an entry did.
fn act_text(alloc: Global, act: &Act) -> Result<String, AllocError>
    ensures { IfOk result (λ text. string_bytes text ≡ act_text act.now) }
{
    match act {
        Act::Call { call, answer } => call_text(alloc, "call", call, answer),
        Act::Wake { call, answer, .. } => call_text(alloc, "wake", call, answer),
        Act::Trap(_) => String::from_str(alloc, "trap - - 0 0"),
        Act::Expire => String::from_str(alloc, "expire - - 0 0"),
        Act::Idle => String::from_str(alloc, "idle - - 0 0"),
    }
}

// The line of an entry.
fn entry_text(alloc: Global, entry: &Entry) -> Result<String, AllocError>
    ensures { IfOk result (λ line. string_bytes line ≡ entry_text entry.now) }
{
    let thread = thread_text(alloc, entry.pid, entry.tid)?;
    let turns = entry.turns.len();
    let act = act_text(alloc, &entry.act)?;
    format!(in alloc; "{} {thread} {turns} {act}\n", entry.moment)
}

// Puts the lines of the entries at the end. `Err` may leave a part of them.
fn append_entries(
    alloc: Global,
    text: &mut Bytes,
    history: &BlockList<Entry>,
) -> Result<(), AllocError>
    ensures { OnOk result (text.new ≡ text.old ++ flat_map entry_text history.now.items) }
{
    for index in 0..history.len() {
        text.append(entry_text(alloc, history.at(index))?.as_bytes())?;
    }
    Ok(())
}

/// Puts the lines of the entries at the end, under a line with their number. `Err` may leave a part of it.
pub fn append_history(
    alloc: Global,
    text: &mut Bytes,
    history: &BlockList<Entry>,
) -> Result<(), AllocError>
    ensures { OnOk result (text.new ≡ text.old ++ history_text history.now.items) }
{
    let count = history.len();
    text.append(format!(in alloc; "== history {count}\n")?.as_bytes())?;
    append_entries(alloc, text, history)
}
