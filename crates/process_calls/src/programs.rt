//! The program that begins in a process, and the descriptors that the process has then.
ghost use Rattle.std.specs.Prelude.{◌≡◌, ◌≤◌, ◌<◌, ◌+◌, ◌↔◌, ◌^◌, ℕ, None, Some, true, IfErr, IfOk, IsSome, IsTrue, OnErr, length, option_copied};
ghost use Rattle.std.specs.FinMap as map;
ghost use Rattle.std.specs.Option.{option_map};
ghost use Rattle.abi_base.specs.declared.limits.TheConstants.{MOST_DESCRIPTORS};
ghost use Rattle.clock_random.specs.Random.{random_bytes};
ghost use Rattle.elf_image.specs.Checks.{fault_of};
ghost use Rattle.fd_table.specs.Table.{IsTable};
ghost use Rattle.kernel_model.specs.Families.ClockCalls.{can_draw};
ghost use Rattle.kernel_model.specs.Families.ForkCalls.{exec_checked, listed};
ghost use Rattle.kernel_model.specs.Outcome.{replies};
ghost use Rattle.kernel_model.specs.Release.{count_in};
ghost use Rattle.kernel_model.specs.Start.{canary_words};
ghost use Rattle.kernel_model.specs.State.{Table};
ghost use Rattle.kernel_parts.specs.Changes.{IsMoved};
ghost use Rattle.maps.specs.Maps.{number};
ghost use Rattle.process_calls.specs.Forks.{IsOpenOf};
ghost use Rattle.process_calls.specs.NewPrograms.{IsProgram};
ghost use Rattle.process_calls.specs.Programs.{node_of_file};
ghost use Rattle.tree_model.specs.Changes.{bytes_of};

use abi_base::MOST_DESCRIPTORS;
use abi_types::{Constants, Errno, OpenKind, Pid, Reply};
use elf_image::read_elf;
use fd_table::FdTable;
use file_tree::Tree;
use kernel_parts::{ProcessState, hold_all, let_go_all};
use lists::{Bytes, Stop};
use object_store::Objects;
use right_rules::refused;
use std::alloc::{AllocError, Global};

/// The bytes of the file that the open is of. `None` exactly where it is of no file.
pub fn program_of<'a>(tree: &'a Tree, kind: &OpenKind) -> Option<&'a [u8]>
    ensures { option_copied result ≡ option_map (bytes_of tree.now) (node_of_file kind.now) }
{
    match kind {
        OpenKind::File { node, .. } => Some(tree.bytes(*node)),
        _ => None,
    }
}

/// Whether the bytes are a program. `Err` where memory ran out, which comes only where they are.
pub fn check_program(alloc: Global, bytes: &[u8]) -> Result<bool, AllocError>
    ensures sound { IfOk result (λ sound. IsTrue sound ↔ (fault_of bytes.now ≡ None)) }
    ensures only { OnErr result (fault_of bytes.now ≡ None) }
{
    match read_elf(alloc, bytes) {
        Ok(_) => Ok(true),
        Err(Stop::At(_)) => Ok(false),
        Err(Stop::Memory) => Err(AllocError),
    }
}

/// Gives a process another table: what that names is held once more, and what the process had once less. Takes no memory.
pub fn put_table(table: &mut FdTable, objects: &mut Objects, new: FdTable)
    requires covered { (o : ℕ) → count_in o table.old ≤ number (map.get objects.old.counts o) }
    requires counted { (o : ℕ) → IsSome (map.get objects.old.kinds o) → IsSome (map.get objects.old.counts o) }
    requires opens { (n : ℕ) → IsOpenOf objects.old.kinds (map.get new n) }
    requires few { (o : ℕ) → number (map.get objects.old.counts o) < 2 ^ 62 + 2 ^ 61 }
    ensures table { table.new ≡ new }
    ensures kinds { objects.new.kinds ≡ objects.old.kinds }
    ensures counts { IsMoved table.old table.new objects.old.counts objects.new.counts }
{
    hold_all(&new, objects);
    let_go_all(table, objects);
    *table = new;
}

/// A program that is to begin in a process.
#[derive(Drop)]
pub struct NewProgram {
    /// The bytes of its file.
    pub elf: Bytes,
    /// The random bytes that it starts with.
    pub canary: Bytes,
    /// The descriptors that the process has then.
    pub table: FdTable,
}

// The descriptors that are listed of a table, at their places. Each is there. A list that has more of them than a table may have is no
// different from one for which memory runs out.
fn pick(table: &FdTable, fds: &[u32]) -> Result<FdTable, AllocError>
    ensures picked { IfOk result (λ made. made ≡ listed table.now fds.now) }
    ensures small { IfOk result IsTable }
{
    if fds.len() > MOST_DESCRIPTORS {
        return Err(AllocError);
    }
    match table.pick(fds) {
        Ok(made) => Ok(made),
        Err(_) => Err(AllocError),
    }
}

// The canary of the program with these bytes that begins in the process, or the reply where none begins. Both are looked at before memory
// is said to have run out, since it may not in a call that is refused.
fn plan_canary(
    alloc: Global,
    constants: &Constants,
    pid: Pid,
    own: &ProcessState,
    elf: &[u8],
) -> Result<Result<Bytes, Reply>, AllocError>
    ensures ok { IfOk result (λ planned. IfOk planned (λ canary. (fault_of elf.now ≡ None) × (can_draw canary_words own.now ≡ true)
        × (canary ≡ random_bytes constants.now.key pid own.now.counts.words 64))) }
    ensures refused { IfOk result (λ planned. IfErr planned (λ reply. (t : ℕ) (table : Table)
        → exec_checked constants.now.key pid t table elf.now (Some own.now) (fault_of elf.now) ≡ replies reply)) }
    ensures only { OnErr result ((fault_of elf.now ≡ None) × (can_draw canary_words own.now ≡ true)) }
{
    let canary = own.next_canary(alloc, constants, pid);
    match check_program(alloc, elf) {
        Ok(false) => Ok(Err(refused(Errno::Noexec))),
        Ok(true) => match canary? {
            Some(bytes) => Ok(Ok(bytes)),
            None => Ok(Err(refused(Errno::Again))),
        },
        Err(error) => match canary {
            Ok(Some(_)) => Err(error),
            Ok(None) => Ok(Err(refused(Errno::Again))),
            Err(_) => Err(error),
        },
    }
}

/// The program that begins in a process with these bytes and with the descriptors that are listed, or the reply where none begins. `Err` where
/// memory ran out, which comes only where one would begin.
pub fn plan_program(
    alloc: Global,
    constants: &Constants,
    pid: Pid,
    own: &ProcessState,
    table: &FdTable,
    elf: &[u8],
    fds: &[u32],
) -> Result<Result<NewProgram, Reply>, AllocError>
    ensures ok { IfOk result (λ planned. IfOk planned (IsProgram constants.now.key pid own.now table.now elf.now fds.now)) }
    ensures refused { IfOk result (λ planned. IfErr planned (λ reply. (t : ℕ) (table : Table)
        → exec_checked constants.now.key pid t table elf.now (Some own.now) (fault_of elf.now) ≡ replies reply)) }
    ensures only { OnErr result ((fault_of elf.now ≡ None) × (can_draw canary_words own.now ≡ true)) }
{
    let canary = match plan_canary(alloc, constants, pid, own, elf)? {
        Ok(canary) => canary,
        Err(reply) => return Ok(Err(reply)),
    };
    let table = pick(table, fds)?;
    let elf = Bytes::of(alloc, elf)?;
    Ok(Ok(NewProgram { elf, canary, table }))
}
