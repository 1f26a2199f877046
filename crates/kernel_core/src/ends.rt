//! The call that makes two ends: of a pipe, or of a pair of sockets.
ghost use Rattle.std.specs.Prelude.{◌≡◌, Some, IfOk, IfErr, true};
ghost use Rattle.std.specs.FinMap as map;
ghost use Rattle.std.specs.Option.{option_map};
ghost use Rattle.channel_calls.specs.Pairs.{model_of};
ghost use Rattle.kernel_model.specs.Done.{IsDone};
ghost use Rattle.kernel_core.specs.Ends.{IsPair};
ghost use Rattle.kernel_model.specs.Families.SocketCalls as model;
ghost use Rattle.kernel_model.specs.Outcome.{replies};
ghost use Rattle.kernel_model.specs.Release.{lives};
ghost use Rattle.kernel_model.specs.State.{Table};
ghost use Rattle.kernel_model.specs.Valid.{IsValid};

use crate::kernel::Kernel;
use abi_types::flags::{FILETYPE_FIFO, FILETYPE_SOCKET_STREAM};
use abi_types::{Answer, Errno, ObjId, Reply, Who};
use channel_calls::{Pair, PairKind, put_pair};
use kernel_invariant::touch_number_of;
use kernel_parts::release;
use right_rules::{refused, success};
use std::alloc::AllocError;

// Which pair has this type.
fn pair_of(kind: u32) -> Option<PairKind>
    ensures { option_map model_of result ≡ model.made_of kind }
{
    if kind == u32::from(FILETYPE_FIFO) {
        Some(PairKind::Fifo)
    } else if kind == u32::from(FILETYPE_SOCKET_STREAM) {
        Some(PairKind::Stream)
    } else {
        None
    }
}

// How many objects a pair is: its channels and its two ends.
fn count_of(kind: PairKind) -> u32
    ensures { result ≡ model.count_of (model_of kind) }
{
    match kind {
        PairKind::Fifo => 3,
        PairKind::Stream => 4,
    }
}

impl Kernel {
    // The pair that a call makes, or its reply where it makes none. Two free numbers are looked for first.
    fn plan_pair(&self, who: &Who, kind: PairKind) -> Result<Pair, Reply>
        ensures ok { IfOk result (λ pair. (table : Table) → map.get self.now.tables who.now.pid ≡ Some table
            → IsPair self.now who.now table kind pair) }
        ensures refused { IfErr result (λ reply. (table : Table) → map.get self.now.tables who.now.pid ≡ Some table
            → model.create (Some (model_of kind)) who.now.pid who.now.tid (map.get self.now.processes who.now.pid) table ≡ replies reply) }
    {
        let p = u64::from(who.pid.0);
        let (Some(table), Some(own)) = (self.tables.get(p), self.processes.get(p)) else {
            return Err(refused(Errno::Badf));
        };
        let Some(one) = table.lowest() else {
            return Err(refused(Errno::Mfile));
        };
        let Some(two) = table.lowest_beside(one) else {
            return Err(refused(Errno::Mfile));
        };
        let Some(_) = own.thread(who.tid) else {
            return Err(refused(Errno::Again));
        };
        let count = count_of(kind);
        let Some(last) = own.numbered(who.pid, count) else {
            return Err(refused(Errno::Again));
        };
        let first = ObjId(last.0 - u64::from(count - 1));
        Ok(Pair {
            kind,
            first,
            one,
            two,
        })
    }

    // Makes two ends with their channels, at the lowest free numbers. `Err` changes nothing.
    pub(crate) fn fd_create2(&mut self, who: &Who, kind: u32) -> Result<Answer, AllocError>
        requires there { lives (map.get self.old.statuses who.now.pid) ≡ true }
        requires valid { IsValid self.old }
        ensures { (table : Table) → map.get self.old.tables who.now.pid ≡ Some table
            → IsDone true (model.create (model.made_of kind) who.now.pid who.now.tid (map.get self.old.processes who.now.pid) table)
            self.old self.new result }
    {
        let Some(kind) = pair_of(kind) else {
            return Ok(Answer::Reply(refused(Errno::Notsup)));
        };
        let pair = match self.plan_pair(who, kind) {
            Ok(pair) => pair,
            Err(reply) => return Ok(Answer::Reply(reply)),
        };
        let p = u64::from(who.pid.0);
        let table = self.tables.get_mut(p);
        put_pair(
            self.alloc,
            table,
            &mut self.objects,
            &mut self.channels,
            &pair,
        )?;
        self.processes.get_mut(p).make(count_of(kind));
        touch_number_of(&mut self.waits, &self.processes, who.pid, pair.one);
        touch_number_of(&mut self.waits, &self.processes, who.pid, pair.two);
        release(
            &mut self.objects,
            &mut self.tree,
            &mut self.tables,
            &mut self.processes,
            &mut self.statuses,
            &mut self.channels,
            &mut self.waits,
        );
        let reply = success(u64::from(pair.one), u64::from(pair.two));
        Ok(Answer::Reply(reply))
    }
}
