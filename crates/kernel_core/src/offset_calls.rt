//! The calls that move an open: they read or write where the last one ended, or set that place.
ghost use Rattle.std.specs.Prelude.{◌≡◌, ◌+◌, ◌^◌, ◌<◌, ℕ, Some};
ghost use Rattle.std.specs.FinMap as map;
ghost use Rattle.abi_types.specs.Families.{call_of_offset};
ghost use Rattle.channel_calls.specs.Calls.{end_outcome};
ghost use Rattle.fd_calls.specs.Calls as model;
ghost use Rattle.kernel_model.specs.Done.{IsDone};
ghost use Rattle.kernel_core.specs.OffsetCalls.{offset_outcome};
ghost use Rattle.kernel_model.specs.Calls.{takes_memory};
ghost use Rattle.kernel_model.specs.State.{Table};

use crate::kernel::Kernel;
use abi_types::{Answer, Constants, Errno, OffsetCall, OpenKind, Pid};
use channel_calls::on_end;
use fd_calls::at_offset;
use kernel_invariant::touch_answered;
use kernel_parts::{on_stream, open_of, release};
use right_rules::refused;
use std::alloc::AllocError;

impl Kernel {
    // Does such a call on an end of channels. Descriptors that come with bytes that are read are let go, and what nothing holds any more
    // ends. `Err` changes nothing.
    fn end_call(&mut self, kind: &OpenKind, call: OffsetCall<'_>) -> Result<Answer, AllocError>
        requires there { (o : ℕ) × (map.get self.old.opens o ≡ Some kind.now) }
        ensures { IsDone (takes_memory (call_of_offset call.entry))
            (end_outcome self.old.chans kind.now (call_of_offset call.entry)) self.old self.new result }
    {
        let answer = on_end(
            self.alloc,
            &mut self.objects,
            &mut self.channels,
            kind,
            call,
        )?;
        touch_answered(&mut self.waits, kind, &answer);
        release(
            &mut self.objects,
            &mut self.tree,
            &mut self.tables,
            &mut self.processes,
            &mut self.statuses,
            &mut self.channels,
            &mut self.waits,
        );
        Ok(answer)
    }

    // Does a call that moves the open of a descriptor. `Err` changes nothing.
    pub(crate) fn offset_call(
        &mut self,
        constants: &Constants,
        pid: Pid,
        fd: u32,
        call: OffsetCall<'_>,
    ) -> Result<Answer, AllocError>
        requires on { model.offset_fd (call_of_offset call) ≡ Some fd }
        requires early { self.old.clock + constants.now.epoch < 2 ^ 64 }
        ensures { (table : Table) → map.get self.old.tables pid ≡ Some table
            → IsDone (takes_memory (call_of_offset call.entry))
            (offset_outcome constants.now self.old table fd (call_of_offset call.entry)) self.old self.new result }
    {
        let Some((descriptor, kind)) = open_of(&self.tables, &self.objects, pid, fd) else {
            return Ok(Answer::Reply(refused(Errno::Badf)));
        };
        if let OpenKind::Terminal { which, .. } = kind {
            return on_stream(self.alloc, &mut self.terms, which, call);
        }
        if let OpenKind::End { .. } = kind {
            return self.end_call(&kind, call);
        }
        let mut moved = kind;
        let now = self.clock + constants.epoch;
        let reply = at_offset(self.alloc, &mut self.tree, &mut moved, now, call)?;
        self.objects.set(descriptor.id, moved);
        Ok(Answer::Reply(reply))
    }
}
