//! The calls on sockets.
ghost use Rattle.std.specs.Prelude.{◌≡◌, Some, true};
ghost use Rattle.std.specs.FinMap as map;
ghost use Rattle.abi_types.specs.Families.{call_of_socket};
ghost use Rattle.kernel_model.specs.Done.{IsDone};
ghost use Rattle.kernel_invariant.specs.Sockets.{socket_on};
ghost use Rattle.kernel_model.specs.Calls.{takes_memory};
ghost use Rattle.kernel_model.specs.Release.{lives};
ghost use Rattle.kernel_model.specs.State.{Table};
ghost use Rattle.kernel_parts.specs.Waiting.{fd_of_socket};

use crate::kernel::Kernel;
use abi_types::{Answer, Errno, Pid, SocketCall};
use channel_calls::on_socket;
use kernel_invariant::{touch_answered, touch_received};
use kernel_parts::{open_of, release, socket_fd};
use right_rules::refused;
use std::alloc::AllocError;

impl Kernel {
    // Does a call on a socket. What nothing holds any more ends. `Err` changes nothing.
    pub(crate) fn socket_call(
        &mut self,
        pid: Pid,
        call: SocketCall<'_>,
    ) -> Result<Answer, AllocError>
        requires there { lives (map.get self.old.statuses pid) ≡ true }
        ensures { (table : Table) → map.get self.old.tables pid ≡ Some table
            → IsDone (takes_memory (call_of_socket call.entry))
            (socket_on self.old pid table (fd_of_socket call.entry) (call_of_socket call.entry)) self.old self.new result }
    {
        let fd = socket_fd(call);
        let Some((_, kind)) = open_of(&self.tables, &self.objects, pid, fd) else {
            return Ok(Answer::Reply(refused(Errno::Badf)));
        };
        let table = self.tables.get_mut(u64::from(pid.0));
        let answer = on_socket(
            self.alloc,
            table,
            &mut self.objects,
            &mut self.channels,
            &kind,
            call,
        )?;
        touch_answered(&mut self.waits, &kind, &answer);
        touch_received(&mut self.waits, pid, &answer);
        release(
            &mut self.objects,
            &mut self.tree,
            &mut self.tables,
            &mut self.processes,
            &mut self.statuses,
            &mut self.channels,
            &mut self.waits,
        );
        Ok(answer)
    }
}
