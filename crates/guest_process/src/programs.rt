//! The program that begins in a process by a proc_exec.
ghost use Rattle.std.specs.Prelude.{◌≡◌, OnOk, OnErr, true};
ghost use Rattle.guest_process.specs.Programs.{begun_by, CanBegin, MayBegin};
ghost use Rattle.kernel_model.specs.Threads.{ends_others};
ghost use Rattle.run_model.specs.World.{begun_guest};

use crate::guest::Guest;
use abi_types::{Answer, Call, Errno, Payload, Pid, Tid};
use call_codec::restart_memory;
use maps::NumMap;
use std::alloc::{AllocError, Global};

impl Guest {
    /// Lets the program that the answer to a call of this thread has, if it has one, begin in the process, with this thread alone. `Err`
    /// comes only where there is one and memory ran out, and changes nothing.
    pub fn begin(
        &mut self,
        alloc: Global,
        pid: Pid,
        tid: Tid,
        call: &Call,
        answer: &Answer,
    ) -> Result<(), AllocError>
        requires { MayBegin call.now answer.now }
        ensures ok { OnOk result (self.new ≡ begun_by pid self.old tid call.now answer.now) }
        ensures only { OnErr result (ends_others call.now answer.now ≡ true) }
        ensures err { OnErr result (self.new ≡ self.old) }
    {
        let (Call::ProcExec { bytes, .. }, Answer::Reply(reply)) = (call, answer) else {
            return Ok(());
        };
        match reply.errno {
            Errno::Success => self.restart(alloc, pid, tid, bytes.as_slice(), &reply.payload),
            _ => Ok(()),
        }
    }

    // Lets the program of a payload, if it has one, begin with this argument data. `Err` changes nothing.
    fn restart(
        &mut self,
        alloc: Global,
        pid: Pid,
        tid: Tid,
        argdata: &[u8],
        payload: &Payload,
    ) -> Result<(), AllocError>
        requires { CanBegin argdata.now payload.now }
        ensures ok { OnOk result (self.new ≡ begun_guest self.old pid tid argdata.now payload.now) }
        ensures err { OnErr result (self.new ≡ self.old) }
    {
        let Payload::Image { elf, canary } = payload else {
            return Ok(());
        };
        let (memory, first) = restart_memory(
            alloc,
            elf.as_slice(),
            argdata,
            canary.as_slice(),
            pid,
            tid,
        )?;
        let mut regs = NumMap::new(alloc);
        regs.insert(u64::from(tid.0), first)?;
        self.code.forget();
        self.memory = memory;
        self.regs = regs;
        Ok(())
    }
}
