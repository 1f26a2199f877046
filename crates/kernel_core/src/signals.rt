//! The call that raises a signal.
ghost use Rattle.std.specs.Prelude.{◌≡◌, true};
ghost use Rattle.std.specs.FinMap as map;
ghost use Rattle.abi_types.specs.declared.reply.Answer.TheVariants as answer;
ghost use Rattle.kernel_model.specs.Done.{IsAnswered};
ghost use Rattle.kernel_model.specs.Families.ProcessCalls.{raise_of, signal_of};
ghost use Rattle.kernel_model.specs.Release.{lives};
ghost use Rattle.kernel_model.specs.Valid.{IsValid};

use crate::kernel::Kernel;
use abi_types::{Errno, Reply, Status, Who};
use process_calls::{Raised, effect_of};
use right_rules::{refused, success};

impl Kernel {
    // Sends the caller's process the signal with this number, by which it may end.
    pub(crate) fn proc_raise(&mut self, who: &Who, signal: u32) -> Reply
        requires there { lives (map.get self.old.statuses who.now.pid) ≡ true }
        requires valid { IsValid self.old }
        ensures { IsAnswered (raise_of who.now.pid (signal_of signal))
            self.old self.new (answer.Reply result) }
    {
        match effect_of(signal) {
            Raised::Unknown => refused(Errno::Inval),
            Raised::Stops => refused(Errno::Notsup),
            Raised::Passes => success(0, 0),
            Raised::Ends(signal) => {
                self.end_process(who.pid, Status::Killed(signal));
                success(0, 0)
            }
        }
    }
}
