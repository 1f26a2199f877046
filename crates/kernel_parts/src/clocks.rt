//! What clocks show.
ghost use Rattle.std.specs.Prelude.{◌≡◌, ◌+◌, ◌<◌, ◌^◌};
ghost use Rattle.kernel_model.specs.Families.ClockCalls as model;

use abi_types::Constants;
use abi_types::flags::CLOCK_REALTIME;

/// The resolution of each clock, in nanoseconds.
pub const CLOCK_RESOLUTION: u64 = 1000;

/// What a clock shows at the moment `now`, in nanoseconds: REALTIME the time since 1970, and MONOTONIC the moment.
pub fn time_of(constants: &Constants, clock: u32, now: u64) -> u64
    requires { now + constants.now.epoch < 2 ^ 64 }
    ensures { result ≡ model.time_of constants.now clock now }
{
    if clock == CLOCK_REALTIME {
        now + constants.epoch
    } else {
        now
    }
}
