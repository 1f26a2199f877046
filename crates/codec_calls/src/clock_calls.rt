//! The calls about clocks.
ghost use Rattle.std.specs.Prelude.{◌≡◌};
ghost use Rattle.codec_calls.specs.ClockCalls.{clock_known, clock_res_get_of, clock_time_get_of, is_cpu_clock, is_time_clock};

use abi_types::flags::{CLOCK_MONOTONIC, CLOCK_REALTIME};
use abi_types::{Call, Errno, Regs};
use codec_arguments::{low, refuse_when};

/// Whether a clock is one of a processor's time: 2 or 4.
pub fn is_cpu_clock(clock: u32) -> bool
    ensures { result ≡ is_cpu_clock clock }
{
    clock == 2 || clock == 4
}

/// Whether a clock is one of the time that passes: MONOTONIC, which is 1, or REALTIME, which is 3.
pub fn is_time_clock(clock: u32) -> bool
    ensures { result ≡ is_time_clock clock }
{
    clock == CLOCK_MONOTONIC || clock == CLOCK_REALTIME
}

// Whether a clock can be asked: NOTSUP for one of a processor's time, INVAL for one that isn't known.
fn check_clock(clock: u32) -> Result<(), Errno>
    ensures { result ≡ clock_known clock }
{
    refuse_when(is_cpu_clock(clock), Errno::Notsup)?;
    refuse_when(!is_time_clock(clock), Errno::Inval)
}

/// clock_res_get: a clock.
pub fn clock_res_get(regs: &Regs) -> Result<Call, Errno>
    ensures { result ≡ clock_res_get_of regs.now }
{
    let clock = low(regs.get(10));
    check_clock(clock)?;
    Ok(Call::ClockResGet { clock })
}

/// clock_time_get: a clock and a precision.
pub fn clock_time_get(regs: &Regs) -> Result<Call, Errno>
    ensures { result ≡ clock_time_get_of regs.now }
{
    let clock = low(regs.get(10));
    check_clock(clock)?;
    Ok(Call::ClockTimeGet {
        clock,
        precision: regs.get(11),
    })
}
