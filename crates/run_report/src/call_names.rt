//! The names of calls.
ghost use Rattle.std.specs.Prelude.{◌≡◌, IfOk};
ghost use Rattle.std.specs.String.{string_bytes};
ghost use Rattle.run_report.specs.CallNames.{call_name, name_of_number};

use abi_types::{Call, CallNumber};
use std::alloc::{AllocError, Global};

/// The name of a call by its number, and of a number that no call has the number in decimal.
pub fn number_name(alloc: Global, number: Result<CallNumber, u64>) -> Result<String, AllocError>
    ensures { IfOk result (λ name. string_bytes name ≡ name_of_number number) }
{
    match number {
        Ok(number) => String::from_str(alloc, number.name()),
        Err(number) => format!(in alloc; "{number}"),
    }
}

/// The name of a call.
pub fn call_name(alloc: Global, call: &Call) -> Result<String, AllocError>
    ensures { IfOk result (λ name. string_bytes name ≡ call_name call.now) }
{
    number_name(alloc, call.number())
}
