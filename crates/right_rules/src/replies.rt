//! Replies of calls.
ghost use Rattle.std.specs.Prelude.{◌≡◌};
ghost use Rattle.kernel_model.specs.Reply.{success, refused};

use abi_types::{Errno, Payload, Reply, WordWrites};

/// A call that is done, with its results.
pub fn success(r1: u64, r2: u64) -> Reply
    ensures { result ≡ success r1 r2 }
{
    Reply {
        errno: Errno::Success,
        r1,
        r2,
        payload: Payload::Nothing,
        writes: WordWrites::Zero,
        denial: None,
    }
}

/// A call that is done, with a result and with what it gives beside it.
pub fn success_with(r1: u64, payload: Payload) -> Reply
    ensures { result ≡ record (success r1 0) { payload = payload } }
{
    Reply {
        errno: Errno::Success,
        r1,
        r2: 0,
        payload,
        writes: WordWrites::Zero,
        denial: None,
    }
}

/// A call that is refused by an error.
pub fn refused(errno: Errno) -> Reply
    ensures { result ≡ refused errno }
{
    Reply {
        errno,
        r1: 0,
        r2: 0,
        payload: Payload::Nothing,
        writes: WordWrites::Zero,
        denial: None,
    }
}
