//! The word of a lock in a call that waits for it.
ghost use Rattle.std.specs.Prelude.{◌≡◌};
ghost use Rattle.abi_types.specs.declared.call.Call.TheVariants.{Poll};
ghost use Rattle.kernel_model.specs.Families.Locks as model;
ghost use Rattle.guest_locks.specs.Words.{lock_word};

use abi_types::{Call, Subscription, SubscriptionList, What};

// What is waited for, with this word of the lock in the place of the one that it has.
fn with_lock_word(what: What, present: u32) -> What
    ensures { result ≡ model.with_lock_word present what }
{
    match what {
        What::Condvar {
            condvar,
            condvar_word,
            lock,
            condvar_scope,
            lock_scope,
            ..
        } => What::Condvar {
            condvar,
            condvar_word,
            lock,
            lock_word: present,
            condvar_scope,
            lock_scope,
        },
        What::LockRdlock { lock, scope, .. } => What::LockRdlock {
            lock,
            word: present,
            scope,
        },
        What::LockWrlock { lock, scope, .. } => What::LockWrlock {
            lock,
            word: present,
            scope,
        },
        other => other,
    }
}

// The word of the lock that is waited for, and 0 where there is none.
fn lock_word(what: What) -> u32
    ensures { result ≡ lock_word what }
{
    match what {
        What::Condvar { lock_word, .. } => lock_word,
        What::LockRdlock { word, .. } | What::LockWrlock { word, .. } => word,
        _ => 0,
    }
}

// Puts the word that a lock has now into the subscriptions, of which the first waits for it, and gives back the word that it had there.
fn set_first_word(subscriptions: &mut SubscriptionList, word: u32) -> u32
    ensures word { Poll subscriptions.new ≡ model.with_word word (Poll subscriptions.old) }
    ensures back { model.with_word result (Poll subscriptions.new) ≡ Poll subscriptions.old }
{
    let Some(first) = subscriptions.as_slice().first().copied() else {
        return 0;
    };
    let old = lock_word(first.what);
    subscriptions.set_first(Subscription {
        userdata: first.userdata,
        what: with_lock_word(first.what, word),
    });
    old
}

/// Puts the word that a lock has now into the call that waits for it, and gives back the word that the call had.
pub fn set_word(call: &mut Call, word: u32) -> u32
    ensures word { call.new ≡ model.with_word word call.old }
    ensures back { model.with_word result call.new ≡ call.old }
{
    match call {
        Call::Poll { subscriptions } => set_first_word(subscriptions, word),
        _ => 0,
    }
}
