//! Calls on locks and condition variables, and polls of them.
ghost use Rattle.std.specs.Prelude.{◌≡◌, ℕ, Some, IsSome};
ghost use Rattle.std.specs.FinMap as map;
ghost use Rattle.guest_locks.specs.Told.{TellsOf};
ghost use Rattle.guest_locks.specs.Words.{taking_in};
ghost use Rattle.kernel_model.specs.Families.LockCalls as model;
ghost use Rattle.kernel_model.specs.Families.LockWords.{holding_of};
ghost use Rattle.kernel_model.specs.Families.Locks.{is_written_by, release_of, released_word, unlocked_own};
ghost use Rattle.kernel_parts.specs.OwnCalls.{IsOwnStep};

use crate::process::ProcessState;
use abi_types::{
    Answer, Errno, Event, Payload, Reply, Stage, Subscription, Tid, What, Who, WordWrite,
    WordWrites,
};
use guest_locks::{
    Taking, Told, ask, hand_on, is_late, is_written_by, managed_word, retake, signal, unlock,
};
use poll_set::event_of;
use right_rules::{refused, success};

// One word of the caller's memory is written.
fn writes_word(address: u64, word: u32) -> WordWrites
    ensures { result ≡ model.writes_word address word }
{
    WordWrites::One(WordWrite { address, word })
}

// The reply by which it is written.
fn word_reply(address: u64, word: u32) -> Reply
    ensures { result ≡ model.word_reply address word }
{
    Reply {
        writes: writes_word(address, word),
        ..success(0, 0)
    }
}

// The answer with the event of a subscription, which has this error, by which these words are written.
fn tells(first: &Subscription, errno: Errno, writes: WordWrites) -> Answer
    ensures { result ≡ (model.tells first.now.userdata first.now.what errno writes).answer }
{
    let event = Event {
        error: errno.number(),
        ..event_of(first.userdata, first.what.event_type())
    };
    Answer::Reply(Reply {
        payload: Payload::Event(event),
        writes,
        ..success(1, 0)
    })
}

// TIMEDOUT, if the deadline came first.
fn error_if(late: bool) -> Errno
    ensures { result ≡ model.error_if late }
{
    if late {
        Errno::TimedOut
    } else {
        Errno::Success
    }
}

// What a thread is answered that asks for the lock at this address, whose word is this; where it gets the lock its event has this error.
fn taken_as(first: &Subscription, errno: Errno, lock: u64, word: u32, taking: Taking) -> Answer
    ensures { result ≡ (model.taken_as first.now.userdata first.now.what errno lock word (taking_in taking)).answer }
{
    match taking {
        Taking::Deadlock => tells(first, Errno::Deadlk, WordWrites::Zero),
        Taking::TooMany => tells(first, Errno::Again, WordWrites::Zero),
        Taking::Takes(taken) => tells(first, errno, writes_word(lock, taken)),
        Taking::Queues => Answer::Parked(writes_word(lock, managed_word(word))),
    }
}

impl ProcessState {
    /// The thread lets go of the lock at this address, whose word is this: the word becomes the result, and `None` is that the thread may
    /// not. Threads that are given the lock are told of.
    pub fn release_lock(&mut self, tid: Tid, lock: u64, word: u32, told: &mut Told) -> Option<u32>
        ensures own { self.new ≡ unlocked_own lock word tid self.old }
        ensures word { result ≡ released_word (release_of tid word) lock self.old.threads }
        ensures told { TellsOf self.old.threads self.new.threads told.old told.new }
    {
        unlock(&mut self.threads, tid, lock, word, told)
    }

    /// lock_unlock of the lock at this address, whose word is this.
    pub fn unlock(&mut self, tid: Tid, lock: u64, word: u32, told: &mut Told) -> Answer
        ensures step { (p : ℕ) → IsOwnStep self.old self.new result (model.unlock_in p tid lock word (Some self.old)) }
        ensures told { TellsOf self.old.threads self.new.threads told.old told.new }
    {
        match self.release_lock(tid, lock, word, told) {
            Some(left) => Answer::Reply(word_reply(lock, left)),
            None => Answer::Reply(refused(Errno::Perm)),
        }
    }

    /// condvar_signal of the condition variable at this address: so many of the threads that wait there are signalled, and told of.
    pub fn signal(&mut self, condvar: u64, n: u32, told: &mut Told) -> Answer
        ensures step { (p : ℕ) → IsOwnStep self.old self.new result (model.signal_in p condvar n (Some self.old)) }
        ensures told { TellsOf self.old.threads self.new.threads told.old told.new }
    {
        let word = signal(&mut self.threads, condvar, n, told);
        Answer::Reply(word_reply(condvar, word))
    }

    // What a poll of a lock is answered, of a thread that asks for it, or that waited for it.
    fn lock_answer(
        &self,
        who: &Who,
        first: &Subscription,
        reads: bool,
        lock: u64,
        word: u32,
    ) -> Answer
        requires there { IsSome (map.get self.now.threads who.now.tid) }
        ensures { result ≡ (model.lock_outcome first.now.userdata first.now.what reads who.now.tid lock word who.now.stage (Some self.now)).answer }
    {
        match who.stage {
            None => {
                let taking = ask(&self.threads, who.tid, reads, lock, word);
                taken_as(first, Errno::Success, lock, word, taking)
            }
            Some(Stage::Granted { .. }) => tells(first, Errno::Success, WordWrites::Zero),
            Some(_) => tells(first, Errno::TimedOut, WordWrites::Zero),
        }
    }

    // What a thread is answered that waited at a condition variable, and takes its lock again.
    fn wake_answer(
        &self,
        tid: Tid,
        stage: Stage,
        first: &Subscription,
        lock: u64,
        word: u32,
    ) -> Answer
        requires there { IsSome (map.get self.now.threads tid) }
        ensures { (p condvar : ℕ) → result ≡ (model.condition_outcome first.now.userdata first.now.what p tid condvar lock word (Some stage) (Some self.now)).answer }
    {
        match stage {
            Stage::Granted { late } => tells(first, error_if(late), WordWrites::Zero),
            _ => {
                let taking = retake(&self.threads, tid, lock, word);
                taken_as(first, error_if(is_late(stage)), lock, word, taking)
            }
        }
    }

    // A poll of a condition variable begins: a thread that has the lock to write lets it go, and waits.
    fn sleep(
        &mut self,
        tid: Tid,
        first: &Subscription,
        condvar: u64,
        lock: u64,
        word: u32,
        told: &mut Told,
    ) -> Answer
        ensures step { (p : ℕ) → IsOwnStep self.old self.new result (model.sleeps_if (is_written_by tid (holding_of word)) first.now.userdata first.now.what p condvar lock (Some self.old)) }
        ensures told { TellsOf self.old.threads self.new.threads told.old told.new }
    {
        if !is_written_by(tid, word) {
            return tells(first, Errno::Perm, WordWrites::Zero);
        }
        let left = hand_on(&mut self.threads, lock, told);
        let begun = WordWrite {
            address: condvar,
            word: 1,
        };
        let released = WordWrite {
            address: lock,
            word: left,
        };
        Answer::Parked(WordWrites::Two(begun, released))
    }

    /// A poll whose first subscription is of a lock or a condition variable, of a thread of the process. Threads that are given a lock are told
    /// of.
    pub fn lock_poll(&mut self, who: &Who, first: &Subscription, told: &mut Told) -> Answer
        requires there { IsSome (map.get self.old.threads who.now.tid) }
        ensures step { (p : ℕ) → IsOwnStep self.old self.new result (model.waited_outcome first.now.userdata first.now.what p who.now.tid who.now.stage (Some self.old)) }
        ensures told { TellsOf self.old.threads self.new.threads told.old told.new }
    {
        match first.what {
            What::LockRdlock { lock, word, .. } => self.lock_answer(who, first, true, lock, word),
            What::LockWrlock { lock, word, .. } => self.lock_answer(who, first, false, lock, word),
            What::Condvar {
                condvar,
                lock,
                lock_word,
                ..
            } => match who.stage {
                None => self.sleep(who.tid, first, condvar, lock, lock_word, told),
                Some(stage) => self.wake_answer(who.tid, stage, first, lock, lock_word),
            },
            _ => Answer::Parked(WordWrites::Zero),
        }
    }
}
