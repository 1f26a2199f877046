//! What the kernel keeps of a process beside its descriptors and its status.
ghost use Rattle.std.specs.Prelude.{true, is_some, ◌≡◌, ◌+◌, ◌<◌, ◌^◌, ℕ, IfOk, OnErr, IfSome, IsSome, Some, option_copied};
ghost use Rattle.std.specs.FinMap as map;
ghost use Rattle.kernel_parts.specs.Entries.{number_of};
ghost use Rattle.kernel_parts.specs.OwnCalls.{new_thread, words_after, IsOwnDone};
ghost use Rattle.kernel_parts.specs.Touching.{IsMade};
ghost use Rattle.kernel_parts.specs.Waiting.{kept_in};
ghost use Rattle.clock_random.specs.Random.{random_bytes};
ghost use Rattle.kernel_model.specs.Families.Children.{byte_unit};
ghost use Rattle.kernel_model.specs.Families.ClockCalls.{can_draw, drawn_by};
ghost use Rattle.kernel_model.specs.Families.Numbers.{made_more};
ghost use Rattle.kernel_model.specs.Families.ProcessCalls.{is_last_thread, made_in};
ghost use Rattle.kernel_model.specs.OwnChanges.{begun_anew, may_bear, with_next_child, without_thread};
ghost use Rattle.kernel_model.specs.Families.ForkCalls.{can_fork, child_number, child_process};
ghost use Rattle.kernel_model.specs.Start.{canary_words, first_process};
ghost use Rattle.kernel_model.specs.Waits.{thread_set, waiting};

use crate::start::{LAUNCH_PROCESS, single};
use crate::touching::ensure_entry;
use crate::waiting::deadline_at;
use abi_types::{
    Answer, Call, Constants, Counts, Errno, MOST_THREADS, ObjId, Payload, Pid, Stage, Thread, Tid,
    Who,
};
use clock_random::random_bytes;
use guest_locks::stage_after;
use lists::Bytes;
use maps::NumMap;
use right_rules::{refused, success, success_with};
use std::alloc::{AllocError, Global};
use std::marker::Model;
use wait_set::WaitSet;

// Each thread's number is less than this one, so that the words of locks have room for it.
const THREAD_LIMIT: u32 = (1 << 30) - 1;

// How many random words a program's canary has, and how many bytes.
const CANARY_WORDS: u64 = 16;

const CANARY_SIZE: usize = 64;

// How many turns a process must have left to make a child.
const LEAST_TURNS: u64 = 16;

// A process of this depth has no child.
const MOST_DEPTH: u32 = 4;

// How many children a process may have.
const MOST_CHILDREN: u32 = 254;

// A process draws fewer random words than this.
const WORD_LIMIT: u64 = 1 << 63;

// How many bytes a random word has.
const WORD_SIZE: u64 = 4;

/// What a process has of its own beside its descriptors: its live threads by number, each with the call that it waits in, what it has
/// made so far, and its depth, which is how many forks lie between it and process 0. The queues of its locks and condition variables are
/// read off the threads (`guest_locks`): it has no more than 64, and their numbers have room in the words of locks.
#[derive(Drop)]
pub struct ProcessState {
    pub(crate) threads: NumMap<Thread>,
    counts: Counts,
    depth: u32,
}

// What 1 in the byte of this depth adds to a process's number.
fn byte_unit(depth: u32) -> u32
    ensures { result ≡ byte_unit depth }
{
    match depth {
        0 => 1 << 24,
        1 => 1 << 16,
        2 => 1 << 8,
        _ => 1,
    }
}

impl Model for ProcessState {
    ghost use Rattle.guest_locks.specs.Queues.{AreFew};
    ghost use Rattle.kernel_model.specs.State.{ProcessState};
    ghost use Rattle.kernel_model.specs.Codes.{process_code};

    ghost Value = { ProcessState };

    ghost coded = { process_code };

    ghost view = { λ own. record { threads = own.threads; counts = own.counts; depth = own.depth } };

    ghost invariant = { λ own. AreFew own.threads };
}

impl ProcessState {
    /// What the launched process starts with: thread 1, the one thread that it has numbered, the random words of its canary, and depth 0.
    pub fn first(alloc: Global) -> Result<Self, AllocError>
        ensures { IfOk result (λ own. own ≡ first_process) }
    {
        Ok(ProcessState {
            threads: single(alloc, 1, Thread::Runnable)?,
            counts: Counts {
                objects: 0,
                threads: 1,
                forks: 0,
                words: CANARY_WORDS,
            },
            depth: 0,
        })
    }

    /// The number that its next thread gets.
    pub fn next_thread(&self) -> Tid
        requires few { self.now.counts.threads + 1 < 2 ^ 32 }
        ensures { result ≡ self.now.counts.threads + 1 }
    {
        Tid(self.counts.threads + 1)
    }

    /// What a thread does. `None` exactly where the process has no such live thread.
    pub fn thread(&self, tid: Tid) -> Option<&Thread>
        ensures { option_copied result ≡ map.get self.now.threads tid }
    {
        self.threads.get(u64::from(tid.0))
    }

    // The number of the next thread, where the thread `tid` can make one: it is one of the process's threads, fewer than 64 are live, and
    // the number is free and below its limit.
    fn new_thread(&self, tid: Tid) -> Option<u32>
        ensures { result ≡ new_thread tid self.now }
    {
        let number = self.counts.threads.checked_add(1)?;
        let can = self.threads.contains(u64::from(tid.0))
            && self.threads.len() < MOST_THREADS
            && !self.threads.contains(u64::from(number))
            && number < THREAD_LIMIT;
        if can { Some(number) } else { None }
    }

    /// Makes a thread, which runs, for the thread `tid` of the process: its number is the first result. `Err` comes only where there
    /// is a number for it, and changes nothing. It has an entry among those of process `pid` that may wait.
    pub fn make_thread(
        &mut self,
        waits: &mut WaitSet,
        pid: Pid,
        tid: Tid,
    ) -> Result<Answer, AllocError>
        ensures done { (p : ℕ) → IsOwnDone (made_in p tid (Some self.old)) self.old self.new result }
        ensures entry { IsMade pid self.old.threads self.new.threads waits.old waits.new }
    {
        let Some(number) = self.new_thread(tid) else {
            return Ok(Answer::Reply(refused(Errno::Again)));
        };
        let key = u64::from(number);
        self.threads.insert(key, Thread::Runnable)?;
        if let Err(failed) = ensure_entry(waits, pid, Tid(number)) {
            self.threads.remove(key);
            return Err(failed);
        }
        self.counts.threads = number;
        Ok(Answer::Reply(success(key, 0)))
    }

    /// Whether the process has no thread but this one.
    pub fn is_last_thread(&self, tid: Tid) -> bool
        ensures { result ≡ is_last_thread tid self.now }
    {
        let own = usize::from(self.threads.contains(u64::from(tid.0)));
        self.threads.len() == own
    }

    /// Takes the thread away, if there is one of this number. The number isn't given again.
    pub fn end_thread(&mut self, tid: Tid)
        ensures { self.new ≡ without_thread tid self.old }
    {
        self.threads.remove(u64::from(tid.0));
    }

    // How many random words the process has drawn once it has drawn so many more, where it can.
    fn words_after(&self, words: u64) -> Option<u64>
        ensures { result ≡ words_after words self.now }
    {
        let after = self.counts.words.checked_add(words)?;
        if after < WORD_LIMIT {
            Some(after)
        } else {
            None
        }
    }

    /// Draws so many random bytes of the stream that has the process's number, by the run's key. `Err` comes only where the process can
    /// draw them, and changes nothing.
    pub fn draw(
        &mut self,
        alloc: Global,
        constants: &Constants,
        pid: Pid,
        length: u64,
    ) -> Result<Answer, AllocError>
        ensures { IsOwnDone (drawn_by constants.now pid (Some self.old) length) self.old self.new result }
    {
        let Some(after) = self.words_after(length.div_ceil(WORD_SIZE)) else {
            return Ok(Answer::Reply(refused(Errno::Again)));
        };
        let place = self.counts.words;
        let bytes = random_bytes(alloc, &constants.key, pid.0, place, length as usize)?;
        self.counts.words = after;
        Ok(Answer::Reply(success_with(0, Payload::Content(bytes))))
    }

    // Whether the process may have one child more.
    fn may_bear(&self) -> bool
        ensures { result ≡ may_bear self.now }
    {
        self.depth < MOST_DEPTH && self.counts.forks < MOST_CHILDREN
    }

    /// Whether the thread can make a child of the process, which has so many turns left: it is one of its threads, the turns are 16 at least,
    /// the process is less deep than 4 and has counted fewer than 254 children, and there are numbers for the child's object and its open.
    pub fn can_fork(&self, pid: Pid, tid: Tid, left: u64) -> bool
        ensures { result ≡ can_fork left pid tid self.now }
    {
        left >= LEAST_TURNS
            && self.may_bear()
            && self.threads.contains(u64::from(tid.0))
            && self.numbered(pid, 2).is_some()
    }

    /// The number of the process's next child.
    pub fn next_child(&self, pid: Pid) -> Pid
        requires bears { may_bear self.now ≡ true }
        requires fits { child_number pid self.now < 2 ^ 32 }
        ensures { result ≡ child_number pid self.now }
    {
        Pid(pid.0 + (self.counts.forks + 1) * byte_unit(self.depth))
    }

    /// What a child starts with that the thread makes. `Err` where memory ran out.
    pub fn child(&self, alloc: Global, tid: Tid) -> Result<ProcessState, AllocError>
        requires bears { may_bear self.now ≡ true }
        requires there { IsSome (map.get self.now.threads tid) }
        ensures { IfOk result (λ child. child ≡ child_process tid self.now) }
    {
        Ok(ProcessState {
            threads: single(alloc, u64::from(tid.0), Thread::Runnable)?,
            counts: Counts {
                objects: 0,
                threads: self.counts.threads,
                forks: 0,
                words: 0,
            },
            depth: self.depth + 1,
        })
    }

    /// Counts a child more.
    pub fn count_child(&mut self)
        requires { may_bear self.old ≡ true }
        ensures { self.new ≡ with_next_child self.old }
    {
        self.counts.forks += 1;
    }

    /// The canary of a program that begins in the process now: the next 64 bytes of the stream that has the process's number. `None` where
    /// the process can't draw them. `Err` where memory ran out, which comes only where it can.
    pub fn next_canary(
        &self,
        alloc: Global,
        constants: &Constants,
        pid: Pid,
    ) -> Result<Option<Bytes>, AllocError>
        ensures can { IfOk result (λ canary. is_some canary ≡ can_draw canary_words self.now) }
        ensures bytes { IfOk result (λ canary. IfSome canary (λ bytes. bytes ≡ random_bytes constants.now.key pid self.now.counts.words 64)) }
        ensures only { OnErr result (can_draw canary_words self.now ≡ true) }
    {
        if self.words_after(CANARY_WORDS).is_none() {
            return Ok(None);
        }
        let canary = random_bytes(alloc, &constants.key, pid.0, self.counts.words, CANARY_SIZE)?;
        Ok(Some(canary))
    }

    /// Another program begins in the process, by this thread: no other thread is left, and the words of its canary are drawn. Takes no memory.
    pub fn begin_anew(&mut self, tid: Tid)
        requires { can_draw canary_words self.old ≡ true }
        ensures { self.new ≡ begun_anew canary_words tid self.old }
    {
        self.threads.keep_only(u64::from(tid.0));
        self.counts.words += CANARY_WORDS;
    }

    /// Makes a thread wait in a call from the moment `now` on. Takes no memory.
    pub fn park(&mut self, constants: &Constants, who: &Who, now: u64, call: Call)
        requires { IsSome (map.get self.old.threads who.now.tid) }
        ensures { self.new ≡ thread_set who.now.tid (waiting constants.now call who.now now) self.old }
    {
        let stage = stage_after(&call, who.stage, now);
        let until = deadline_at(constants, &call, who.since, stage);
        let waits = Thread::Waits {
            call,
            since: who.since,
            until,
            stage,
        };
        self.threads.replace(u64::from(who.tid.0), waits);
    }

    /// Lets a thread run that waits, and gives back the call that it waited in, when that was made, and how far its wait had come. `None`
    /// exactly where the thread doesn't wait. Takes no memory.
    pub fn resume(&mut self, tid: Tid) -> Option<(Call, u64, Stage)>
        ensures kept { result ≡ kept_in (map.get self.old.threads tid) }
        ensures runs { self.new ≡ thread_set tid Thread.Runnable self.old }
    {
        let t = u64::from(tid.0);
        if !self.threads.contains(t) {
            return None;
        }
        match self.threads.replace(t, Thread::Runnable) {
            Thread::Waits {
                call,
                since,
                stage,
                ..
            } => Some((call, since, stage)),
            Thread::Runnable => None,
        }
    }

    /// The number of the last of so many objects that the process makes next. `None` where it can't make so many more.
    pub fn numbered(&self, pid: Pid, count: u32) -> Option<ObjId>
        ensures number { result ≡ number_of pid count (Some self.now) }
        ensures few { IfSome result (λ _. self.now.counts.objects + count < 2 ^ 32) }
    {
        if count > 0 && u64::from(pid.0) == LAUNCH_PROCESS {
            return None;
        }
        let last = self.counts.objects.checked_add(count)?;
        Some(ObjId(u64::from(pid.0) * 0x1_0000_0000 + u64::from(last)))
    }

    /// The process has made so many objects more.
    pub fn make(&mut self, count: u32)
        requires { self.old.counts.objects + count < 2 ^ 32 }
        ensures { self.new ≡ made_more count self.old }
    {
        self.counts.objects += count;
    }
}
