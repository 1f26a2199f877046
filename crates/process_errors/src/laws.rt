//! Laws of what calls come to. The statements are in `specs/ProcessErrors.antt`, `specs/ThreadErrors.antt` and the files beside them.
ghost use Rattle.process_errors.specs.ChannelErrors.{CreateOneIsListed, PairIsListed, ReadIsListed, ReceiveIsListed, SendIsListed, ShutIsListed, WriteIsListed};
ghost use Rattle.process_errors.specs.LockErrors.{ConditionPollIsListed, LockPollIsListed, SignalIsListed};
ghost use Rattle.process_errors.specs.PollErrors.{PollIsListed};
ghost use Rattle.process_errors.specs.ProcessErrors.{ExecIsListed, ExitIsListed, ForkIsListed, RaiseIsListed};
ghost use Rattle.process_errors.specs.ThreadErrors.{LockIsLetGoAsListed, ThreadCreateIsListed, ThreadYieldIsListed};

/// What `proc_exit`, `proc_raise`, `proc_fork` and `proc_exec` come to is listed case by case, with the conditions of each error,
/// and nothing else is listed.
pub fn process_errors_are_listed()
    ensures exit { ExitIsListed }
    ensures raise { RaiseIsListed }
    ensures fork { ForkIsListed }
    ensures exec { ExecIsListed }
{}

/// What `thread_create`, `thread_yield`, `thread_exit` and `lock_unlock` come to is listed case by case, with the conditions of each
/// error, and nothing else is listed.
pub fn thread_errors_are_listed()
    ensures create { ThreadCreateIsListed }
    ensures yields { ThreadYieldIsListed }
    ensures lets_go { LockIsLetGoAsListed }
{}

/// `fd_create1` is always refused. What `fd_create2` comes to is listed case by case, with the conditions of each error, and nothing
/// else is listed.
pub fn new_ends_are_listed()
    ensures one { CreateOneIsListed }
    ensures pair { PairIsListed }
{}

/// What `fd_read` and `fd_write` come to on ends of channels, and `sock_recv`, `sock_send` and `sock_shutdown` on any open, is listed
/// case by case, with the conditions of each error and of each wait, and nothing else is listed.
pub fn channel_errors_are_listed()
    ensures read { ReadIsListed }
    ensures write { WriteIsListed }
    ensures receive { ReceiveIsListed }
    ensures send { SendIsListed }
    ensures shut { ShutIsListed }
{}

/// What `condvar_signal` comes to, and a `poll` that begins to wait for a lock or at a condition variable, is listed case by case, with
/// the conditions of each error that the poll's event has and of each wait, and nothing else is listed.
pub fn lock_errors_are_listed()
    ensures signal { SignalIsListed }
    ensures lock { LockPollIsListed }
    ensures condition { ConditionPollIsListed }
{}

/// Each other `poll` has no error: it is done where something is ready that it waits for, and its thread waits where nothing is.
pub fn polls_are_listed()
    ensures { PollIsListed }
{}
