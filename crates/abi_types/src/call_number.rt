//! The numbers and the names of calls.
ghost use Rattle.std.specs.Prelude.{◌≡◌, Some, slice_get};
ghost use Rattle.abi_types.specs.CallNumbers.{all_calls, name_of, number_of};

/// One of the 49 calls. The names are CloudABI's; the calls stand in the order of their numbers, from 0 on (docs/ABI.md).
#[derive(Clone, Copy, Debug, PartialEq, Eq)]
pub enum CallNumber {
    ClockResGet,
    ClockTimeGet,
    CondvarSignal,
    FdClose,
    FdCreate1,
    FdCreate2,
    FdDatasync,
    FdDup,
    FdPread,
    FdPwrite,
    FdRead,
    FdReplace,
    FdSeek,
    FdStatGet,
    FdStatPut,
    FdSync,
    FdWrite,
    FileAdvise,
    FileAllocate,
    FileCreate,
    FileLink,
    FileOpen,
    FileReaddir,
    FileReadlink,
    FileRename,
    FileStatFget,
    FileStatFput,
    FileStatGet,
    FileStatPut,
    FileSymlink,
    FileUnlink,
    LockUnlock,
    MemAdvise,
    MemMap,
    MemProtect,
    MemSync,
    MemUnmap,
    Poll,
    ProcExec,
    ProcExit,
    ProcFork,
    ProcRaise,
    RandomGet,
    SockRecv,
    SockSend,
    SockShutdown,
    ThreadCreate,
    ThreadExit,
    ThreadYield,
}

// The calls, each at its number.
const ALL_CALLS: &[CallNumber] = &[
    CallNumber::ClockResGet,
    CallNumber::ClockTimeGet,
    CallNumber::CondvarSignal,
    CallNumber::FdClose,
    CallNumber::FdCreate1,
    CallNumber::FdCreate2,
    CallNumber::FdDatasync,
    CallNumber::FdDup,
    CallNumber::FdPread,
    CallNumber::FdPwrite,
    CallNumber::FdRead,
    CallNumber::FdReplace,
    CallNumber::FdSeek,
    CallNumber::FdStatGet,
    CallNumber::FdStatPut,
    CallNumber::FdSync,
    CallNumber::FdWrite,
    CallNumber::FileAdvise,
    CallNumber::FileAllocate,
    CallNumber::FileCreate,
    CallNumber::FileLink,
    CallNumber::FileOpen,
    CallNumber::FileReaddir,
    CallNumber::FileReadlink,
    CallNumber::FileRename,
    CallNumber::FileStatFget,
    CallNumber::FileStatFput,
    CallNumber::FileStatGet,
    CallNumber::FileStatPut,
    CallNumber::FileSymlink,
    CallNumber::FileUnlink,
    CallNumber::LockUnlock,
    CallNumber::MemAdvise,
    CallNumber::MemMap,
    CallNumber::MemProtect,
    CallNumber::MemSync,
    CallNumber::MemUnmap,
    CallNumber::Poll,
    CallNumber::ProcExec,
    CallNumber::ProcExit,
    CallNumber::ProcFork,
    CallNumber::ProcRaise,
    CallNumber::RandomGet,
    CallNumber::SockRecv,
    CallNumber::SockSend,
    CallNumber::SockShutdown,
    CallNumber::ThreadCreate,
    CallNumber::ThreadExit,
    CallNumber::ThreadYield,
];

// The calls, each at its number.
fn all_calls() -> &'static [CallNumber]
    ensures { result.now ≡ all_calls }
{
    ALL_CALLS
}

// The call at this place.
fn call_at(calls: &[CallNumber], place: u64) -> Option<CallNumber>
    ensures { result ≡ slice_get calls.now place }
{
    calls.get(place as usize).copied()
}

impl CallNumber {
    /// The call that a number in a7 asks for. `None` exactly from 49 on.
    pub fn of(number: u64) -> Option<CallNumber>
        ensures { result ≡ slice_get all_calls number }
    {
        call_at(all_calls(), number)
    }

    /// The number that a7 has for the call.
    pub fn number(self) -> u32
        ensures number { result ≡ number_of self }
        ensures listed { slice_get all_calls result ≡ Some self }
    {
        self as u32
    }

    /// CloudABI's name.
    pub fn name(self) -> &'static str
        ensures { result.now ≡ name_of self }
    {
        match self {
            CallNumber::ClockResGet => "clock_res_get",
            CallNumber::ClockTimeGet => "clock_time_get",
            CallNumber::CondvarSignal => "condvar_signal",
            CallNumber::FdClose => "fd_close",
            CallNumber::FdCreate1 => "fd_create1",
            CallNumber::FdCreate2 => "fd_create2",
            CallNumber::FdDatasync => "fd_datasync",
            CallNumber::FdDup => "fd_dup",
            CallNumber::FdPread => "fd_pread",
            CallNumber::FdPwrite => "fd_pwrite",
            CallNumber::FdRead => "fd_read",
            CallNumber::FdReplace => "fd_replace",
            CallNumber::FdSeek => "fd_seek",
            CallNumber::FdStatGet => "fd_stat_get",
            CallNumber::FdStatPut => "fd_stat_put",
            CallNumber::FdSync => "fd_sync",
            CallNumber::FdWrite => "fd_write",
            CallNumber::FileAdvise => "file_advise",
            CallNumber::FileAllocate => "file_allocate",
            CallNumber::FileCreate => "file_create",
            CallNumber::FileLink => "file_link",
            CallNumber::FileOpen => "file_open",
            CallNumber::FileReaddir => "file_readdir",
            CallNumber::FileReadlink => "file_readlink",
            CallNumber::FileRename => "file_rename",
            CallNumber::FileStatFget => "file_stat_fget",
            CallNumber::FileStatFput => "file_stat_fput",
            CallNumber::FileStatGet => "file_stat_get",
            CallNumber::FileStatPut => "file_stat_put",
            CallNumber::FileSymlink => "file_symlink",
            CallNumber::FileUnlink => "file_unlink",
            CallNumber::LockUnlock => "lock_unlock",
            CallNumber::MemAdvise => "mem_advise",
            CallNumber::MemMap => "mem_map",
            CallNumber::MemProtect => "mem_protect",
            CallNumber::MemSync => "mem_sync",
            CallNumber::MemUnmap => "mem_unmap",
            CallNumber::Poll => "poll",
            CallNumber::ProcExec => "proc_exec",
            CallNumber::ProcExit => "proc_exit",
            CallNumber::ProcFork => "proc_fork",
            CallNumber::ProcRaise => "proc_raise",
            CallNumber::RandomGet => "random_get",
            CallNumber::SockRecv => "sock_recv",
            CallNumber::SockSend => "sock_send",
            CallNumber::SockShutdown => "sock_shutdown",
            CallNumber::ThreadCreate => "thread_create",
            CallNumber::ThreadExit => "thread_exit",
            CallNumber::ThreadYield => "thread_yield",
        }
    }
}
