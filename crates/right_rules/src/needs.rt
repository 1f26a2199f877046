//! What a call needs of its descriptors, and the rights of types.
ghost use Rattle.std.specs.Prelude.{◌≡◌, ◌++◌, List};
ghost use Rattle.abi_base.specs.declared.rights.TheConstants.Rights.{FILE_STAT_FPUT_SIZE, FILE_STAT_FPUT_TIMES};
ghost use Rattle.abi_types.specs.OpenTypes.{rights_of};
ghost use Rattle.abi_types.specs.declared.needed.Needed as needed;
ghost use Rattle.kernel_model.specs.Calls.{named, need};
ghost use Rattle.kernel_model.specs.Families.DescriptorCalls.{stat_put_row};
ghost use Rattle.kernel_model.specs.Families.MemoryCalls.{map_row};
ghost use Rattle.kernel_model.specs.Families.Opening.{open_row};
ghost use Rattle.kernel_model.specs.Families.StreamCalls.{seek_row};
ghost use Rattle.kernel_model.specs.Families.WaitCalls.{wait_row};
ghost use Rattle.kernel_model.specs.Rows.{asking_row, base_row, both, either_row, where_set};
ghost use Rattle.right_rules.specs.Needs.{named_in, of_option, rows_in};
ghost use Rattle.right_rules.specs.declared.needs.Needs.TheVariants as needs;

use abi_types::flags::{
    FDSTAT_FLAGS, FDSTAT_RIGHTS, FILESTAT_SIZE, FILESTAT_TIMES, MAP_ANON, O_CREAT, O_TRUNC,
    PROT_EXEC, WHENCE_CUR,
};
use abi_types::{
    Call, DIRECTORY_RIGHTS, FILE_RIGHTS, FdStat, Needed, OpenType, PROCESS_RIGHTS, READING_RIGHTS,
    Rights, STREAM_RIGHTS, Subscription, WRITING_RIGHTS, What,
};

/// A view of the descriptors that a call names, in the order of its arguments, and of the rights that it needs of them.
#[derive(Clone, Copy)]
pub enum Needs<'a> {
    /// It names no descriptor.
    Nothing,
    /// It names this descriptor, and needs no right of it.
    Named(u32),
    /// It names these two descriptors, and needs no right of them.
    NamedTwo(u32, u32),
    /// It needs rights of one descriptor.
    One(Needed),
    /// It needs rights of two descriptors.
    Two(Needed, Needed),
    /// It needs rights of one descriptor, and names the others of a list behind it.
    OneAndNamed(Needed, &'a [u32]),
    /// It needs rights of the descriptors that it waits for.
    Waited(&'a [Subscription]),
}

// These base rights of the descriptor.
fn base_row(fd: u32, base: Rights) -> Needed
    ensures { result ≡ base_row fd base }
{
    asking_row(fd, base, Rights::NONE)
}

// These base rights of the descriptor, and these of its inheriting rights.
fn asking_row(fd: u32, base: Rights, inheriting: Rights) -> Needed
    ensures { result ≡ asking_row fd base inheriting }
{
    Needed {
        fd,
        base,
        inheriting,
        instead: Rights::NONE,
    }
}

// The first base rights of the descriptor, for which the second may stand.
fn either_row(fd: u32, base: Rights, instead: Rights) -> Needed
    ensures { result ≡ either_row fd base instead }
{
    Needed {
        fd,
        base,
        inheriting: Rights::NONE,
        instead,
    }
}

// The rights of both sets.
fn both(this: Rights, that: Rights) -> Rights
    ensures { result ≡ both this that }
{
    Rights(this.0 | that.0)
}

// The rights, where the flags have one of these bits.
fn where_set(flags: u32, bits: u32, rights: Rights) -> Rights
    ensures { result ≡ where_set flags bits rights }
{
    if flags & bits == 0 {
        Rights::NONE
    } else {
        rights
    }
}

// What is needed of the descriptor that is waited for, if one is.
pub(crate) fn wait_row(what: &What) -> Option<Needed>
    ensures { (rows : List needed.Needed) → wait_row what.now rows ≡ of_option result ++ rows }
{
    match what {
        What::FdRead { fd } | What::FdWrite { fd } => {
            Some(base_row(*fd, Rights::POLL_FD_READWRITE))
        }
        What::ProcTerminate { fd } => Some(base_row(*fd, Rights::POLL_PROC_TERMINATE)),
        What::Clock { .. }
        | What::Condvar { .. }
        | What::LockRdlock { .. }
        | What::LockWrlock { .. } => None,
    }
}

// Base rights of one descriptor.
fn base<'a>(fd: u32, rights: Rights) -> Needs<'a>
    ensures { result ≡ needs.One (base_row fd rights) }
{
    Needs::One(base_row(fd, rights))
}

// What fd_seek needs: an offset of 0 from where it is only reports it.
fn seek_row(fd: u32, offset: u64, whence: u32) -> Needed
    ensures { result ≡ seek_row fd offset whence }
{
    if offset == 0 && whence == WHENCE_CUR {
        either_row(fd, Rights::FD_TELL, Rights::FD_SEEK)
    } else {
        base_row(fd, Rights::FD_SEEK)
    }
}

// What fd_stat_put needs: flags are set by a right of their own, and rights are lowered to some of those that are there.
fn stat_put_row(fd: u32, stat: &FdStat, flags: u32) -> Needed
    ensures { result ≡ stat_put_row fd stat.now flags }
{
    let base = both(
        where_set(flags, FDSTAT_FLAGS, Rights::FD_STAT_PUT_FLAGS),
        where_set(flags, FDSTAT_RIGHTS, stat.base),
    );
    asking_row(fd, base, where_set(flags, FDSTAT_RIGHTS, stat.inheriting))
}

// What file_open needs of the directory where it begins.
fn open_row(fd: u32, oflags: u32, stat: &FdStat) -> Needed
    ensures { result ≡ open_row fd oflags stat.now }
{
    let base = both(
        Rights::FILE_OPEN,
        where_set(oflags, O_CREAT, Rights::FILE_CREATE_FILE),
    );
    let inheriting = both(
        both(stat.base, stat.inheriting),
        where_set(oflags, O_TRUNC, Rights::FILE_STAT_FPUT_SIZE),
    );
    asking_row(fd, base, inheriting)
}

// The rights by which file_stat_fput sets the size and the times.
fn stat_fput_rights(flags: u32) -> Rights
    ensures { result ≡ both (where_set flags 16 FILE_STAT_FPUT_SIZE) (where_set flags 15 FILE_STAT_FPUT_TIMES) }
{
    both(
        where_set(flags, FILESTAT_SIZE, Rights::FILE_STAT_FPUT_SIZE),
        where_set(flags, FILESTAT_TIMES, Rights::FILE_STAT_FPUT_TIMES),
    )
}

// What mem_map needs of a file.
fn map_row(fd: u32, prot: u32) -> Needed
    ensures { result ≡ map_row fd prot }
{
    let read = both(Rights::MEM_MAP, Rights::FD_READ);
    base_row(
        fd,
        both(read, where_set(prot, PROT_EXEC, Rights::MEM_MAP_EXEC)),
    )
}

/// What the call needs of its descriptors.
pub fn needs_of(call: &Call) -> Needs<'_>
    ensures named { named_in result ≡ named call.now }
    ensures rights { rows_in result ≡ need call.now }
{
    match call {
        Call::FdClose { fd } | Call::FdDup { fd } | Call::FdStatGet { fd } => Needs::Named(*fd),
        Call::FdReplace { from, to } => Needs::NamedTwo(*from, *to),
        Call::FdDatasync { fd } => base(*fd, Rights::FD_DATASYNC),
        Call::FdPread { fd, .. } => base(*fd, both(Rights::FD_READ, Rights::FD_SEEK)),
        Call::FdPwrite { fd, .. } => base(*fd, both(Rights::FD_WRITE, Rights::FD_SEEK)),
        Call::FdRead { fd, .. } | Call::SockRecv { fd, .. } => base(*fd, Rights::FD_READ),
        Call::FdSeek { fd, offset, whence } => Needs::One(seek_row(*fd, *offset, *whence)),
        Call::FdStatPut { fd, stat, flags } => Needs::One(stat_put_row(*fd, stat, *flags)),
        Call::FdSync { fd } => base(*fd, Rights::FD_SYNC),
        Call::FdWrite { fd, .. } => base(*fd, Rights::FD_WRITE),
        Call::FileAdvise { fd, .. } => base(*fd, Rights::FILE_ADVISE),
        Call::FileAllocate { fd, .. } => base(*fd, Rights::FILE_ALLOCATE),
        Call::FileCreate { fd, .. } => base(*fd, Rights::FILE_CREATE_DIRECTORY),
        Call::FileLink { lookup, new_fd, .. } => Needs::Two(
            base_row(lookup.fd, Rights::FILE_LINK_SOURCE),
            base_row(*new_fd, Rights::FILE_LINK_TARGET),
        ),
        Call::FileOpen {
            lookup,
            oflags,
            stat,
            ..
        } => Needs::One(open_row(lookup.fd, *oflags, stat)),
        Call::FileReaddir { fd, .. } => base(*fd, Rights::FILE_READDIR),
        Call::FileReadlink { fd, .. } => base(*fd, Rights::FILE_READLINK),
        Call::FileRename { fd, new_fd, .. } => Needs::Two(
            base_row(*fd, Rights::FILE_RENAME_SOURCE),
            base_row(*new_fd, Rights::FILE_RENAME_TARGET),
        ),
        Call::FileStatFget { fd } => base(*fd, Rights::FILE_STAT_FGET),
        Call::FileStatFput { fd, flags, .. } => base(*fd, stat_fput_rights(*flags)),
        Call::FileStatGet { lookup, .. } => base(lookup.fd, Rights::FILE_STAT_GET),
        Call::FileStatPut { lookup, .. } => base(lookup.fd, Rights::FILE_STAT_PUT_TIMES),
        Call::FileSymlink { fd, .. } => base(*fd, Rights::FILE_SYMLINK),
        Call::FileUnlink { fd, .. } => base(*fd, Rights::FILE_UNLINK),
        // A mapping of zeros.
        Call::MemMap { flags, .. } if *flags & MAP_ANON == MAP_ANON => Needs::Nothing,
        Call::MemMap { fd, prot, .. } => Needs::One(map_row(*fd, *prot)),
        Call::Poll { subscriptions } => Needs::Waited(subscriptions.as_slice()),
        Call::ProcExec { fd, fds, .. } => {
            Needs::OneAndNamed(base_row(*fd, Rights::PROC_EXEC), fds.as_slice())
        }
        Call::SockSend { fd, fds, .. } => {
            Needs::OneAndNamed(base_row(*fd, Rights::FD_WRITE), fds.as_slice())
        }
        Call::SockShutdown { fd, .. } => base(*fd, Rights::SOCK_SHUTDOWN),
        Call::ClockResGet { .. }
        | Call::ClockTimeGet { .. }
        | Call::CondvarSignal { .. }
        | Call::FdCreate1 { .. }
        | Call::FdCreate2 { .. }
        | Call::LockUnlock { .. }
        | Call::Memory { .. }
        | Call::ProcExit { .. }
        | Call::ProcFork { .. }
        | Call::ProcRaise { .. }
        | Call::RandomGet { .. }
        | Call::ThreadCreate { .. }
        | Call::ThreadExit { .. }
        | Call::ThreadYield
        | Call::Refused { .. }
        | Call::Unknown { .. } => Needs::Nothing,
    }
}

/// All base rights that a descriptor of an open of this type may have (docs/ABI.md names them).
pub fn fits(kind: OpenType) -> Rights
    ensures { result.0 ≡ rights_of kind }
{
    match kind {
        OpenType::File => FILE_RIGHTS,
        OpenType::Directory => DIRECTORY_RIGHTS,
        OpenType::Reading => READING_RIGHTS,
        OpenType::Writing => WRITING_RIGHTS,
        OpenType::Stream => STREAM_RIGHTS,
        OpenType::Process => PROCESS_RIGHTS,
    }
}
