//! Copies of calls.
use crate::call::Call;
use lists::TryClone;
use std::alloc::AllocError;

impl TryClone for Call {
    fn copy(&self) -> Result<Self, AllocError> {
        match self {
            Call::ClockResGet { clock } => Ok(Call::ClockResGet { clock: *clock }),
            Call::ClockTimeGet { clock, precision } => Ok(Call::ClockTimeGet {
                clock: *clock,
                precision: *precision,
            }),
            Call::CondvarSignal {
                condvar,
                word,
                scope,
                n,
            } => Ok(Call::CondvarSignal {
                condvar: *condvar,
                word: *word,
                scope: *scope,
                n: *n,
            }),
            Call::FdClose { fd } => Ok(Call::FdClose { fd: *fd }),
            Call::FdCreate1 { kind } => Ok(Call::FdCreate1 { kind: *kind }),
            Call::FdCreate2 { kind } => Ok(Call::FdCreate2 { kind: *kind }),
            Call::FdDatasync { fd } => Ok(Call::FdDatasync { fd: *fd }),
            Call::FdDup { fd } => Ok(Call::FdDup { fd: *fd }),
            Call::FdPread { fd, length, offset } => Ok(Call::FdPread {
                fd: *fd,
                length: *length,
                offset: *offset,
            }),
            Call::FdPwrite { fd, bytes, offset } => Ok(Call::FdPwrite {
                fd: *fd,
                bytes: bytes.copy()?,
                offset: *offset,
            }),
            Call::FdRead { fd, length } => Ok(Call::FdRead {
                fd: *fd,
                length: *length,
            }),
            Call::FdReplace { from, to } => Ok(Call::FdReplace {
                from: *from,
                to: *to,
            }),
            Call::FdSeek { fd, offset, whence } => Ok(Call::FdSeek {
                fd: *fd,
                offset: *offset,
                whence: *whence,
            }),
            Call::FdStatGet { fd } => Ok(Call::FdStatGet { fd: *fd }),
            Call::FdStatPut { fd, stat, flags } => Ok(Call::FdStatPut {
                fd: *fd,
                stat: *stat,
                flags: *flags,
            }),
            Call::FdSync { fd } => Ok(Call::FdSync { fd: *fd }),
            Call::FdWrite { fd, bytes } => Ok(Call::FdWrite {
                fd: *fd,
                bytes: bytes.copy()?,
            }),
            Call::FileAdvise {
                fd,
                offset,
                length,
                advice,
            } => Ok(Call::FileAdvise {
                fd: *fd,
                offset: *offset,
                length: *length,
                advice: *advice,
            }),
            Call::FileAllocate { fd, offset, length } => Ok(Call::FileAllocate {
                fd: *fd,
                offset: *offset,
                length: *length,
            }),
            Call::FileCreate { fd, path, kind } => Ok(Call::FileCreate {
                fd: *fd,
                path: path.copy()?,
                kind: *kind,
            }),
            Call::FileLink {
                lookup,
                path,
                new_fd,
                new_path,
            } => Ok(Call::FileLink {
                lookup: *lookup,
                path: path.copy()?,
                new_fd: *new_fd,
                new_path: new_path.copy()?,
            }),
            Call::FileOpen {
                lookup,
                path,
                oflags,
                stat,
            } => Ok(Call::FileOpen {
                lookup: *lookup,
                path: path.copy()?,
                oflags: *oflags,
                stat: *stat,
            }),
            Call::FileReaddir { fd, length, cookie } => Ok(Call::FileReaddir {
                fd: *fd,
                length: *length,
                cookie: *cookie,
            }),
            Call::FileReadlink { fd, path, length } => Ok(Call::FileReadlink {
                fd: *fd,
                path: path.copy()?,
                length: *length,
            }),
            Call::FileRename {
                fd,
                path,
                new_fd,
                new_path,
            } => Ok(Call::FileRename {
                fd: *fd,
                path: path.copy()?,
                new_fd: *new_fd,
                new_path: new_path.copy()?,
            }),
            Call::FileStatFget { fd } => Ok(Call::FileStatFget { fd: *fd }),
            Call::FileStatFput { fd, stat, flags } => Ok(Call::FileStatFput {
                fd: *fd,
                stat: *stat,
                flags: *flags,
            }),
            Call::FileStatGet { lookup, path } => Ok(Call::FileStatGet {
                lookup: *lookup,
                path: path.copy()?,
            }),
            Call::FileStatPut {
                lookup,
                path,
                stat,
                flags,
            } => Ok(Call::FileStatPut {
                lookup: *lookup,
                path: path.copy()?,
                stat: *stat,
                flags: *flags,
            }),
            Call::FileSymlink { text, fd, path } => Ok(Call::FileSymlink {
                text: text.copy()?,
                fd: *fd,
                path: path.copy()?,
            }),
            Call::FileUnlink { fd, path, flags } => Ok(Call::FileUnlink {
                fd: *fd,
                path: path.copy()?,
                flags: *flags,
            }),
            Call::LockUnlock { lock, word, scope } => Ok(Call::LockUnlock {
                lock: *lock,
                word: *word,
                scope: *scope,
            }),
            Call::MemMap {
                place,
                length,
                prot,
                flags,
                fd,
                offset,
            } => Ok(Call::MemMap {
                place: *place,
                length: *length,
                prot: *prot,
                flags: *flags,
                fd: *fd,
                offset: *offset,
            }),
            Call::Memory { number, errno } => Ok(Call::Memory {
                number: *number,
                errno: *errno,
            }),
            Call::Poll { subscriptions } => Ok(Call::Poll {
                subscriptions: subscriptions.copy()?,
            }),
            Call::ProcExec { fd, bytes, fds } => Ok(Call::ProcExec {
                fd: *fd,
                bytes: bytes.copy()?,
                fds: fds.copy()?,
            }),
            Call::ProcExit { code } => Ok(Call::ProcExit { code: *code }),
            Call::ProcFork { left } => Ok(Call::ProcFork { left: *left }),
            Call::ProcRaise { signal } => Ok(Call::ProcRaise { signal: *signal }),
            Call::RandomGet { length } => Ok(Call::RandomGet { length: *length }),
            Call::SockRecv {
                fd,
                length,
                fds,
                flags,
            } => Ok(Call::SockRecv {
                fd: *fd,
                length: *length,
                fds: *fds,
                flags: *flags,
            }),
            Call::SockSend {
                fd,
                bytes,
                fds,
                flags,
            } => Ok(Call::SockSend {
                fd: *fd,
                bytes: bytes.copy()?,
                fds: fds.copy()?,
                flags: *flags,
            }),
            Call::SockShutdown { fd, how } => Ok(Call::SockShutdown { fd: *fd, how: *how }),
            Call::ThreadCreate { attributes } => Ok(Call::ThreadCreate {
                attributes: *attributes,
            }),
            Call::ThreadExit { lock, word, scope } => Ok(Call::ThreadExit {
                lock: *lock,
                word: *word,
                scope: *scope,
            }),
            Call::Refused { number, errno } => Ok(Call::Refused {
                number: *number,
                errno: *errno,
            }),
            Call::ThreadYield => Ok(Call::ThreadYield),
            Call::Unknown { number } => Ok(Call::Unknown { number: *number }),
        }
    }
}
