//! The structures that have one layout.
ghost use Rattle.std.specs.Prelude.{◌≡◌};
ghost use Rattle.abi_layout.specs.Layout.{IsLaidOut, numbers};
ghost use Rattle.abi_layout.specs.Structures.{dirent_layout, dirent_values, fdstat_layout, fdstat_values};
ghost use Rattle.abi_layout.specs.Structures.{filestat_layout, filestat_values, iovec_layout, iovec_values};
ghost use Rattle.abi_layout.specs.Structures.{recv_in_layout, recv_in_values, recv_out_layout, recv_out_values};
ghost use Rattle.abi_layout.specs.Structures.{send_in_layout, send_in_values, send_out_layout, send_out_values};
ghost use Rattle.abi_layout.specs.Structures.{threadattr_layout, threadattr_values};

use crate::fields::{put_u8, put_u16, put_u32, put_u64, u8_at, u16_at, u32_at, u64_at};
use abi_base::Rights;
use abi_structures::{
    Dirent, FdStat, FileStat, Iovec, RecvIn, RecvOut, SendIn, SendOut, ThreadAttr,
};

/// Reads a range of memory from its bytes.
pub fn read_iovec(bytes: &[u8; 16]) -> Iovec
    ensures { iovec_values result ≡ numbers iovec_layout.fields bytes.now }
{
    Iovec {
        address: u64_at(bytes, 0),
        length: u64_at(bytes, 8),
    }
}

/// Writes a range of memory as bytes.
pub fn write_iovec(iovec: &Iovec) -> [u8; 16]
    ensures { IsLaidOut iovec_layout (iovec_values iovec.now) result }
{
    let mut bytes = [0; 16];
    put_u64(&mut bytes, 0, iovec.address);
    put_u64(&mut bytes, 8, iovec.length);
    bytes
}

/// Reads a descriptor's state from its bytes.
pub fn read_fdstat(bytes: &[u8; 24]) -> FdStat
    ensures { fdstat_values result ≡ numbers fdstat_layout.fields bytes.now }
{
    FdStat {
        kind: u8_at(bytes, 0),
        flags: u16_at(bytes, 2),
        base: Rights(u64_at(bytes, 8)),
        inheriting: Rights(u64_at(bytes, 16)),
    }
}

/// Writes a descriptor's state as bytes.
pub fn write_fdstat(fdstat: &FdStat) -> [u8; 24]
    ensures { IsLaidOut fdstat_layout (fdstat_values fdstat.now) result }
{
    let mut bytes = [0; 24];
    put_u8(&mut bytes, 0, fdstat.kind);
    put_u16(&mut bytes, 2, fdstat.flags);
    put_u64(&mut bytes, 8, fdstat.base.0);
    put_u64(&mut bytes, 16, fdstat.inheriting.0);
    bytes
}

/// Reads a file's state from its bytes.
pub fn read_filestat(bytes: &[u8; 56]) -> FileStat
    ensures { filestat_values result ≡ numbers filestat_layout.fields bytes.now }
{
    FileStat {
        dev: u64_at(bytes, 0),
        ino: u64_at(bytes, 8),
        kind: u8_at(bytes, 16),
        nlink: u32_at(bytes, 20),
        size: u64_at(bytes, 24),
        atim: u64_at(bytes, 32),
        mtim: u64_at(bytes, 40),
        ctim: u64_at(bytes, 48),
    }
}

/// Writes a file's state as bytes.
pub fn write_filestat(filestat: &FileStat) -> [u8; 56]
    ensures { IsLaidOut filestat_layout (filestat_values filestat.now) result }
{
    let mut bytes = [0; 56];
    put_u64(&mut bytes, 0, filestat.dev);
    put_u64(&mut bytes, 8, filestat.ino);
    put_u8(&mut bytes, 16, filestat.kind);
    put_u32(&mut bytes, 20, filestat.nlink);
    put_u64(&mut bytes, 24, filestat.size);
    put_u64(&mut bytes, 32, filestat.atim);
    put_u64(&mut bytes, 40, filestat.mtim);
    put_u64(&mut bytes, 48, filestat.ctim);
    bytes
}

/// Reads the head of a directory's entry from its bytes.
pub fn read_dirent(bytes: &[u8; 24]) -> Dirent
    ensures { dirent_values result ≡ numbers dirent_layout.fields bytes.now }
{
    Dirent {
        next: u64_at(bytes, 0),
        ino: u64_at(bytes, 8),
        namlen: u32_at(bytes, 16),
        kind: u8_at(bytes, 20),
    }
}

/// Writes the head of a directory's entry as bytes.
pub fn write_dirent(dirent: &Dirent) -> [u8; 24]
    ensures { IsLaidOut dirent_layout (dirent_values dirent.now) result }
{
    let mut bytes = [0; 24];
    put_u64(&mut bytes, 0, dirent.next);
    put_u64(&mut bytes, 8, dirent.ino);
    put_u32(&mut bytes, 16, dirent.namlen);
    put_u8(&mut bytes, 20, dirent.kind);
    bytes
}

/// Reads how a thread begins from its bytes.
pub fn read_threadattr(bytes: &[u8; 32]) -> ThreadAttr
    ensures { threadattr_values result ≡ numbers threadattr_layout.fields bytes.now }
{
    ThreadAttr {
        entry: u64_at(bytes, 0),
        stack: u64_at(bytes, 8),
        stacklen: u64_at(bytes, 16),
        argument: u64_at(bytes, 24),
    }
}

/// Writes how a thread begins as bytes.
pub fn write_threadattr(threadattr: &ThreadAttr) -> [u8; 32]
    ensures { IsLaidOut threadattr_layout (threadattr_values threadattr.now) result }
{
    let mut bytes = [0; 32];
    put_u64(&mut bytes, 0, threadattr.entry);
    put_u64(&mut bytes, 8, threadattr.stack);
    put_u64(&mut bytes, 16, threadattr.stacklen);
    put_u64(&mut bytes, 24, threadattr.argument);
    bytes
}

/// Reads where a message goes that is received from its bytes.
pub fn read_recv_in(bytes: &[u8; 40]) -> RecvIn
    ensures { recv_in_values result ≡ numbers recv_in_layout.fields bytes.now }
{
    RecvIn {
        iovs: u64_at(bytes, 0),
        iovs_count: u64_at(bytes, 8),
        fds: u64_at(bytes, 16),
        fds_count: u64_at(bytes, 24),
        flags: u16_at(bytes, 32),
    }
}

/// Writes where a message goes that is received as bytes.
pub fn write_recv_in(recv_in: &RecvIn) -> [u8; 40]
    ensures { IsLaidOut recv_in_layout (recv_in_values recv_in.now) result }
{
    let mut bytes = [0; 40];
    put_u64(&mut bytes, 0, recv_in.iovs);
    put_u64(&mut bytes, 8, recv_in.iovs_count);
    put_u64(&mut bytes, 16, recv_in.fds);
    put_u64(&mut bytes, 24, recv_in.fds_count);
    put_u16(&mut bytes, 32, recv_in.flags);
    bytes
}

/// Reads how much was received from its bytes.
pub fn read_recv_out(bytes: &[u8; 24]) -> RecvOut
    ensures { recv_out_values result ≡ numbers recv_out_layout.fields bytes.now }
{
    RecvOut {
        datalen: u64_at(bytes, 0),
        fdslen: u64_at(bytes, 8),
        flags: u16_at(bytes, 16),
    }
}

/// Writes how much was received as bytes.
pub fn write_recv_out(recv_out: &RecvOut) -> [u8; 24]
    ensures { IsLaidOut recv_out_layout (recv_out_values recv_out.now) result }
{
    let mut bytes = [0; 24];
    put_u64(&mut bytes, 0, recv_out.datalen);
    put_u64(&mut bytes, 8, recv_out.fdslen);
    put_u16(&mut bytes, 16, recv_out.flags);
    bytes
}

/// Reads what is sent from its bytes.
pub fn read_send_in(bytes: &[u8; 40]) -> SendIn
    ensures { send_in_values result ≡ numbers send_in_layout.fields bytes.now }
{
    SendIn {
        iovs: u64_at(bytes, 0),
        iovs_count: u64_at(bytes, 8),
        fds: u64_at(bytes, 16),
        fds_count: u64_at(bytes, 24),
        flags: u16_at(bytes, 32),
    }
}

/// Writes what is sent as bytes.
pub fn write_send_in(send_in: &SendIn) -> [u8; 40]
    ensures { IsLaidOut send_in_layout (send_in_values send_in.now) result }
{
    let mut bytes = [0; 40];
    put_u64(&mut bytes, 0, send_in.iovs);
    put_u64(&mut bytes, 8, send_in.iovs_count);
    put_u64(&mut bytes, 16, send_in.fds);
    put_u64(&mut bytes, 24, send_in.fds_count);
    put_u16(&mut bytes, 32, send_in.flags);
    bytes
}

/// Reads how much was sent from its bytes.
pub fn read_send_out(bytes: &[u8; 8]) -> SendOut
    ensures { send_out_values result ≡ numbers send_out_layout.fields bytes.now }
{
    SendOut {
        datalen: u64_at(bytes, 0),
    }
}

/// Writes how much was sent as bytes.
pub fn write_send_out(send_out: &SendOut) -> [u8; 8]
    ensures { IsLaidOut send_out_layout (send_out_values send_out.now) result }
{
    let mut bytes = [0; 8];
    put_u64(&mut bytes, 0, send_out.datalen);
    bytes
}
