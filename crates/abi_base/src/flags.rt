//! The numbers of flags, types and choices that calls are given and answer.
//!
//! CloudABI gives the names, without its prefix. The numbers are this project's profile, in docs/ABI.md.

/// Of an open: each write goes to the end of the file.
pub const FDFLAG_APPEND: u16 = 1;

/// Of an open: what is written is to be kept at once.
pub const FDFLAG_DSYNC: u16 = 2;

/// Of an open: a call that would wait answers `Again` in its place.
pub const FDFLAG_NONBLOCK: u16 = 4;

/// Of an open: what is read is to be kept before it is read.
pub const FDFLAG_RSYNC: u16 = 8;

/// Of an open: what is written, and what is known of the file, is to be kept at once.
pub const FDFLAG_SYNC: u16 = 16;

/// Of a lookup: a symbolic link that is the last name of the path is followed.
pub const LOOKUP_SYMLINK_FOLLOW: u32 = 1;

/// Of `file_open`: a file is made where there is none.
pub const O_CREAT: u32 = 1;

/// Of `file_open`: what is opened is a directory.
pub const O_DIRECTORY: u32 = 2;

/// Of `file_open`, with `O_CREAT`: nothing is there yet.
pub const O_EXCL: u32 = 4;

/// Of `file_open`: a file that is there loses its bytes.
pub const O_TRUNC: u32 = 8;

/// Of `fd_stat_put`: the flags are set.
pub const FDSTAT_FLAGS: u32 = 1;

/// Of `fd_stat_put`: the rights are lowered.
pub const FDSTAT_RIGHTS: u32 = 2;

/// Of `file_stat_fput` and `file_stat_put`: the time of the last access is set as given.
pub const FILESTAT_ATIM: u32 = 1;

/// Of `file_stat_fput` and `file_stat_put`: the time of the last access becomes now.
pub const FILESTAT_ATIM_NOW: u32 = 2;

/// Of `file_stat_fput` and `file_stat_put`: the time of the last modification is set as given.
pub const FILESTAT_MTIM: u32 = 4;

/// Of `file_stat_fput` and `file_stat_put`: the time of the last modification becomes now.
pub const FILESTAT_MTIM_NOW: u32 = 8;

/// Of `file_stat_fput`: the size is set.
pub const FILESTAT_SIZE: u32 = 16;

/// The flags of `file_stat_fput` and `file_stat_put` by which a time is set.
pub const FILESTAT_TIMES: u32 = FILESTAT_ATIM
    | FILESTAT_ATIM_NOW
    | FILESTAT_MTIM
    | FILESTAT_MTIM_NOW;

/// Of `file_unlink`: what is removed is a directory.
pub const UNLINK_REMOVEDIR: u32 = 1;

/// Of a page's protection: instructions may be fetched.
pub const PROT_EXEC: u32 = 1;

/// Of a page's protection: stores.
pub const PROT_WRITE: u32 = 2;

/// Of a page's protection: loads.
pub const PROT_READ: u32 = 4;

/// Of `mem_map`: the pages are of zeros, and of no file.
pub const MAP_ANON: u32 = 1;

/// Of `mem_map`: the pages go where the address says.
pub const MAP_FIXED: u32 = 2;

/// Of `mem_map`: what is written to the pages is the process's own.
pub const MAP_PRIVATE: u32 = 4;

/// Of `mem_map`: what is written to the pages is written to the file.
pub const MAP_SHARED: u32 = 8;

/// Of `mem_sync`: the writing begins.
pub const MS_ASYNC: u32 = 1;

/// Of `mem_sync`: what else is kept of the file is to be read anew.
pub const MS_INVALIDATE: u32 = 2;

/// Of `mem_sync`: the writing is done.
pub const MS_SYNC: u32 = 4;

/// Of a subscription to a clock: the timeout is a time of the clock, and not counted from now.
pub const SUBSCRIPTION_CLOCK_ABSTIME: u16 = 1;

/// Of an event of reading or writing: the channel's other side is gone.
pub const EVENT_FD_READWRITE_HANGUP: u16 = 1;

/// Of `sock_recv`: nothing is taken.
pub const SOCK_RECV_PEEK: u16 = 4;

/// Of `sock_recv`: all the bytes are waited for.
pub const SOCK_RECV_WAITALL: u16 = 16;

/// Of what was received: there was no room for some descriptors, which were let go.
pub const SOCK_RECV_FDS_TRUNCATED: u16 = 1;

/// Of what was received: there was no room for some bytes, which were dropped.
pub const SOCK_RECV_DATA_TRUNCATED: u16 = 8;

/// Of `sock_shutdown`: nothing more is received.
pub const SHUT_RD: u32 = 1;

/// Of `sock_shutdown`: nothing more is sent.
pub const SHUT_WR: u32 = 2;

/// Of `fd_seek`: the offset counts from where the open is.
pub const WHENCE_CUR: u32 = 1;

/// Of `fd_seek`: the offset counts from the end of the file.
pub const WHENCE_END: u32 = 2;

/// Of `fd_seek`: the offset counts from the beginning of the file.
pub const WHENCE_SET: u32 = 3;

/// The clock that begins with the run.
pub const CLOCK_MONOTONIC: u32 = 1;

/// The clock that counts from 1970.
pub const CLOCK_REALTIME: u32 = 3;

/// Of a lock or a condition variable: it is its process's own.
pub const SCOPE_PRIVATE: u32 = 4;

/// Of a lock or a condition variable: processes share it. No call takes it.
pub const SCOPE_SHARED: u32 = 8;

/// The type of a standard stream.
pub const FILETYPE_CHARACTER_DEVICE: u8 = 17;

/// The type of a directory.
pub const FILETYPE_DIRECTORY: u8 = 32;

/// The type of an end of a pipe.
pub const FILETYPE_FIFO: u8 = 48;

/// The type of a process.
pub const FILETYPE_PROCESS: u8 = 80;

/// The type of a file.
pub const FILETYPE_REGULAR_FILE: u8 = 96;

/// The type of memory that processes share. Nothing has it.
pub const FILETYPE_SHARED_MEMORY: u8 = 112;

/// The type of an end of a pair of sockets for messages. Nothing has it yet.
pub const FILETYPE_SOCKET_DGRAM: u8 = 128;

/// The type of an end of a pair of sockets for bytes.
pub const FILETYPE_SOCKET_STREAM: u8 = 130;

/// The type of a symbolic link.
pub const FILETYPE_SYMBOLIC_LINK: u8 = 144;
