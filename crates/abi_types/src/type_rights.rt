//! The rights of types.
use abi_base::Rights;

/// All rights of a descriptor by which a stream is read.
pub const READING_RIGHTS: Rights = Rights(
    Rights::FD_READ.0
        | Rights::FD_STAT_PUT_FLAGS.0
        | Rights::FILE_STAT_FGET.0
        | Rights::POLL_FD_READWRITE.0,
);

/// All rights of a descriptor by which a stream is written.
pub const WRITING_RIGHTS: Rights = Rights(
    Rights::FD_STAT_PUT_FLAGS.0
        | Rights::FD_WRITE.0
        | Rights::FILE_STAT_FGET.0
        | Rights::POLL_FD_READWRITE.0,
);

/// All rights of an end of a pair of streams.
pub const STREAM_RIGHTS: Rights = Rights(
    READING_RIGHTS.0 | WRITING_RIGHTS.0 | Rights::SOCK_SHUTDOWN.0,
);

/// All rights of a file.
pub const FILE_RIGHTS: Rights = Rights(
    Rights::FD_DATASYNC.0
        | Rights::FD_READ.0
        | Rights::FD_SEEK.0
        | Rights::FD_STAT_PUT_FLAGS.0
        | Rights::FD_SYNC.0
        | Rights::FD_TELL.0
        | Rights::FD_WRITE.0
        | Rights::FILE_ADVISE.0
        | Rights::FILE_ALLOCATE.0
        | Rights::FILE_STAT_FGET.0
        | Rights::FILE_STAT_FPUT_SIZE.0
        | Rights::FILE_STAT_FPUT_TIMES.0
        | Rights::MEM_MAP.0
        | Rights::MEM_MAP_EXEC.0
        | Rights::POLL_FD_READWRITE.0
        | Rights::PROC_EXEC.0,
);

/// All base rights of a directory.
pub const DIRECTORY_RIGHTS: Rights = Rights(
    Rights::FD_DATASYNC.0
        | Rights::FD_STAT_PUT_FLAGS.0
        | Rights::FD_SYNC.0
        | Rights::FILE_CREATE_DIRECTORY.0
        | Rights::FILE_CREATE_FILE.0
        | Rights::FILE_LINK_SOURCE.0
        | Rights::FILE_LINK_TARGET.0
        | Rights::FILE_OPEN.0
        | Rights::FILE_READDIR.0
        | Rights::FILE_READLINK.0
        | Rights::FILE_RENAME_SOURCE.0
        | Rights::FILE_RENAME_TARGET.0
        | Rights::FILE_STAT_FGET.0
        | Rights::FILE_STAT_FPUT_TIMES.0
        | Rights::FILE_STAT_GET.0
        | Rights::FILE_STAT_PUT_TIMES.0
        | Rights::FILE_SYMLINK.0
        | Rights::FILE_UNLINK.0,
);

/// All that a directory may pass on: its own rights and a file's.
pub const OPENED_RIGHTS: Rights = Rights(DIRECTORY_RIGHTS.0 | FILE_RIGHTS.0);

/// All rights of a process.
pub const PROCESS_RIGHTS: Rights = Rights(Rights::FILE_STAT_FGET.0 | Rights::POLL_PROC_TERMINATE.0);
