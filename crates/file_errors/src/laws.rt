//! The tables. The statements are in `specs`, a file for each family of calls.
ghost use Rattle.file_errors.specs.DescriptorErrors.{DescriptorErrorsAreListed};
ghost use Rattle.file_errors.specs.FileErrors.{FileErrorsAreListed};
ghost use Rattle.file_errors.specs.MemoryErrors.{AllMemoryErrorsAreListed};
ghost use Rattle.file_errors.specs.NameErrors.{NameErrorsAreListed};
ghost use Rattle.file_errors.specs.OffsetErrors.{OffsetErrorsAreListed};
ghost use Rattle.file_errors.specs.OpenErrors.{OpenErrorsAreListed};
ghost use Rattle.file_errors.specs.OwnErrors.{OwnErrorsAreListed};
ghost use Rattle.file_errors.specs.PathErrors.{PathErrorsAreListed};

/// The calls on descriptors themselves, and those that change nothing: `fd_close`, `fd_datasync`, `fd_dup`, `fd_replace`,
/// `fd_stat_get`, `fd_stat_put`, `fd_sync` and `file_advise`.
pub fn descriptor_errors_are_listed()
    ensures { DescriptorErrorsAreListed }
{}

/// The calls that read, write and seek: `fd_pread`, `fd_pwrite`, `fd_read` and `fd_write` of what is no end of channels, and
/// `fd_seek`.
pub fn offset_errors_are_listed()
    ensures { OffsetErrorsAreListed }
{}

/// The calls on what a descriptor's open is of: `file_allocate`, `file_readdir`, `file_stat_fget` and `file_stat_fput`.
pub fn file_errors_are_listed()
    ensures { FileErrorsAreListed }
{}

/// The calls on clocks, for random bytes and on the process's memory, once their arguments are read, and the calls that are
/// refused before the kernel looks at them.
pub fn own_errors_are_listed()
    ensures { OwnErrorsAreListed }
{}

/// `mem_advise`, `mem_map`, `mem_protect`, `mem_sync` and `mem_unmap`, as registers and memory encode them: the conditions that
/// `call_codec` lists, answered by the kernel.
pub fn memory_errors_are_listed()
    ensures { AllMemoryErrorsAreListed }
{}

/// The calls that look at the node where a path ends: `file_readlink`, `file_stat_get` and `file_stat_put`.
pub fn path_errors_are_listed()
    ensures { PathErrorsAreListed }
{}

/// The calls on names: `file_create`, `file_link`, `file_rename`, `file_symlink` and `file_unlink`.
pub fn name_errors_are_listed()
    ensures { NameErrorsAreListed }
{}

/// `file_open`. What it opens where no error comes the law `open_is_listed` of `kernel_model` says.
pub fn open_errors_are_listed()
    ensures { OpenErrorsAreListed }
{}
