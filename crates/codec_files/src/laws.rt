//! Laws of the calls about files. The statements are in `specs/Laws.antt`.
ghost use Rattle.codec_files.specs.Laws.{CreateOfDirectoryIsInvalid};

/// `file_open` with CREAT and DIRECTORY is INVAL, whatever else the registers and the memory hold.
pub fn create_of_directory_is_invalid()
    ensures { CreateOfDirectoryIsInvalid }
{}
