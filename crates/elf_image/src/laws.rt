//! Laws of the definitions. The functions do nothing.
ghost use Rattle.elf_image.specs.Laws.{ChecksFindFirst, ChecksPass, ImageIsSound};

/// The checks, one after another, find exactly the first fault of a file, and nothing exactly where it has none.
pub fn checks_find_first()
    ensures first { ChecksFindFirst }
    ensures none { ChecksPass }
{}

/// A loader may rely on the image of a file without fault: its segments lie in the program's part of the address space,
/// share no page, and have at most 32,768 pages.
pub fn image_is_sound()
    ensures { ImageIsSound }
{}
