//! Laws of what no call of a kind does. The statements are in `specs/CallBounds.antt`.
ghost use Rattle.kernel_model.specs.CallBounds.{BadfIsAbsent, NamesAlone, NeverLack, ReadersKeepTree};

/// `fd_close`, `fd_dup` and `fd_replace` see nothing behind the descriptors that they name. A call that reads touches no file
/// or directory, and no name. A call that takes no memory has the answer of its definition whether there is memory or not. In a
/// valid state a call answers BADF only where its process has no table or a descriptor that it names is absent, or where it had
/// that error before the kernel looked at it.
pub fn calls_keep_bounds()
    ensures alone { NamesAlone }
    ensures readers { ReadersKeepTree }
    ensures memory { NeverLack }
    ensures badf { BadfIsAbsent }
{}
