//! Laws of channels. The functions do nothing.
ghost use Rattle.channels.specs.ChannelLaws.{BytesComeOnce, CarriedComeOnce, NewIsChannel, ReadsKeepCount, ReadsLeaveRest, SendsAddOne, ShutIsChannel, ShutKeepsCount, StaysChannel, StopsBeforeCarried, TakesAllPlain};

/// A read goes on up to a send that carries descriptors, and not further.
pub fn reads_stop_before_descriptors()
    ensures stops { StopsBeforeCarried }
    ensures goes_on { TakesAllPlain }
{}

/// A read takes the first sends whole and a part of the next, and leaves the others as they were.
pub fn reads_leave_the_rest()
    ensures { ReadsLeaveRest }
{}

/// What is read is what was written, in its order: none of it is lost or comes twice.
pub fn all_comes_once()
    ensures bytes { BytesComeOnce }
    ensures descriptors { CarriedComeOnce }
{}

/// Never more waits than may.
pub fn channels_stay_within()
    ensures new { NewIsChannel }
    ensures stays { StaysChannel }
    ensures shut { ShutIsChannel }
{}

/// Each send is counted once, also when it has left.
pub fn sends_are_counted()
    ensures sends { SendsAddOne }
    ensures reads { ReadsKeepCount }
    ensures shut { ShutKeepsCount }
{}
