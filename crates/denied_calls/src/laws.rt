//! That the denied calls of a history are all of its denials. The statement is in `specs/DenialLaws.antt`.
ghost use Rattle.denied_calls.specs.DenialLaws.{DenialsAreAll};

/// Each answer of a history that denies something, at once or by a wake, is among its denied calls: in its place, with its process, its
/// thread, the number of its call and what it denies. There is no other.
pub fn denials_are_all()
    ensures { DenialsAreAll }
{}
