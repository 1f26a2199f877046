//! Laws of the kernel's steps. The statements are in `specs/Laws.antt` and `specs/ChildLaws.antt`, and each holds of every state, process
//! and call.
ghost use Rattle.kernel_model.specs.ChildLaws.{ChildNumbersAreUnique, DeepestHasNoChild, EachHasOneDepth, NextChildIsUnmade, ProcessNumbersAreSmall, ProcessZeroHasDepthZero};
ghost use Rattle.kernel_model.specs.Laws.{MeaningsAreProper, ReadsSight, SightDecides, StepDecided, SightIsReached, TouchIsSeen, MadeIsNew};
ghost use Rattle.kernel_model.specs.Laws.{OthersStay, EndKeeps, ErrorKeeps, StepMovesOnly, ForkTellsChild, WaitedKeepsThreads, EndStateEndsOnly, EndsAreLeast, EndsInAnyOrder, KilledByLastOpen};
ghost use Rattle.kernel_model.specs.Laws.{EndCarriesNothing, WaitingWasHeld, HungUpByEnd, ReleaseEnds, ChannelsAreLeft, NothingUnheldIsLeft};
ghost use Rattle.kernel_model.specs.Laws.{FirstLackIsNamed, DenialIsOfFirstLack, NotcapableIsDenied, OutsideIsDenied, OutsideReadsSight};
ghost use Rattle.kernel_model.specs.Laws.{RepliesAreListed, NoMemoryIsExact, ErrorsAreExact, AbsentIsBadf, LackIsDenied, LeavingIsDenied};
ghost use Rattle.kernel_model.specs.Laws.{StepKeepsValid, EndKeepsValid, StartIsValid};

/// Each call's meaning keeps to what the laws stand on (`specs/Proper.antt`).
pub fn meanings_are_proper()
    ensures { MeaningsAreProper }
{}

/// A call's outcome, which sees only what is in its sight, is what it would be if it saw the whole state. So is the
/// component at which a path of the call leads outside the directory where it begins.
pub fn reads_sight()
    ensures outcome { ReadsSight }
    ensures path { OutsideReadsSight }
{}

/// A call that sees the same in two states answers the same in both, and sets the same parts to the same values.
pub fn sight_decides()
    ensures { SightDecides }
{}

/// A call that sees the same in two states answers the same in both. Where the release after it ends the same of the
/// opens that it sees, each part that it sees has the same value in both states after the step.
pub fn step_decided()
    ensures { StepDecided }
{}

/// What a call sees is the clock, what is the process's own and its status, or it is reached through a descriptor that the
/// call needs and that has all rights which it asks. What a call touches it sees, or it makes it.
pub fn sight_is_reached()
    ensures sees { SightIsReached }
    ensures touches { TouchIsSeen }
{}

/// What a call makes isn't there in a valid state, as long as its process can number so many objects more.
pub fn made_is_new()
    ensures { MadeIsNew }
{}

/// After a step each part that the call does not touch and that the release after it does not end has the value it had.
pub fn others_stay()
    ensures { OthersStay }
{}

/// After the end of a process from outside each part that is not the clock, the process's own or its status, and that
/// the release does not end, has the value it had.
pub fn end_keeps()
    ensures { EndKeeps }
{}

/// A step takes 1000 nanoseconds and changes nothing that another process has of its own, unless the release after it kills that
/// process. A process that lives on keeps its threads, but for those that its call makes or ends (`specs/Threads.antt`), and counts what
/// the call makes. The end
/// of a process from outside takes as long, changes nothing of other processes either but of those that the release kills, and
/// leaves the process the status that it was given.
pub fn steps_move_only()
    ensures step { StepMovesOnly }
    ensures end { EndStateEndsOnly }
{}

/// The answer to a fork that succeeds tells the number of the child that it makes, the next of its process, and no other answer tells one.
pub fn forks_tell_child()
    ensures { ForkTellsChild }
{}

/// A call in which a thread may wait makes no thread and no child, and ends no thread.
pub fn waited_keeps_threads()
    ensures { WaitedKeepsThreads }
{}

/// The opens that a release ends are the least set that has each open which nothing holds once the set has ended. With an open
/// of a process that lives the process ends too: it is killed, and holds nothing any more. It ends no other process. A channel
/// loses its reader or its writer exactly where that end of it ends. In whatever order opens that nothing holds end one after
/// another, the same are left.
pub fn ends_are_least()
    ensures opens { EndsAreLeast }
    ensures processes { KilledByLastOpen }
    ensures channels { HungUpByEnd }
    ensures order { EndsInAnyOrder }
{}

/// A release leaves each part that it does not end as it was, and ends each other one; a channel keeps the sides that it does not
/// lose. After it each open has a holder or waits in a channel, and each node is the root, has a name or is open.
pub fn release_ends()
    ensures parts { ReleaseEnds }
    ensures channels { ChannelsAreLeft }
    ensures left { NothingUnheldIsLeft }
{}

/// A descriptor that waits in a channel after a step from a valid state waited there before, or the call sent it: it succeeded,
/// and its process held that descriptor, with the same rights, under one of the numbers that it sends. The end of a process from
/// outside puts nothing into a channel.
pub fn waiting_was_held()
    ensures step { WaitingWasHeld }
    ensures end { EndCarriesNothing }
{}

/// A call that answers an error, lack of memory among them, changes only the clock of a valid state.
pub fn error_keeps()
    ensures { ErrorKeeps }
{}

/// Where each needed descriptor is there and some lacks a right, the call is denied, with exactly the rights that the
/// first of these lacks. Where none is absent, no right is missing and a path leads outside the directory where it
/// begins, the call is denied for that, with the component. A call is denied in no other case. A call that answers
/// `Notcapable` says which of both it is, but for one that is refused with that error before the kernel looks at it.
pub fn refusal_names_lack()
    ensures named { FirstLackIsNamed }
    ensures outside { OutsideIsDenied }
    ensures only { DenialIsOfFirstLack }
    ensures denied { NotcapableIsDenied }
{}

/// A reply is a success, the refusal for lack of a descriptor or of rights, the denial of a path that leads outside, one of
/// the errors that the call answers of its own, or lack of memory, and that only of a call that takes memory and would else
/// succeed.
pub fn replies_are_listed()
    ensures { RepliesAreListed }
{}

/// Lack of memory stands in place of a success alone: where the answer is an error, no step has another one.
pub fn errors_are_exact()
    ensures { ErrorsAreExact }
{}

/// Lack of memory stands in place of no other answer of a call that takes no memory, and of no refusal: an absent
/// descriptor is `Badf`, the first lack of rights is denied, and so is a path that leads outside.
pub fn refusals_come_first()
    ensures exact { NoMemoryIsExact }
    ensures absent { AbsentIsBadf }
    ensures denied { LackIsDenied }
    ensures outside { LeavingIsDenied }
{}

/// A step leaves a valid state valid.
pub fn step_keeps_valid()
    ensures { StepKeepsValid }
{}

/// The end from outside of a process that was made leaves a valid state valid.
pub fn end_keeps_valid()
    ensures { EndKeepsValid }
{}

/// The state that a launch starts from is valid, where the launch may begin with its tree and its grants.
pub fn start_is_valid()
    ensures { StartIsValid }
{}

/// The number of a child says which process is its parent, and which of the parent's children it is, whether these live or have
/// ended. So no two forks give a process the same number. In a valid state each process that was made has one depth.
pub fn child_numbers_are_unique()
    ensures numbers { ChildNumbersAreUnique }
    ensures depths { EachHasOneDepth }
{}

/// A child that its parent has not counted was not made in a valid state: it has no status and nothing of its own, and
/// nothing is there under the numbers of its objects.
pub fn next_child_is_unmade()
    ensures { NextChildIsUnmade }
{}

/// The number of each process that was made is less than 0xffffffff, which stands for the objects of the launch. Process 0 has
/// depth 0, no process is deeper than 4, and one of depth 4 has no child.
pub fn process_numbers_are_small()
    ensures small { ProcessNumbersAreSmall }
    ensures first { ProcessZeroHasDepthZero }
    ensures deepest { DeepestHasNoChild }
{}
