//! What polls tell, and when they are over. The statements are in `specs/PollLaws.antt`.
ghost use Rattle.kernel_model.specs.PollLaws.{NoneIsLost, NoneIsMore, PollAwaitsClock, PollHasDeadline, PollHasSoonest, PollIsReady, PollReadyWhere, PollTellsReady, PollWaits};

/// A poll of one clock has its event once the clock shows the time, or as much has passed since the call was made, and its thread
/// waits before that. A thread that waits in it is ready exactly then, and its deadline is the first such moment.
pub fn polls_await_clocks()
    ensures answers { PollAwaitsClock }
    ensures ready { PollIsReady }
    ensures deadline { PollHasDeadline }
{}

/// A poll has the events of the subscriptions that are ready, one of each and no more, in their order, and each event tells what there
/// is: the bytes that wait, the room, or how a process has ended. Its thread waits exactly where no subscription is ready.
pub fn polls_tell_ready()
    ensures tells { PollTellsReady }
    ensures waits { PollWaits }
    ensures lost { NoneIsLost }
    ensures more { NoneIsMore }
{}

/// A thread that waits in a poll is ready exactly where some subscription is, and the deadline is the first moment at which the time
/// of some clock has come.
pub fn polls_await_soonest()
    ensures ready { PollReadyWhere }
    ensures deadline { PollHasSoonest }
{}
