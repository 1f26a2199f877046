//! What is sent by channels and received from them. The statements are in `specs/ChannelLaws.antt`.
ghost use Rattle.kernel_model.specs.ChannelLaws.{ChannelsGoOn, EndsCountNone, EndsGoOn, EndsMakeNone, InstallsAsSent, NewChannelsHaveNone, ReadsAnswer, ReadsLoseNothing, ReadsStopAtSends, ReadsWait, ReceivesAnswer, SendsAnswer, SendsAreCounted, SendsStandLast, WritesAnswer};

/// What a read takes is what was sent, in its order, up to the next send that carries descriptors, and what it carries comes with its
/// first byte. A read waits exactly where nothing waits to be read and something may still come; so does a receive from a socket, which
/// may also wait for all of its bytes.
pub fn reads_take_sends()
    ensures all { ReadsLoseNothing }
    ensures stop { ReadsStopAtSends }
    ensures wait { ReadsWait }
    ensures answers { ReadsAnswer }
    ensures receives { ReceivesAnswer }
{}

/// What is sent stands behind what waited, and no more waits than may. A write to a channel and a send to a socket answer `Pipe` where
/// nothing more can be sent, wait where there is no room, or with NONBLOCK answer `Again`, and else say how many bytes were sent.
pub fn sends_stand_last()
    ensures last { SendsStandLast }
    ensures writes { WritesAnswer }
    ensures sends { SendsAnswer }
{}

/// A descriptor that is received has the rights with which it was sent.
pub fn received_as_sent()
    ensures { InstallsAsSent }
{}

/// A channel goes on from what it was: a step drops what waits there, draws bytes of it, or puts one send behind it. A send that
/// carries descriptors is that of a `sock_send` to this channel, and carries what its process has under the numbers that it lists.
/// The end of a process from outside puts nothing into a channel.
pub fn channels_go_on()
    ensures step { ChannelsGoOn }
    ensures end { EndsGoOn }
{}

/// How many sends a channel has had counts each `fd_write` and each `sock_send` of a byte at least to it that succeeded, once, and
/// nothing else. A channel that is new has had none.
pub fn sends_are_counted()
    ensures step { SendsAreCounted }
    ensures new { NewChannelsHaveNone }
    ensures end { EndsCountNone }
    ensures end_new { EndsMakeNone }
{}
