//! Laws of the calls that carry bytes. The statements are in `specs/TransferLaws.antt`, `specs/ShutLaws.antt`, `specs/StreamLaws.antt`,
//! `specs/TouchLaws.antt` and `specs/FileLaws.antt`.
ghost use Rattle.transfer_laws.specs.FileLaws.{FilesAreRead, FilesAreWritten, SeeksMove};
ghost use Rattle.transfer_laws.specs.ShutLaws.{ShutsAsAsked};
ghost use Rattle.transfer_laws.specs.StreamLaws.{EndsKeepStreams, ReadsTakeFirst, StreamsBegin, StreamsGoOn, WakesGoOn, WritesAppend};
ghost use Rattle.transfer_laws.specs.TouchLaws.{SocketsTouch, StreamsTouch};
ghost use Rattle.transfer_laws.specs.TransferLaws.{ReadsKeepSides, ReadsTake, ReceivesTake, SendsPut};

/// A read of an end and a receive from a socket that needn't wait give what stands first in the channel, and it is gone from there; a receive
/// with PEEK leaves it. A receive waits, or with NONBLOCK answers `Again`, exactly where both sides are open, and nothing waits though it
/// asks for a byte, or with WAITALL fewer bytes wait than it asks for and no send with descriptors bounds them. The descriptors that come
/// stand under the lowest numbers that are free, or the answer is `Mfile`. A write to an end and a send to a socket put one send behind what
/// waits, of as many of their bytes as there is room for, and a send to a socket with the descriptors that it lists. Nothing else changes.
pub fn transfers_leave_channels()
    ensures reads { ReadsTake }
    ensures sides { ReadsKeepSides }
    ensures receives { ReceivesTake }
    ensures sends { SendsPut }
{}

/// A `sock_shutdown` with RD shuts the reader's side of the channel that the socket reads, and drops what waits there. With WR it shuts the
/// writer's side of the channel that the socket writes, where what waits stays. Nothing else changes.
pub fn sockets_are_shut_as_asked()
    ensures { ShutsAsAsked }
{}

/// Bytes written to a standard stream stand behind what was written to it before, and the answer says how many they are. A read of one gives
/// what comes first of what can be read, as much as it asks for, and leaves the rest. Nothing else changes. At each step and wake of any call what was
/// written to a stream stays in front, and of what can be read nothing goes but from the front. A launch begins with its bytes to be read
/// from standard input, and with nothing written.
pub fn streams_keep_what_was_written()
    ensures writes { WritesAppend }
    ensures reads { ReadsTakeFirst }
    ensures steps { StreamsGoOn }
    ensures wakes { WakesGoOn }
    ensures ends { EndsKeepStreams }
    ensures begins { StreamsBegin }
{}

/// Beside the clock, what is its process's own and its status, a call on a socket may change the channels of the socket alone, and no open. A
/// read, a write and a seek may change the channel of an end or the stream, and of a file the open; a write the file too.
pub fn touches_are_exact()
    ensures sockets { SocketsTouch }
    ensures streams { StreamsTouch }
{}

/// A read of a file gives what stands there from a place on, and a mapping without ANON has it in its pages. A write puts its bytes there, zeros
/// up to it where the file was shorter, and leaves what stands before and behind; the file's times are those of the call then. The
/// place is the call's own, or the open's offset, which is behind the bytes then, or with APPEND the file's end. A seek moves the
/// offset, from where it is, from the file's end or from 0, and answers it. Nothing else changes.
pub fn files_keep_what_is_written()
    ensures reads { FilesAreRead }
    ensures writes { FilesAreWritten }
    ensures seeks { SeeksMove }
{}
