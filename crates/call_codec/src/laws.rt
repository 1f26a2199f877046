//! Laws of the definitions. The functions do nothing.
ghost use Rattle.call_codec.specs.GivenLaws.{EncodedHasFewRanges, GivenAtCall, WokenEventsAreWritten, WokenMessageIsWritten, WokenReadIsWritten};
ghost use Rattle.call_codec.specs.GivenLaws.{WokenSentIsWritten, WokenWordIsWritten};
ghost use Rattle.call_codec.specs.OutputLaws.{EntriesAreWritten, EventsAreWritten, ExitWordIsWritten, FoundStateIsWritten, LinkIsWritten, MappingIsFilled, MessageIsWritten};
ghost use Rattle.call_codec.specs.OutputLaws.{OpenStateIsWritten, PreadIsWritten, RandomIsWritten, ReadIsWritten, SentIsWritten, SignalWordIsWritten, StateIsWritten, UnlockWordIsWritten, WordsAreWritten};
ghost use Rattle.call_codec.specs.Processes.{ChildGoesOn, ExecIsBounded, ForkHasTurns, RaisedIsSignal};
ghost use Rattle.call_codec.specs.Refusals.{AdviseIsListed, MapIsListed, ProtectIsListed, SyncIsListed, UnmapIsListed};
ghost use Rattle.call_codec.specs.StartBlock.{ArgdataStands, CanaryStands, VectorStands};
ghost use Rattle.call_codec.specs.ThreadLaws.{ThreadStarts};

/// What each call about memory answers, by a list of conditions of which the first that holds answers.
pub fn refusals_are_listed()
    ensures advise { AdviseIsListed }
    ensures map { MapIsListed }
    ensures protect { ProtectIsListed }
    ensures sync { SyncIsListed }
    ensures unmap { UnmapIsListed }
{}

/// What a program may read in its start block, whatever its image is: the vector at the address that a0 has, the canary
/// at the one that the vector's entry CANARY gives, and the argument data at the one that ARGDATA gives.
pub fn start_block_stands()
    ensures vector { VectorStands }
    ensures canary { CanaryStands }
    ensures argdata { ArgdataStands }
{}

/// A thread that is made starts with the registers that its maker asked for, and an instruction can stand at its entry.
pub fn threads_start()
    ensures { ThreadStarts }
{}

/// A child goes on where its parent does, with all that its parent has but for the results of the fork. A fork is asked for with the turns
/// that are left, a program with argument data and descriptors that are not too many, and a signal that is raised is one.
pub fn processes_go_on()
    ensures child { ChildGoesOn }
    ensures fork { ForkHasTurns }
    ensures exec { ExecIsBounded }
    ensures raise { RaisedIsSignal }
{}

/// The output of a call that registers and memory encode is written whole: no write of bytes that were read, as many as the call
/// asks for or has room for at most, of as many random ones as it asks for, and none of the state of a descriptor or of a file is
/// refused. The pages that mem_map makes have the bytes that it gives, and zeros behind them. As many events as poll has subscriptions
/// are written, and so are the words of the lock and the condition variable that it waits for, of the lock that lock_unlock or thread_exit
/// lets go, and of the condition variable that condvar_signal signals.
/// A message that sock_recv takes is written whole, and so is how much sock_send sent.
pub fn output_is_written()
    ensures pread { PreadIsWritten }
    ensures read { ReadIsWritten }
    ensures state { StateIsWritten }
    ensures entries { EntriesAreWritten }
    ensures link { LinkIsWritten }
    ensures open_state { OpenStateIsWritten }
    ensures found_state { FoundStateIsWritten }
    ensures random { RandomIsWritten }
    ensures mapping { MappingIsFilled }
    ensures events { EventsAreWritten }
    ensures words { WordsAreWritten }
    ensures exit_word { ExitWordIsWritten }
    ensures unlock_word { UnlockWordIsWritten }
    ensures signal_word { SignalWordIsWritten }
    ensures message { MessageIsWritten }
    ensures sent { SentIsWritten }
{}

/// What a thread that waited in a call is given when it goes on. Where its registers and memory encode the call as they did, it is the
/// word that the call has; and where it is given a word, the output of the call is written whole, though its memory may have changed.
/// Registers that encoded a call name few ranges.
pub fn wakes_are_given()
    ensures at_call { GivenAtCall }
    ensures read { WokenReadIsWritten }
    ensures events { WokenEventsAreWritten }
    ensures message { WokenMessageIsWritten }
    ensures sent { WokenSentIsWritten }
    ensures word { WokenWordIsWritten }
    ensures few { EncodedHasFewRanges }
{}
