//! What sock_shutdown does.
ghost use Rattle.std.specs.Prelude.{◌≡◌, ◌≤◌, ◌==◌, ◌&&◌, ℕ, Some, bit_and, not};
ghost use Rattle.std.specs.FinMap as map;
ghost use Rattle.abi_types.specs.declared.reply.Answer.TheVariants as answer;
ghost use Rattle.channel_calls.specs.Calls.{AreCarried, AreFew, carriers_in, channels_after, seen_in};
ghost use Rattle.channel_calls.specs.Shuts.{shut_both};
ghost use Rattle.channels.specs.Channels.{shut_at};
ghost use Rattle.kernel_model.specs.Families.ChannelCalls.{shut_if, shut_open};
ghost use Rattle.kernel_model.specs.Reply.{success};
ghost use Rattle.maps.specs.Maps.{number};

use crate::kept::Channels;
use crate::letting_go::{MOST_CARRIED, NOTHING, let_go_all};
use abi_types::flags::{SHUT_RD, SHUT_WR};
use abi_types::{Answer, Errno, ObjId, OpenKind};
use channels::Side;
use object_store::Objects;
use right_rules::{refused, success};

/// Shuts an end for what comes, which is let go, or for what it sends, or both. Takes no memory.
pub(crate) fn shut(
    objects: &mut Objects,
    channels: &mut Channels,
    kind: &OpenKind,
    how: u32,
) -> Answer
    requires covered { (o : ℕ) → carriers_in o channels.old ≤ number (map.get objects.old.counts o) }
    ensures answer { result ≡ (shut_open (seen_in channels.old) how (Some kind.now)).answer }
    ensures channels { channels.new ≡ channels_after (shut_open (seen_in channels.old) how (Some kind.now)).updates channels.old }
    ensures kinds { objects.new.kinds ≡ objects.old.kinds }
    ensures counts { AreCarried channels.old channels.new objects.old.counts objects.new.counts }
    ensures few { AreFew channels.old → AreFew channels.new }
{
    match kind {
        OpenKind::End {
            reads: Some(reads),
            writes: Some(writes),
            ..
        } => shut_end(objects, channels, *reads, *writes, how),
        _ => Answer::Reply(refused(Errno::Notsock)),
    }
}

// Shuts the end that reads the one channel and writes the other.
fn shut_end(
    objects: &mut Objects,
    channels: &mut Channels,
    reads: ObjId,
    writes: ObjId,
    how: u32,
) -> Answer
    requires covered { (o : ℕ) → carriers_in o channels.old ≤ number (map.get objects.old.counts o) }
    ensures answer { result ≡ answer.Reply (success 0 0) }
    ensures channels { channels.new ≡ channels_after (shut_both channels.old reads writes how) channels.old }
    ensures kinds { objects.new.kinds ≡ objects.old.kinds }
    ensures counts { AreCarried channels.old channels.new objects.old.counts objects.new.counts }
    ensures few { AreFew channels.old → AreFew channels.new }
{
    let receives = shuts_reader(reads, writes, how);
    shut_side(objects, channels, reads, Side::Reader, receives);
    shut_side(objects, channels, writes, Side::Writer, how & SHUT_WR != 0);
    Answer::Reply(success(0, 0))
}

// Whether the side that reads is shut. No end is made that writes what it reads: of such a one the side that writes would be shut alone.
fn shuts_reader(reads: ObjId, writes: ObjId, how: u32) -> bool
    ensures { result ≡ (not (bit_and how 1 == 0) && not (not (bit_and how 2 == 0) && (reads == writes))) }
{
    how & SHUT_RD != 0 && !(how & SHUT_WR != 0 && reads.0 == writes.0)
}

// Shuts one side of a channel, where that is wanted and there is one. Descriptors that no longer wait in it then are let go.
fn shut_side(objects: &mut Objects, channels: &mut Channels, id: ObjId, side: Side, wanted: bool)
    requires covered { (o : ℕ) → carriers_in o channels.old ≤ number (map.get objects.old.counts o) }
    ensures channels { channels.new ≡ channels_after (shut_if wanted (shut_at side) id (map.get channels.old id)) channels.old }
    ensures kinds { objects.new.kinds ≡ objects.old.kinds }
    ensures counts { AreCarried channels.old channels.new objects.old.counts objects.new.counts }
    ensures few { (o : ℕ) → carriers_in o channels.new ≤ carriers_in o channels.old }
{
    if !wanted || channels.get(id).is_none() {
        return;
    }
    let mut released = [NOTHING; MOST_CARRIED];
    let count = channels.shut_side(id, side, &mut released);
    let_go_all(objects, &released[..count]);
}
