//! What ends with an end of channels.
ghost use Rattle.std.specs.Prelude.{◌≡◌, ◌≤◌, ℕ};
ghost use Rattle.std.specs.FinMap as map;
ghost use Rattle.channel_calls.specs.Calls.{AllGoOn, AreCarried, AreFew, carriers_in, channels_left};
ghost use Rattle.channel_calls.specs.Kept.{IsAt};
ghost use Rattle.channel_calls.specs.Leaving.{end_at};
ghost use Rattle.kernel_model.specs.Channels.{is_over};
ghost use Rattle.maps.specs.Maps.{number};

use crate::kept::Channels;
use crate::letting_go::{MOST_CARRIED, NOTHING, check, let_go_all};
use abi_types::{ObjId, OpenKind};
use channels::Side;
use object_store::Objects;

// Whether the channel with this number has lost both of its ends.
fn is_over(channels: &Channels, id: ObjId) -> bool
    ensures { IsAt channels.now id (λ channel. result ≡ is_over channel) }
{
    match channels.get(id) {
        Some(channel) => channel.is_over(),
        None => false,
    }
}

// Takes the end that has this side of a channel out of it, if there is such a channel.
fn leave_side(objects: &mut Objects, channels: &mut Channels, which: Side, id: Option<ObjId>)
    requires covered { (o : ℕ) → carriers_in o channels.old ≤ number (map.get objects.old.counts o) }
    requires going { AllGoOn channels.old }
    ensures channels { channels.new ≡ channels_left (end_at which id) channels.old }
    ensures kinds { objects.new.kinds ≡ objects.old.kinds }
    ensures counts { AreCarried channels.old channels.new objects.old.counts objects.new.counts }
    ensures fewer { (o : ℕ) → carriers_in o channels.new ≤ carriers_in o channels.old }
{
    let Some(id) = id else {
        return;
    };
    let Some(_channel) = channels.get(id) else {
        return;
    };
    check(channels, id);
    let mut fds = [NOTHING; MOST_CARRIED];
    let count = channels.leave_side(id, which, &mut fds);
    let_go_all(objects, &fds[..count]);
    if is_over(channels, id) {
        channels.remove(id);
    }
}

/// Takes an end that has ended out of its channels: what waited in the channel that it read is let go, and a channel that has lost both
/// of its ends goes. Any other open leaves all as it is. Takes no memory, and looks at no other channel.
pub fn leave(objects: &mut Objects, channels: &mut Channels, kind: &OpenKind)
    requires covered { (o : ℕ) → carriers_in o channels.old ≤ number (map.get objects.old.counts o) }
    requires going { AllGoOn channels.old }
    ensures channels { channels.new ≡ channels_left kind.now channels.old }
    ensures going { AllGoOn channels.new }
    ensures kinds { objects.new.kinds ≡ objects.old.kinds }
    ensures counts { AreCarried channels.old channels.new objects.old.counts objects.new.counts }
    ensures few { AreFew channels.old → AreFew channels.new }
{
    let OpenKind::End { reads, writes, .. } = kind else {
        return;
    };
    leave_side(objects, channels, Side::Reader, *reads);
    leave_side(objects, channels, Side::Writer, *writes);
}
