//! Descriptors that come out of channels, and are let go.
ghost use Rattle.std.specs.Prelude.{◌≡◌, ◌+◌, ◌≤◌, ℕ};
ghost use Rattle.std.specs.FinMap as map;
ghost use Rattle.channel_calls.specs.Kept.{IsAt};
ghost use Rattle.kernel_model.specs.Channels.{IsChannel};
ghost use Rattle.kernel_model.specs.Release.{count_carried};
ghost use Rattle.maps.specs.Maps.{number};

use crate::kept::Channels;
use abi_types::{Descriptor, ObjId, Rights};
use object_store::Objects;

/// At most as many descriptors wait in a channel.
pub(crate) const MOST_CARRIED: usize = 64;

/// What a buffer of descriptors is filled with.
pub(crate) const NOTHING: Descriptor = Descriptor {
    id: ObjId(0),
    base: Rights::NONE,
    inheriting: Rights::NONE,
};

/// Lets each of the descriptors let its open go. Takes no memory.
pub(crate) fn let_go_all(objects: &mut Objects, descriptors: &[Descriptor])
    requires covered { (o : ℕ) → count_carried o descriptors.now ≤ number (map.get objects.old.counts o) }
    ensures kinds { objects.new.kinds ≡ objects.old.kinds }
    ensures counts { (o : ℕ) → number (map.get objects.new.counts o) + count_carried o descriptors.now ≡ number (map.get objects.old.counts o) }
{
    for descriptor in descriptors {
        objects.let_go(descriptor.id);
    }
}

/// The channel with this number is one that there may be: it has no more descriptors than a buffer has room for. Only the contract
/// is wanted, and how many bytes wait isn't.
pub(crate) fn check(channels: &Channels, id: ObjId)
    ensures { IsAt channels.now id IsChannel }
{
    if let Some(channel) = channels.get(id) {
        channel.waiting();
    }
}
