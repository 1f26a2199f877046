//! The channels of a kernel by number.
ghost use Rattle.std.specs.Prelude.{◌≡◌, ◌<◌, ◌≤◌, OnOk, OnErr, IfOk, IfErr, None, Some, IsSome, length, true, false, option_copied};
ghost use Rattle.std.specs.FinMap as map;
ghost use Rattle.channels.specs.declared.side.Side.{Side};
ghost use Rattle.channel_calls.specs.Kept.{IsAt};
ghost use Rattle.channels.specs.Channels.{push, sends, pull, coming, must_wait, shut_at, left_at, released_at, most_carried, IsWhyNotPushed, IsPulled, IsFilled};
ghost use Rattle.kernel_model.specs.Channels.{new_channel};

use abi_types::{Descriptor, ObjId};
use channels::{Channel, PullFault, Pulled, PushFault, Side};
use maps::NumMap;
use std::alloc::{AllocError, Global};
use std::marker::Model;

// No more descriptors wait in the channel than its callers' buffers have room for.
fn carries_few(channel: &Channel)
    ensures { (which : Side) → length (released_at which channel.now) ≤ most_carried }
{
    channel.waiting();
}

/// The channels of a kernel by number, which contracts see as a finite map.
#[derive(Drop)]
pub struct Channels {
    by_number: NumMap<Channel>,
}

impl Model for Channels {
    ghost use Rattle.channel_calls.specs.Calls as calls;
    ghost use Rattle.channel_calls.specs.Codes.{channels_code};

    ghost Value = { calls.Channels };

    ghost coded = { channels_code };

    ghost view = { λ c. c.by_number };
}

impl Channels {
    /// No channel.
    pub fn new(alloc: Global) -> Channels
        ensures { result ≡ map.empty }
    {
        Channels {
            by_number: NumMap::new(alloc),
        }
    }

    /// The channel with this number, if there is one.
    pub fn get(&self, id: ObjId) -> Option<&Channel>
        ensures { option_copied result ≡ map.get self.now id }
    {
        self.by_number.get(id.0)
    }

    // A new channel with this number. Where memory runs out, all is as before.
    pub(crate) fn add(&mut self, id: ObjId, channel: Channel) -> Result<(), AllocError>
        ensures ok { OnOk result (self.new ≡ map.insert self.old id channel) }
        ensures err { OnErr result (self.new ≡ self.old) }
    {
        match self.by_number.insert(id.0, channel) {
            Ok(_) => Ok(()),
            Err(_) => Err(AllocError),
        }
    }

    // The channel with this number is gone.
    pub(crate) fn remove(&mut self, id: ObjId)
        ensures { self.new ≡ map.remove self.old id }
    {
        self.by_number.remove(id.0);
    }

    // What `Channel::push` does, to the channel with this number, which there is.
    pub(crate) fn push_to(
        &mut self,
        id: ObjId,
        bytes: &[u8],
        carried: &[Descriptor],
    ) -> Result<usize, PushFault>
        requires some { 0 < length bytes.now }
        requires there { IsSome (map.get self.old id) }
        ensures ok { IfOk result (λ count. IsAt self.old id (λ channel. (new : Channel) × (push bytes.now carried.now channel ≡ sends count new) × (self.new ≡ map.insert self.old id new))) }
        ensures err { IfErr result (λ fault. IsAt self.old id (λ channel. IsWhyNotPushed fault (push bytes.now carried.now channel))) }
        ensures same { OnErr result (self.new ≡ self.old) }
    {
        self.by_number.get_mut(id.0).push(bytes, carried)
    }

    // What `Channel::pull` does, to the channel with this number, which there is.
    pub(crate) fn pull_from(
        &mut self,
        id: ObjId,
        out: &mut [u8],
        fds: &mut [Descriptor],
    ) -> Result<Pulled, PullFault>
        requires there { IsSome (map.get self.old id) }
        requires room { IsAt self.old id (λ channel. length (coming 1 channel.waiting) ≤ length fds.old) }
        ensures ok { IfOk result (λ done. IsAt self.old id (λ channel. (new : Channel) × IsPulled done.bytes done.carried out.old out.new fds.old fds.new (pull (length out.old) channel) new × (self.new ≡ map.insert self.old id new))) }
        ensures found { OnOk result (IsAt self.old id (λ channel. must_wait (length out.old) channel ≡ false)) }
        ensures err { OnErr result (IsAt self.old id (λ channel. must_wait (length out.old) channel ≡ true)) }
        ensures same { OnErr result ((self.new ≡ self.old) × (out.new ≡ out.old) × (fds.new ≡ fds.old)) }
    {
        self.by_number.get_mut(id.0).pull(out, fds)
    }

    // What `Channel::shut` does, to the channel with this number, which there is.
    pub(crate) fn shut_side(&mut self, id: ObjId, which: Side, fds: &mut [Descriptor]) -> usize
        requires there { IsSome (map.get self.old id) }
        requires room { most_carried ≤ length fds.old }
        ensures count { IsAt self.old id (λ channel. result ≡ length (released_at which channel)) }
        ensures most { result ≤ most_carried }
        ensures released { IsAt self.old id (λ channel. IsFilled (released_at which channel) fds.old fds.new) }
        ensures channel { IsAt self.old id (λ channel. self.new ≡ map.insert self.old id (shut_at which channel)) }
    {
        let channel = self.by_number.get_mut(id.0);
        carries_few(channel);
        channel.shut(which, fds)
    }

    // What `Channel::leave` does, to the channel with this number, which there is.
    pub(crate) fn leave_side(&mut self, id: ObjId, which: Side, fds: &mut [Descriptor]) -> usize
        requires there { IsSome (map.get self.old id) }
        requires room { most_carried ≤ length fds.old }
        ensures count { IsAt self.old id (λ channel. result ≡ length (released_at which channel)) }
        ensures most { result ≤ most_carried }
        ensures released { IsAt self.old id (λ channel. IsFilled (released_at which channel) fds.old fds.new) }
        ensures channel { IsAt self.old id (λ channel. self.new ≡ map.insert self.old id (left_at which channel)) }
    {
        let channel = self.by_number.get_mut(id.0);
        carries_few(channel);
        channel.leave(which, fds)
    }
}
