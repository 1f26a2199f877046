//! Pairs of ends, which are made together.
ghost use Rattle.std.specs.Prelude.{◌≡◌, ◌≢◌, ◌+◌, ◌^◌, ◌<◌, ℕ, None, OnOk, OnErr};
ghost use Rattle.std.specs.FinMap as map;
ghost use Rattle.abi_base.specs.declared.limits.TheConstants.{MOST_DESCRIPTORS};
ghost use Rattle.abi_types.specs.OpenTypes.{rights_of};
ghost use Rattle.channel_calls.specs.Calls as calls;
ghost use Rattle.channel_calls.specs.Calls.{AreFew, AreMoved};
ghost use Rattle.channel_calls.specs.Pairs.{AreFree, AreNew, HasNone, channels_with, end_one, end_two, number_one, number_two, opens_with, table_with};
ghost use Rattle.kernel_model.specs.Channels.{new_channel};
ghost use Rattle.kernel_model.specs.Families.SocketCalls.{end_descriptor};
ghost use Rattle.kernel_model.specs.Fits.{fits};
ghost use Rattle.kernel_model.specs.Release.{count_in};
ghost use Rattle.maps.specs.Maps.{number};

use crate::kept::Channels;
use abi_types::{ChanKind, Descriptor, ObjId, OpenKind, OpenType, Rights};
use channels::Channel;
use fd_table::FdTable;
use object_store::Objects;
use right_rules::fits;
use std::alloc::{AllocError, Global};

/// What is made.
#[derive(Clone, Copy, Debug, PartialEq, Eq)]
pub enum PairKind {
    /// A channel, an end that reads it, and one that writes it.
    Fifo,
    /// Two channels, and two ends of which each reads the one and writes the other.
    Stream,
}

/// A pair of ends that is to be made.
#[derive(Clone, Copy)]
pub struct Pair {
    pub kind: PairKind,
    /// The number of the first channel. A second one has the next, and so the ends behind the channels.
    pub first: ObjId,
    /// The numbers in the table, which are free.
    pub one: u32,
    pub two: u32,
}

// An end: its number in the table, its descriptor and its open.
#[derive(Clone, Copy)]
struct End {
    fd: u32,
    descriptor: Descriptor,
    kind: OpenKind,
}

// An end of this type, with all rights of it.
fn end_of(fd: u32, id: ObjId, kind: OpenKind, of: OpenType) -> End
    requires { rights_of of ≡ fits kind }
    ensures { result ≡ record { fd = fd; descriptor = end_descriptor id kind; kind = kind } }
{
    End {
        fd,
        descriptor: Descriptor {
            id,
            base: fits(of),
            inheriting: Rights::NONE,
        },
        kind,
    }
}

// The end at the first number.
fn end_one(pair: &Pair) -> End
    requires { pair.now.first + 3 < 2 ^ 64 }
    ensures { result ≡ record { fd = pair.now.one; descriptor = end_descriptor (number_one pair.now) (end_one pair.now); kind = end_one pair.now } }
{
    let first = pair.first.0;
    let reads = Some(pair.first);
    match pair.kind {
        PairKind::Fifo => {
            let kind = OpenKind::End {
                reads,
                writes: None,
                flags: 0,
                kind: ChanKind::Stream,
            };
            end_of(pair.one, ObjId(first + 1), kind, OpenType::Reading)
        }
        PairKind::Stream => {
            let kind = OpenKind::End {
                reads,
                writes: Some(ObjId(first + 1)),
                flags: 0,
                kind: ChanKind::Stream,
            };
            end_of(pair.one, ObjId(first + 2), kind, OpenType::Stream)
        }
    }
}

// The end at the second number.
fn end_two(pair: &Pair) -> End
    requires { pair.now.first + 3 < 2 ^ 64 }
    ensures { result ≡ record { fd = pair.now.two; descriptor = end_descriptor (number_two pair.now) (end_two pair.now); kind = end_two pair.now } }
{
    let first = pair.first.0;
    let writes = Some(pair.first);
    match pair.kind {
        PairKind::Fifo => {
            let kind = OpenKind::End {
                reads: None,
                writes,
                flags: 0,
                kind: ChanKind::Stream,
            };
            end_of(pair.two, ObjId(first + 2), kind, OpenType::Writing)
        }
        PairKind::Stream => {
            let kind = OpenKind::End {
                reads: Some(ObjId(first + 1)),
                writes,
                flags: 0,
                kind: ChanKind::Stream,
            };
            end_of(pair.two, ObjId(first + 3), kind, OpenType::Stream)
        }
    }
}

// Puts an end at its number, which is free. It alone holds its open. `Err` changes nothing.
fn put_end(table: &mut FdTable, objects: &mut Objects, end: &End) -> Result<(), AllocError>
    requires few { end.now.fd < MOST_DESCRIPTORS }
    requires free { map.get table.old end.now.fd ≡ None }
    requires new { map.get objects.old.kinds end.now.descriptor.id ≡ None }
    requires unheld { number (map.get objects.old.counts end.now.descriptor.id) ≡ 0 }
    ensures table { OnOk result (table.new ≡ map.insert table.old end.now.fd end.now.descriptor) }
    ensures kinds { OnOk result (objects.new.kinds ≡ map.insert objects.old.kinds end.now.descriptor.id end.now.kind) }
    ensures counts { OnOk result ((o : ℕ) → number (map.get objects.new.counts o) + count_in o table.old ≡ number (map.get objects.old.counts o) + count_in o table.new) }
    ensures same_table { OnErr result (table.new ≡ table.old) }
    ensures same_objects { OnErr result (objects.new ≡ objects.old) }
{
    let id = end.descriptor.id;
    table.insert_at(end.fd, end.descriptor)?;
    if let Err(error) = objects.add(id, end.kind) {
        table.remove(end.fd);
        return Err(error);
    }
    objects.hold(id);
    Ok(())
}

// Puts both ends. `Err` changes nothing but that a count of 0 may stand for none.
fn put_ends(
    table: &mut FdTable,
    objects: &mut Objects,
    one: &End,
    two: &End,
) -> Result<(), AllocError>
    requires few_one { one.now.fd < MOST_DESCRIPTORS }
    requires few_two { two.now.fd < MOST_DESCRIPTORS }
    requires free_one { map.get table.old one.now.fd ≡ None }
    requires free_two { map.get table.old two.now.fd ≡ None }
    requires apart { two.now.fd ≢ one.now.fd }
    requires new_one { map.get objects.old.kinds one.now.descriptor.id ≡ None }
    requires new_two { map.get objects.old.kinds two.now.descriptor.id ≡ None }
    requires other { two.now.descriptor.id ≢ one.now.descriptor.id }
    requires unheld_one { number (map.get objects.old.counts one.now.descriptor.id) ≡ 0 }
    requires unheld_two { number (map.get objects.old.counts two.now.descriptor.id) ≡ 0 }
    ensures table { OnOk result (table.new ≡ map.insert (map.insert table.old one.now.fd one.now.descriptor) two.now.fd two.now.descriptor) }
    ensures kinds { OnOk result (objects.new.kinds ≡ map.insert (map.insert objects.old.kinds one.now.descriptor.id one.now.kind) two.now.descriptor.id two.now.kind) }
    ensures counts { (o : ℕ) → number (map.get objects.new.counts o) + count_in o table.old ≡ number (map.get objects.old.counts o) + count_in o table.new }
    ensures same_table { OnErr result (table.new ≡ table.old) }
    ensures same_kinds { OnErr result (objects.new.kinds ≡ objects.old.kinds) }
{
    put_end(table, objects, one)?;
    if let Err(error) = put_end(table, objects, two) {
        table.remove(one.fd);
        objects.remove(one.descriptor.id);
        return Err(error);
    }
    Ok(())
}

// A channel to which nothing was sent. `Err` changes nothing.
fn add_channel(alloc: Global, channels: &mut Channels, id: ObjId) -> Result<(), AllocError>
    ensures ok { OnOk result (channels.new ≡ map.insert channels.old id new_channel) }
    ensures err { OnErr result (channels.new ≡ channels.old) }
{
    let channel = Channel::new(alloc)?;
    channels.add(id, channel)
}

// The channels of a pair. `Err` changes nothing.
fn add_channels(alloc: Global, channels: &mut Channels, pair: &Pair) -> Result<(), AllocError>
    requires small { pair.now.first + 3 < 2 ^ 64 }
    requires free { HasNone pair.now channels.old }
    ensures ok { OnOk result (channels.new ≡ channels_with pair.now channels.old) }
    ensures err { OnErr result (channels.new ≡ channels.old) }
{
    add_channel(alloc, channels, pair.first)?;
    match pair.kind {
        PairKind::Fifo => Ok(()),
        PairKind::Stream => {
            let second = ObjId(pair.first.0 + 1);
            if let Err(error) = add_channel(alloc, channels, second) {
                channels.remove(pair.first);
                return Err(error);
            }
            Ok(())
        }
    }
}

// Takes the channels of a pair away again.
fn remove_channels(channels: &mut Channels, pair: &Pair)
    requires small { pair.now.first + 3 < 2 ^ 64 }
    ensures { (before : calls.Channels) → HasNone pair.now before → channels.old ≡ channels_with pair.now before → channels.new ≡ before }
{
    match pair.kind {
        PairKind::Fifo => channels.remove(pair.first),
        PairKind::Stream => {
            channels.remove(ObjId(pair.first.0 + 1));
            channels.remove(pair.first);
        }
    }
}

/// Makes a pair: its channels, to which nothing was sent, its two ends, and their descriptors with all rights of their types, which alone
/// hold them. `Err` changes nothing but that a count of 0 may stand for none.
pub fn put_pair(
    alloc: Global,
    table: &mut FdTable,
    objects: &mut Objects,
    channels: &mut Channels,
    pair: &Pair,
) -> Result<(), AllocError>
    requires small { pair.now.first + 3 < 2 ^ 64 }
    requires free { AreFree pair.now table.old }
    requires new { AreNew pair.now channels.old objects.old.kinds objects.old.counts }
    ensures table { OnOk result (table.new ≡ table_with pair.now table.old) }
    ensures kinds { OnOk result (objects.new.kinds ≡ opens_with pair.now objects.old.kinds) }
    ensures channels { OnOk result (channels.new ≡ channels_with pair.now channels.old) }
    ensures counts { AreMoved table.old channels.old table.new channels.new objects.old.counts objects.new.counts }
    ensures few { AreFew channels.old → AreFew channels.new }
    ensures same_table { OnErr result (table.new ≡ table.old) }
    ensures same_kinds { OnErr result (objects.new.kinds ≡ objects.old.kinds) }
    ensures same_channels { OnErr result (channels.new ≡ channels.old) }
{
    let one = end_one(pair);
    let two = end_two(pair);
    add_channels(alloc, channels, pair)?;
    if let Err(error) = put_ends(table, objects, &one, &two) {
        remove_channels(channels, pair);
        return Err(error);
    }
    Ok(())
}
