//! A channel over two rings.
ghost use Rattle.std.specs.Prelude.{◌≡◌, ◌<◌, ◌≤◌, min, length, false, true, IfOk, IfErr, OnOk, OnErr};
ghost use Rattle.channels.specs.Channels.{new_channel, bytes_of, carried_of, room, has_room, is_hung, push, sends, reach, coming, pull, must_wait, must_wait_for_all, side_of, shut_at, left_at, released_at, is_bounded, is_over, IsChannel, IsFilled, IsWhyNotPushed, IsPulled};
ghost use Rattle.channels.specs.Rings.{emptied};

use crate::faults::{PullFault, PushFault};
use crate::pieces::{Piece, draw_in, reach_in};
use crate::rings::{copy_first, move_first};
use crate::side::{Side, SideState};
use abi_types::{ChanKind, Descriptor};
use circular_buffer::HeapCircularBuffer;
use std::alloc::{AllocError, Global};
use std::collections::VecDeque;
use std::marker::Model;

/// At most as many bytes wait in a channel.
const MOST_BYTES: usize = 65_536;

/// At most as many descriptors do.
const MOST_CARRIED: usize = 64;

/// A channel counts at most as many sends in all, which no run gets to.
const MOST_SENDS: u64 = 1 << 63;

/// What a read gave.
#[derive(Clone, Copy)]
pub struct Pulled {
    /// How many bytes.
    pub bytes: usize,
    /// How many descriptors came with them.
    pub carried: usize,
}

/// The sends of one end that another has still to read, which contracts see as the list of what waits of each.
///
/// Their bytes lie in one ring and their descriptors in another, with the lengths of each send beside them. Both rings are made with the
/// channel, so that a write takes memory for the lengths alone.
#[derive(Drop)]
pub struct Channel {
    kind: ChanKind,
    bytes: HeapCircularBuffer<u8>,
    fds: HeapCircularBuffer<Descriptor>,
    pieces: VecDeque<Piece, Global>,

    // How many bytes of the first piece were drawn.
    drawn: usize,

    // How many sends have left.
    left: u64,

    reader: SideState,
    writer: SideState,
}

impl Model for Channel {
    ghost use Rattle.channels.specs.Channels as channels;

    ghost Value = { channels.Channel };

    ghost coded = { channels.channel_code };

    ghost use Rattle.channels.specs.Rings.{IsKept, seen};

    ghost view = { λ c. seen c.kind c.left c.drawn c.pieces.items c.bytes.items c.fds.items c.reader c.writer };

    ghost invariant = { λ c. IsKept c.left c.drawn c.pieces.items c.bytes.items c.bytes.capacity c.fds.items c.fds.capacity c.reader };
}

impl Channel {
    /// A channel to which nothing was sent. Takes the memory of both rings.
    pub fn new(alloc: Global) -> Result<Channel, AllocError>
        ensures { IfOk result (λ channel. channel ≡ new_channel) }
    {
        Ok(Channel {
            kind: ChanKind::Stream,
            bytes: HeapCircularBuffer::with_capacity(alloc, MOST_BYTES)?,
            fds: HeapCircularBuffer::with_capacity(alloc, MOST_CARRIED)?,
            pieces: VecDeque::new(alloc),
            drawn: 0,
            left: 0,
            reader: SideState::Open,
            writer: SideState::Open,
        })
    }

    /// Its kind.
    pub fn kind(&self) -> ChanKind
        ensures { result ≡ self.now.kind }
    {
        self.kind
    }

    /// How many bytes wait.
    pub fn waiting(&self) -> usize
        ensures waiting { result ≡ length (bytes_of self.now.waiting) }
        ensures may_be { IsChannel self.now }
    {
        self.bytes.len()
    }

    /// How many sends wait.
    pub fn sends(&self) -> usize
        ensures { result ≡ length self.now.waiting }
    {
        self.pieces.len()
    }

    /// How many descriptors wait.
    pub fn carried(&self) -> usize
        ensures { result ≡ length (carried_of self.now.waiting) }
    {
        self.fds.len()
    }

    /// For how many more bytes there is room.
    pub fn room(&self) -> usize
        ensures { result ≡ room self.now }
    {
        MOST_BYTES - self.bytes.len()
    }

    /// Whether there is room for a byte more, and for so many descriptors.
    pub fn has_room(&self, carried: usize) -> bool
        ensures { result ≡ has_room carried self.now }
    {
        self.room() > 0 && carried <= MOST_CARRIED - self.fds.len()
    }

    /// How many descriptors come with the next byte.
    pub fn coming(&self) -> usize
        ensures { result ≡ length (coming 1 self.now.waiting) }
    {
        match self.pieces.front() {
            Some(first) if self.drawn == 0 => first.fds,
            _ => 0,
        }
    }

    /// How many bytes a read of as many takes now. It costs no more for the sends behind those that it takes.
    pub fn reach(&self, asked: usize) -> usize
        ensures count { result ≡ length (pull asked self.now).bytes }
        ensures most { result ≡ min asked (reach self.now.waiting) }
        ensures may_be { IsChannel self.now }
    {
        reach_in(&self.pieces, self.drawn, asked)
    }

    /// How a side stands.
    pub fn side(&self, which: Side) -> SideState
        ensures { result ≡ side_of which self.now }
    {
        match which {
            Side::Reader => self.reader,
            Side::Writer => self.writer,
        }
    }

    /// Whether nothing more can be sent: a side was shut, or its end has ended.
    pub fn is_hung(&self) -> bool
        ensures { result ≡ is_hung self.now }
    {
        self.reader != SideState::Open || self.writer != SideState::Open
    }

    /// Whether both ends have ended. Nothing waits then.
    pub fn is_over(&self) -> bool
        ensures { result ≡ is_over self.now }
    {
        self.reader == SideState::Gone && self.writer == SideState::Gone && self.pieces.is_empty()
    }

    /// Whether a read of as many bytes finds nothing, and has to wait.
    pub fn must_wait(&self, asked: usize) -> bool
        ensures { result ≡ must_wait asked self.now }
    {
        asked > 0 && self.pieces.is_empty() && !self.is_hung()
    }

    /// Whether a read of all these bytes has to wait: fewer wait, no send with descriptors bounds them, and more may still be sent.
    pub fn must_wait_for_all(&self, asked: usize) -> bool
        ensures { result ≡ must_wait_for_all asked self.now }
    {
        self.waiting() < asked && !self.is_bounded() && !self.is_hung()
    }

    /// Sends as many of the bytes as there is room for, with all the descriptors, and returns their number. A fault changes nothing.
    pub fn push(&mut self, bytes: &[u8], carried: &[Descriptor]) -> Result<usize, PushFault>
        requires { 0 < length bytes.now }
        ensures ok { IfOk result (λ count. push bytes.now carried.now self.old ≡ sends count self.new) }
        ensures err { IfErr result (λ fault. IsWhyNotPushed fault (push bytes.now carried.now self.old)) }
        ensures same { OnErr result (self.new ≡ self.old) }
        ensures may_be { IsChannel self.old }
    {
        if self.is_hung() {
            return Err(PushFault::Hung);
        }
        if !self.has_room(carried.len()) {
            return Err(PushFault::Full);
        }
        if self.left + self.pieces.len() as u64 >= MOST_SENDS {
            return Err(PushFault::NoMemory);
        }
        let Ok(()) = self.pieces.reserve(1) else {
            return Err(PushFault::NoMemory);
        };
        let count = self.bytes.fill_from_slice(bytes);
        self.fds.fill_from_slice(carried);
        self.pieces.push_back_reserved(Piece {
            bytes: count,
            fds: carried.len(),
        });
        Ok(count)
    }

    /// Moves the bytes that one read takes, and the descriptors that come with them, to the beginning of the buffers. A fault changes nothing.
    pub fn pull(&mut self, out: &mut [u8], fds: &mut [Descriptor]) -> Result<Pulled, PullFault>
        requires { length (coming 1 self.old.waiting) ≤ length fds.old }
        ensures ok { IfOk result (λ done. IsPulled done.bytes done.carried out.old out.new fds.old fds.new (pull (length out.old) self.old) self.new) }
        ensures found { OnOk result (must_wait (length out.old) self.old ≡ false) }
        ensures err { OnErr result (must_wait (length out.old) self.old ≡ true) }
        ensures same { OnErr result ((self.new ≡ self.old) × (out.new ≡ out.old) × (fds.new ≡ fds.old)) }
        ensures may_be { IsChannel self.old }
    {
        if self.must_wait(out.len()) {
            return Err(PullFault::Empty);
        }
        let bytes = self.reach(out.len());
        let carried = self.carried_with(bytes);
        move_first(&mut self.bytes, out, bytes);
        move_first(&mut self.fds, fds, carried);
        let before = self.pieces.len();
        self.drawn = draw_in(&mut self.pieces, self.drawn + bytes);
        self.left += (before - self.pieces.len()) as u64;
        Ok(Pulled { bytes, carried })
    }

    /// Copies the bytes that one read takes now to the beginning of the buffer, and returns their number. They stay in the channel.
    pub fn peek(&self, out: &mut [u8]) -> Result<usize, PullFault>
        ensures count { IfOk result (λ count. count ≡ length (pull (length out.old) self.now).bytes) }
        ensures bytes { OnOk result (IsFilled (pull (length out.old) self.now).bytes out.old out.new) }
        ensures found { OnOk result (must_wait (length out.old) self.now ≡ false) }
        ensures err { OnErr result (must_wait (length out.old) self.now ≡ true) }
        ensures same { OnErr result (out.new ≡ out.old) }
        ensures may_be { IsChannel self.now }
    {
        let count = self.reach(out.len());
        if self.must_wait(out.len()) {
            return Err(PullFault::Empty);
        }
        copy_first(&self.bytes, out, count);
        Ok(count)
    }

    /// Copies the descriptors that come with a read of as many bytes to the beginning of the buffer, and returns their number. They stay
    /// in the channel.
    pub fn first_carried(&self, asked: usize, fds: &mut [Descriptor]) -> usize
        requires { length (coming 1 self.now.waiting) ≤ length fds.old }
        ensures count { result ≡ length (pull asked self.now).carried }
        ensures carried { IsFilled (pull asked self.now).carried fds.old fds.new }
        ensures may_be { IsChannel self.now }
    {
        let count = self.carried_with(asked);
        copy_first(&self.fds, fds, count);
        count
    }

    /// Shuts a side. Once its reader is shut nothing waits any more: the descriptors that did are moved to the beginning of the buffer.
    /// Returns their number.
    pub fn shut(&mut self, which: Side, fds: &mut [Descriptor]) -> usize
        requires { length (released_at which self.old) ≤ length fds.old }
        ensures count { result ≡ length (released_at which self.old) }
        ensures released { IsFilled (released_at which self.old) fds.old fds.new }
        ensures channel { self.new ≡ shut_at which self.old }
        ensures may_be { IsChannel self.old }
    {
        match which {
            Side::Reader => {
                let to = self.reader.shut();
                self.end_reader(to, fds)
            }
            Side::Writer => {
                self.writer = self.writer.shut();
                0
            }
        }
    }

    /// The same where the end of a side has ended.
    pub fn leave(&mut self, which: Side, fds: &mut [Descriptor]) -> usize
        requires { length (released_at which self.old) ≤ length fds.old }
        ensures count { result ≡ length (released_at which self.old) }
        ensures released { IsFilled (released_at which self.old) fds.old fds.new }
        ensures channel { self.new ≡ left_at which self.old }
        ensures may_be { IsChannel self.old }
    {
        match which {
            Side::Reader => self.end_reader(SideState::Gone, fds),
            Side::Writer => {
                self.writer = SideState::Gone;
                0
            }
        }
    }

    // Moves the descriptors that wait, after which nothing does.
    fn end_reader(&mut self, to: SideState, fds: &mut [Descriptor]) -> usize
        requires { length (carried_of self.old.waiting) ≤ length fds.old }
        ensures count { result ≡ length (carried_of self.old.waiting) }
        ensures released { IsFilled (carried_of self.old.waiting) fds.old fds.new }
        ensures channel { self.new ≡ emptied to self.old }
        ensures may_be { IsChannel self.old }
    {
        let count = self.fds.len();
        move_first(&mut self.fds, fds, count);
        self.left += self.pieces.len() as u64;
        self.pieces.clear();
        self.drawn = 0;
        self.bytes.clear();
        self.reader = to;
        count
    }

    // Whether a send with descriptors waits behind the first: more of them wait then than come with the next byte.
    fn is_bounded(&self) -> bool
        ensures { result ≡ is_bounded self.now.waiting }
    {
        self.fds.len() != self.coming()
    }

    // How many descriptors come with so many bytes.
    fn carried_with(&self, bytes: usize) -> usize
        ensures { result ≡ length (coming bytes self.now.waiting) }
    {
        if bytes == 0 { 0 } else { self.coming() }
    }
}
