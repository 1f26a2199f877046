//! From an answer back to the registers and the memory.
ghost use Rattle.std.specs.Prelude.{◌≡◌, ◌≤◌, ◌/◌, ◌^◌};
ghost use Rattle.abi_types.specs.declared.call_number.CallNumber.TheVariants as number;
ghost use Rattle.abi_types.specs.declared.place.Place.TheVariants as place;
ghost use Rattle.codec_arguments.specs.Arguments.{argument};
ghost use Rattle.call_codec.specs.Arguments.{Encodes};
ghost use Rattle.call_codec.specs.MemoryCalls.{MayMapAt, MayMapThere, with_change, with_mapping, pages_in, prot_of};
ghost use Rattle.call_codec.specs.Given.{CanWait};
ghost use Rattle.call_codec.specs.Put.{answered_memory, answered_of, memory_after, put_of, with_results, worded_memory};
ghost use Rattle.call_codec.specs.Put.{HasFewRanges, IsRoomAt, IsRoomFor, KeepsPages};
ghost use Rattle.guest_memory.specs.Changes.{protected, without_pages};
ghost use Rattle.guest_memory.specs.Mapping.{AreThere};
ghost use Rattle.guest_memory.specs.Ranges.{IsPageAddress};
ghost use Rattle.guest_memory.specs.Room.{without_each, AreRoom};
ghost use Rattle.guest_memory.specs.Written.{KeepsCode};

use crate::image::READ_WRITE;
use crate::memory_calls::{has_bits, pages_in};
use crate::messages::{put_received, put_sent};
use crate::output::{content, put_content, put_payload, put_words};
use abi_base::{GUEST_END, PAGE_SIZE};
use abi_types::flags::{PROT_EXEC, PROT_READ, PROT_WRITE};
use abi_types::{Answer, Call, CallNumber, Errno, Place, Prot, Regs, Reply};
use codec_arguments::low;
use guest_memory::{GuestMemory, Room};

/// What an answer leaves of the registers and the memory that encoded the call. The memory has the room for the answer beside, and
/// with it needs no more.
pub fn put_answer(
    regs: &mut Regs,
    memory: &mut GuestMemory,
    room: Room,
    call: &Call,
    answer: &Answer,
)
    requires encoded { Encodes (without_each room memory.old) regs.old call.now }
    requires room { IsRoomFor call.now room memory.old }
    ensures regs { regs.new ≡ answered_of regs.old call.now answer.now }
    ensures memory { memory.new ≡ answered_memory (without_each room memory.old) regs.old call.now answer.now }
{
    match answer {
        Answer::Parked(writes) => {
            memory.remove_room(room);
            put_words(memory, writes);
        }
        Answer::Reply(reply) => {
            if let Errno::Success = reply.errno {
                put_memory(regs, memory, room, call, reply);
            } else {
                memory.remove_room(room);
            }
            put_registers(regs, call, reply);
        }
    }
}

/// The same of a call in which the thread waited, whose memory may have changed since the registers encoded it. It needs no room, and
/// no page changes that may be executed, but not written.
pub fn put_woken(regs: &mut Regs, memory: &mut GuestMemory, call: &Call, answer: &Answer)
    requires waits { CanWait call.now }
    requires few { HasFewRanges regs.old call.now }
    ensures regs { regs.new ≡ answered_of regs.old call.now answer.now }
    ensures memory { memory.new ≡ answered_memory memory.old regs.old call.now answer.now }
    ensures code { KeepsCode memory.old memory.new }
{
    match answer {
        Answer::Parked(writes) => put_words(memory, writes),
        Answer::Reply(reply) => {
            if let Errno::Success = reply.errno {
                put_output(regs, memory, call, reply);
            }
            put_registers(regs, call, reply);
        }
    }
}

// The registers after a call's reply: the error in a0, and on success the results in a1 and a2. The pc goes on after
// the ECALL.
fn put_registers(regs: &mut Regs, call: &Call, reply: &Reply)
    ensures { regs.new ≡ put_of regs.old call.now reply.now }
{
    regs.set(10, u64::from(reply.errno.number()));
    if reply.errno == Errno::Success {
        put_results(regs, call, reply);
    }
    regs.set_pc(regs.pc().wrapping_add(4));
}

// The results of a call that succeeded, in a1 and a2 as far as the call has them.
fn put_results(regs: &mut Regs, call: &Call, reply: &Reply)
    ensures { regs.new ≡ with_results regs.old call.now reply.now }
{
    match call {
        Call::ClockResGet { .. }
        | Call::ClockTimeGet { .. }
        | Call::FdDup { .. }
        | Call::FdPread { .. }
        | Call::FdPwrite { .. }
        | Call::FdRead { .. }
        | Call::FdSeek { .. }
        | Call::FdWrite { .. }
        | Call::FileOpen { .. }
        | Call::FileReaddir { .. }
        | Call::FileReadlink { .. }
        | Call::MemMap { .. }
        | Call::Poll { .. }
        | Call::ThreadCreate { .. } => regs.set(11, reply.r1),
        Call::FdCreate2 { .. } | Call::ProcFork { .. } => {
            regs.set(11, reply.r1);
            regs.set(12, reply.r2);
        }
        _ => {}
    }
}

// The rights that a prot asks for.
fn prot_of(bits: u32) -> Prot
    ensures { result ≡ prot_of bits }
{
    Prot {
        read: has_bits(bits, PROT_READ),
        write: has_bits(bits, PROT_WRITE),
        exec: has_bits(bits, PROT_EXEC),
    }
}

// The memory after a call that succeeded with this reply.
fn put_memory(regs: &Regs, memory: &mut GuestMemory, room: Room, call: &Call, reply: &Reply)
    requires encoded { Encodes (without_each room memory.old) regs.now call.now }
    requires room { IsRoomFor call.now room memory.old }
    ensures { memory.new ≡ memory_after (worded_memory (without_each room memory.old) call.now reply.now.writes) regs.now call.now reply.now.payload }
{
    match call {
        Call::MemMap {
            place,
            length,
            prot,
            ..
        } => {
            let pages = pages_in(*length);
            map(
                memory,
                room,
                *place,
                pages,
                prot_of(*prot),
                content(&reply.payload),
            );
        }
        Call::Memory { number, errno } => {
            memory.remove_room(room);
            if let Errno::Success = *errno {
                change(regs, memory, *number);
            }
        }
        _ => {
            memory.remove_room(room);
            put_output(regs, memory, call, reply);
        }
    }
}

// The same of a call that isn't about memory. What it gave goes where the registers name.
fn put_output(regs: &Regs, memory: &mut GuestMemory, call: &Call, reply: &Reply)
    requires other { KeepsPages call.now }
    requires few { HasFewRanges regs.now call.now }
    ensures { memory.new ≡ memory_after (worded_memory memory.old call.now reply.now.writes) regs.now call.now reply.now.payload }
{
    let payload = &reply.payload;
    match call {
        Call::FdPread { .. } | Call::FdRead { .. } => put_content(regs, memory, payload),
        Call::FdStatGet { .. } | Call::FileReaddir { .. } | Call::FileStatFget { .. } => {
            put_payload(memory, regs.get(11), payload);
        }
        Call::FileReadlink { .. } | Call::FileStatGet { .. } => {
            put_payload(memory, regs.get(13), payload);
        }
        Call::Poll { .. } => {
            put_words(memory, &reply.writes);
            put_payload(memory, regs.get(11), payload);
        }
        Call::RandomGet { .. } => put_payload(memory, regs.get(10), payload),
        Call::SockRecv { .. } => put_received(regs, memory, payload),
        Call::SockSend { .. } => put_sent(regs, memory, payload),
        Call::CondvarSignal { .. } | Call::LockUnlock { .. } | Call::ThreadExit { .. } => {
            put_words(memory, &reply.writes);
        }
        _ => {}
    }
}

// Maps pages with bytes in them at their place, in place of those that are there.
fn map(memory: &mut GuestMemory, room: Room, place: Place, pages: u64, prot: Prot, bytes: &[u8])
    requires place { MayMapThere (without_each room memory.old) place pages }
    requires room { IsRoomAt place pages room memory.old }
    ensures { memory.new ≡ with_mapping (without_each room memory.old) place pages prot bytes.now }
{
    match place {
        Place::At(at) => map_at(memory, room, at, pages, prot, bytes),
        Place::Refused(_) => memory.remove_room(room),
    }
}

// Maps pages at an address, in place of those that are there, with as many of the bytes as they have room for. They get their
// rights once the bytes are in them.
fn map_at(memory: &mut GuestMemory, room: Room, at: u64, pages: u64, prot: Prot, bytes: &[u8])
    requires place { MayMapAt (without_each room memory.old) at pages }
    requires room { AreRoom room (at / PAGE_SIZE) pages memory.old }
    ensures { memory.new ≡ with_mapping (without_each room memory.old) (place.At at) pages prot bytes.now }
{
    memory.map_fixed(room, at, pages as u32, READ_WRITE);
    let count = bytes.len().min((pages * PAGE_SIZE) as usize);
    // The pages are there and can be written, so that neither can be refused.
    let _ = memory.write_bytes(at, &bytes[..count]);
    let _ = memory.protect(at, pages as u32, prot);
}

// The memory after mem_protect, mem_unmap or a call that changes nothing.
fn change(regs: &Regs, memory: &mut GuestMemory, call: CallNumber)
    requires aligned { IsPageAddress (argument regs.now 0) }
    requires there { call ≡ number.MemProtect → AreThere memory.old (argument regs.now 0 / PAGE_SIZE) (pages_in (argument regs.now 1)) }
    ensures { memory.new ≡ with_change memory.old regs.now call }
{
    let at = regs.get(10);
    let pages = pages_in(regs.get(11));
    match call {
        CallNumber::MemProtect => protect(memory, at, pages, prot_of(low(regs.get(12)))),
        CallNumber::MemUnmap => unmap(memory, at, pages),
        _ => {}
    }
}

// Gives pages that are there other rights.
fn protect(memory: &mut GuestMemory, at: u64, pages: u64, prot: Prot)
    requires aligned { IsPageAddress at }
    requires there { AreThere memory.old (at / PAGE_SIZE) pages }
    ensures { memory.new ≡ protected memory.old (at / PAGE_SIZE) pages prot }
{
    memory.keeps_limits();
    // The pages are there, so that it can't be refused.
    let _ = memory.protect(at, pages as u32, prot);
}

// Takes away the pages of the range, as far as they are there. None is past the guest's part of the address space.
fn unmap(memory: &mut GuestMemory, at: u64, pages: u64)
    requires aligned { IsPageAddress at }
    requires few { pages ≤ 2 ^ 52 }
    ensures { memory.new ≡ without_pages memory.old (at / PAGE_SIZE) pages }
{
    memory.keeps_limits();
    if at < GUEST_END {
        let count = pages.min((GUEST_END - at) / PAGE_SIZE);
        memory.unmap(at, count as u32);
    }
}
