//! The room for an answer: the memory that it needs is taken before the call is made.
ghost use Rattle.std.specs.Prelude.{◌≡◌, IfOk, OnErr};
ghost use Rattle.call_codec.specs.MemoryCalls.{IsSomewhere, MayMapThere};
ghost use Rattle.call_codec.specs.Put.{IsRoomAt, IsRoomFor, MayMapFor, TakesRoom};
ghost use Rattle.guest_memory.specs.Room.{without_each};

use crate::memory_calls::pages_in;
use abi_types::{Call, Place};
use guest_memory::{GuestMemory, Room};
use std::alloc::{AllocError, Global};

/// Makes the room in a memory for the answer to a call: a mem_map that goes somewhere has the pages that its range lacks, and other
/// calls need none. Where memory runs out, nothing changes.
pub fn make_room(alloc: Global, memory: &mut GuestMemory, call: &Call) -> Result<Room, AllocError>
    requires { MayMapFor memory.old call.now }
    ensures room { IfOk result (λ room. IsRoomFor call.now room memory.new) }
    ensures without { IfOk result (λ room. without_each room memory.new ≡ memory.old) }
    ensures only { OnErr result (TakesRoom call.now) }
    ensures err { OnErr result (memory.new ≡ memory.old) }
{
    match call {
        Call::MemMap { place, length, .. } => make_room_at(
            alloc,
            memory,
            *place,
            pages_in(*length),
        ),
        _ => Ok(Room::none(alloc)),
    }
}

// Makes room for pages at their place.
fn make_room_at(
    alloc: Global,
    memory: &mut GuestMemory,
    place: Place,
    pages: u64,
) -> Result<Room, AllocError>
    requires { MayMapThere memory.old place pages }
    ensures room { IfOk result (λ room. IsRoomAt place pages room memory.new) }
    ensures without { IfOk result (λ room. without_each room memory.new ≡ memory.old) }
    ensures only { OnErr result (IsSomewhere place) }
    ensures err { OnErr result (memory.new ≡ memory.old) }
{
    match place {
        Place::At(at) => memory.make_room(alloc, at, pages as u32),
        Place::Refused(_) => Ok(Room::none(alloc)),
    }
}
