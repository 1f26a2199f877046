//! Items on their way from a ring to a buffer.
ghost use Rattle.std.specs.Prelude.{◌≡◌, ◌≤◌, length, take, drop};
ghost use Rattle.circular_buffer.specs.Buffer.{buffer};
ghost use Rattle.channels.specs.Channels.{IsFilled};

use circular_buffer::HeapCircularBuffer;

/// Moves this many of the first items to the beginning of the buffer.
pub(crate) fn move_first<T: Copy>(ring: &mut HeapCircularBuffer<T>, out: &mut [T], count: usize)
    requires fits { count ≤ length out.old }
    requires there { count ≤ length ring.old.items }
    ensures out { IsFilled (take count ring.old.items) out.old out.new }
    ensures ring { ring.new ≡ buffer (drop count ring.old.items) ring.old.capacity }
{
    ring.read_into(&mut out[..count]);
}

/// Copies this many of the first items to the beginning of the buffer.
pub(crate) fn copy_first<T: Copy>(ring: &HeapCircularBuffer<T>, out: &mut [T], count: usize)
    requires fits { count ≤ length out.old }
    requires there { count ≤ length ring.now.items }
    ensures { IsFilled (take count ring.now.items) out.old out.new }
{
    let (front, back) = ring.as_slices();
    let from_front = front.len().min(count);
    let from_back = back.len().min(count - from_front);
    let end = from_front + from_back;
    out[..from_front].copy_from_slice(&front[..from_front]);
    out[from_front..end].copy_from_slice(&back[..from_back]);
}
