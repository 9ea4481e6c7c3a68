//! Rings of items that grow before they are filled, so that filling them takes no memory.

ghost use Rattle.std.specs.Prelude.{◌≡◌, ◌≢◌, ◌+◌, ◌*◌, ◌≤◌, IfOk, OnOk, OnErr, length, max, take, drop};

use circular_buffer::HeapCircularBuffer;
use rh_text::Bytes;
use std::alloc::{AllocError, Global};

/// The items in a ring of so much room.
fn widened<T: Copy>(
    alloc: Global,
    ring: &HeapCircularBuffer<T>,
    room: usize,
) -> Result<HeapCircularBuffer<T>, AllocError>
    requires { length ring.now.items ≤ room }
    ensures items { IfOk result (λ wider. wider.items ≡ ring.now.items) }
    ensures room { IfOk result (λ wider. wider.capacity ≡ room) }
{
    let mut wider = HeapCircularBuffer::with_capacity(alloc, room)?;
    let (front, behind) = ring.as_slices();
    wider.fill_from_slice(front);
    wider.fill_from_slice(behind);
    Ok(wider)
}

/// Makes room for `count` items more. Room that suffices stays, and other room at least doubles:
/// an item is copied a constant number of times on average, and the room is at most twice what was
/// ever asked for.
///
/// # Errors
/// `AllocError`: there was no memory, or the count of items would pass 2^64; nothing has changed.
pub fn make_room<T: Copy>(
    alloc: Global,
    ring: &mut HeapCircularBuffer<T>,
    count: usize,
) -> Result<(), AllocError>
    ensures items { ring.new.items ≡ ring.old.items }
    ensures room { OnOk result (length ring.new.items + count ≤ ring.new.capacity) }
    ensures within { length ring.new.items ≤ ring.new.capacity }
    ensures stays { length ring.old.items + count ≤ ring.old.capacity → ring.new ≡ ring.old }
    ensures doubles { ring.new.capacity ≢ ring.old.capacity
        → 2 * ring.old.capacity ≤ ring.new.capacity }
    ensures most { ring.new.capacity
        ≤ max ring.old.capacity (2 * (length ring.old.items + count)) }
{
    let room = ring.capacity();
    if count > room - ring.len() {
        let needed = ring.len().checked_add(count).ok_or(AllocError)?;
        *ring = widened(alloc, ring, needed.max(room.saturating_mul(2)))?;
    }
    Ok(())
}

/// The first `count` bytes, as a list of their own.
#[inline(always)]
fn front_of(
    alloc: Global,
    ring: &HeapCircularBuffer<u8>,
    count: usize,
) -> Result<Vec<u8>, AllocError>
    requires { count ≤ length ring.now.items }
    ensures { IfOk result (λ bytes. bytes.items ≡ take count ring.now.items) }
{
    let (front, behind) = ring.as_slices();
    if count <= front.len() {
        return Vec::from_slice(alloc, &front[..count]);
    }
    let mut bytes = Vec::with_capacity(alloc, count)?;
    bytes.extend_from_slice(front)?;
    bytes.extend_from_slice(&behind[..count - front.len()])?;
    Ok(bytes)
}

/// Takes the first bytes out: `count` of them, or all where there are fewer. The others stay where
/// they are.
///
/// # Errors
/// `AllocError`: there was no memory for a list of them; nothing has changed.
#[inline(always)]
pub fn take_front(
    alloc: Global,
    ring: &mut HeapCircularBuffer<u8>,
    count: usize,
) -> Result<Bytes, AllocError>
    ensures taken { IfOk result (λ front. front ≡ take count ring.old.items) }
    ensures left { OnOk result (ring.new.items ≡ drop count ring.old.items) }
    ensures room { ring.new.capacity ≡ ring.old.capacity }
    ensures err { OnErr result (ring.new ≡ ring.old) }
{
    let count = count.min(ring.len());
    let front = front_of(alloc, ring, count)?;
    ring.truncate_front(ring.len() - count);
    Ok(Bytes::new(front))
}
