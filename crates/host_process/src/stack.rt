//! Reserves the stack before the script is read.
ghost use Rattle.std.specs.Prelude.{◌<◌, ◌≤◌, ◌*◌, length};

use std::alloc::{AllocError, Global};

/// The bytes of stack that are taken: what the deepest command needs, and some more.
const DEEPEST: usize = 262_144;

/// Writes at one place and reads at another, so that the compiler leaves no room out.
#[inline(never)]
fn touch(room: &mut [u8], at: usize) -> u8
    requires { 2 * at < length room.old }
{
    room[at] = 1;
    room[2 * at]
}

/// Takes the stack. If there is not enough, the system ends the program here, and not in a command.
#[inline(never)]
fn touch_stack(at: usize) -> u8
    requires { at ≤ 64 }
{
    let mut room = [0u8; DEEPEST];
    touch(&mut room, at)
}

/// Allocates twice as much on the heap, and frees it.
fn touch_heap(alloc: Global, at: usize) -> Result<u8, AllocError>
    requires { at ≤ 64 }
{
    let mut room = Vec::with_capacity(alloc, 2 * DEEPEST)?;
    room.resize(129, 0u8)?;
    Ok(touch(room.as_mut_slice(), at))
}

/// Takes the stack that the deepest command needs, and returns whether there is memory for it. No
/// contract is about the stack, so either answer is right.
pub fn has_stack(alloc: Global, depth: usize) -> bool
    requires { depth ≤ 64 }
{
    match touch_heap(alloc, depth) {
        Ok(found) => found <= 1 && touch_stack(depth) <= 1,
        Err(_) => false,
    }
}
