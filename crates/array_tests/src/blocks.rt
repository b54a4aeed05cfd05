//! Blocks: the expected bytes are those of Python's `bytearray` under the same assignments of slices, or of plain code over an array.
ghost use Rattle.std.specs.Prelude.{◌≡◌, ◌+◌, ◌≤◌, length};

use crate::check::{check, check_bytes};
use raw_block::{RawBlock, Steps, StridedItems};
use std::alloc::Global;
use std::process::Abort;

/// A block of zeros.
fn zeros(rt: &impl Abort, alloc: Global, len: usize) -> RawBlock
    ensures { length result ≡ len }
{
    RawBlock::try_zeroed(alloc, len).expect(rt, "no memory")
}

/// The bytes 0 to 11.
fn counted(rt: &impl Abort, alloc: Global) -> RawBlock
    ensures { length result ≡ 12 }
{
    let mut block = zeros(rt, alloc, 12);
    block.store(0, 8, 0x0706_0504_0302_0100);
    block.store(8, 4, 0xffff_ffff_0b0a_0908);
    block
}

/// The block has these bytes.
fn has(rt: &impl Abort, block: &RawBlock, bytes: &[u8]) {
    check_bytes(rt, block.bytes(), bytes);
    check(rt, block.len() == bytes.len(), "the length");
}

#[test]
fn zeroed(rt: HostRuntime) {
    has(&rt, &zeros(&rt, rt.alloc(), 5), &[0, 0, 0, 0, 0]);
    has(&rt, &zeros(&rt, rt.alloc(), 0), &[]);
}

#[test]
fn too_long(rt: HostRuntime) {
    for len in [usize::MAX, isize::MAX as usize] {
        let is_refused = RawBlock::try_zeroed(rt.alloc(), len).is_err();
        check(&rt, is_refused, "too long");
    }
}

/// So many bytes from the fourth on are this number.
fn loads(rt: &impl Abort, block: &RawBlock, width: usize, number: u64)
    requires width { width ≤ 8 }
    requires len { length block.now ≡ 12 }
{
    check(rt, block.load(3, width) == number, "a number");
}

#[test]
fn loads_and_stores(rt: HostRuntime) {
    let mut block = counted(&rt, rt.alloc());
    loads(&rt, &block, 0, 0);
    loads(&rt, &block, 1, 3);
    loads(&rt, &block, 2, 0x0403);
    loads(&rt, &block, 3, 0x05_0403);
    loads(&rt, &block, 4, 0x0605_0403);
    loads(&rt, &block, 7, 0x0009_0807_0605_0403);
    loads(&rt, &block, 8, 0x0a09_0807_0605_0403);
    block.store(12, 0, 0xff);
    block.store(1, 3, 0x0011_2233_4455_6677);
    has(
        &rt,
        &block,
        &[0, 0x77, 0x66, 0x55, 4, 5, 6, 7, 8, 9, 10, 11],
    );
}

#[test]
fn puts(rt: HostRuntime) {
    let mut block = counted(&rt, rt.alloc());
    block.put(4, &[170, 187, 204]);
    has(&rt, &block, &[0, 1, 2, 3, 170, 187, 204, 7, 8, 9, 10, 11]);
}

#[test]
fn moves(rt: HostRuntime) {
    let mut up = counted(&rt, rt.alloc());
    up.move_within(2, 0, 6);
    has(&rt, &up, &[0, 1, 0, 1, 2, 3, 4, 5, 8, 9, 10, 11]);
    let mut down = counted(&rt, rt.alloc());
    down.move_within(0, 2, 6);
    has(&rt, &down, &[2, 3, 4, 5, 6, 7, 6, 7, 8, 9, 10, 11]);
}

#[test]
fn copies_of_another_block(rt: HostRuntime) {
    let mut block = zeros(&rt, rt.alloc(), 12);
    block.copy_from(3, &counted(&rt, rt.alloc()), 6, 5);
    has(&rt, &block, &[0, 0, 0, 6, 7, 8, 9, 10, 0, 0, 0, 0]);
}

/// Copies two bytes.
fn copy_two(bytes: &mut [u8], to: usize, source: &[u8], from: usize)
    requires to { to + 2 ≤ length bytes.old }
    requires from { from + 2 ≤ length source.now }
{
    bytes[to..to + 2].copy_from_slice(&source[from..from + 2]);
}

fn steps(at: usize, step: isize) -> Steps
    ensures { result ≡ record { at = at; step = step } }
{
    Steps { at, step }
}

/// Items of two bytes at equal steps.
fn pairs(at: usize, step: isize, count: usize) -> StridedItems
    ensures { result ≡ record {
      steps = record { at = at; step = step };
      width = 2;
      count = count;
    } }
{
    StridedItems {
        steps: Steps { at, step },
        width: 2,
        count,
    }
}

#[test]
fn copies_backwards(rt: HostRuntime) {
    let source = counted(&rt, rt.alloc());
    let mut block = zeros(&rt, rt.alloc(), 12);
    block.copy_strided(steps(0, 4), &source, pairs(10, -3, 3));
    let mut plain = [0; 12];
    copy_two(&mut plain, 0, source.bytes(), 10);
    copy_two(&mut plain, 4, source.bytes(), 7);
    copy_two(&mut plain, 8, source.bytes(), 4);
    has(&rt, &block, &plain);
    has(&rt, &block, &[10, 11, 0, 0, 7, 8, 0, 0, 4, 5, 0, 0]);
}

#[test]
fn copies_of_one_item(rt: HostRuntime) {
    let mut block = zeros(&rt, rt.alloc(), 12);
    block.copy_strided(steps(1, 3), &counted(&rt, rt.alloc()), pairs(7, 0, 3));
    has(&rt, &block, &[0, 7, 8, 0, 7, 8, 0, 7, 8, 0, 0, 0]);
}

/// Each byte is written two places on, from the first up.
fn smear(bytes: &mut [u8; 12]) {
    for i in 0..10 {
        bytes[i + 2] = bytes[i];
    }
}

#[test]
fn copies_over_itself(rt: HostRuntime) {
    let mut smeared = counted(&rt, rt.alloc());
    smeared.copy_strided_within(steps(2, 2), pairs(0, 2, 5));
    let mut plain = [0, 1, 2, 3, 4, 5, 6, 7, 8, 9, 10, 11];
    smear(&mut plain);
    has(&rt, &smeared, &plain);
    has(&rt, &smeared, &[0, 1, 0, 1, 0, 1, 0, 1, 0, 1, 0, 1]);
    let mut shifted = counted(&rt, rt.alloc());
    shifted.copy_strided_within(steps(10, -2), pairs(8, -2, 5));
    has(&rt, &shifted, &[0, 1, 0, 1, 2, 3, 4, 5, 6, 7, 8, 9]);
}

#[test]
fn fills(rt: HostRuntime) {
    let mut block = counted(&rt, rt.alloc());
    block.fill_strided(steps(9, -4), &[170, 187, 204], 3);
    has(
        &rt,
        &block,
        &[0, 170, 187, 204, 4, 170, 187, 204, 8, 170, 187, 204],
    );
}

#[test]
fn swaps(rt: HostRuntime) {
    let mut block = counted(&rt, rt.alloc());
    block.swap_strided(steps(0, 2), pairs(10, -2, 3));
    has(&rt, &block, &[10, 11, 8, 9, 6, 7, 4, 5, 2, 3, 0, 1]);
}

#[test]
fn writes_ints(rt: HostRuntime) {
    let mut block = counted(&rt, rt.alloc());
    let run = block.run_i32_mut(4, 2);
    check(&rt, run[0] == [4, 5, 6, 7], "an item");
    run[0] = (-2_i32).to_le_bytes();
    run[1] = 258_i32.to_le_bytes();
    has(&rt, &block, &[0, 1, 2, 3, 254, 255, 255, 255, 2, 1, 0, 0]);
}

#[test]
fn writes_longs(rt: HostRuntime) {
    let mut block = counted(&rt, rt.alloc());
    block.run_i64_mut(3, 1)[0] = (-258_i64).to_le_bytes();
    has(
        &rt,
        &block,
        &[0, 1, 2, 254, 254, 255, 255, 255, 255, 255, 255, 11],
    );
}
