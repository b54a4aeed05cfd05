//! Masks: how many of their items are true, and the ranks of these.
ghost use Rattle.std.specs.Prelude.{IfOk, IfSome, OnOk, length, ◌++◌, ◌+◌, ◌<◌, ◌≡◌};
ghost use Rattle.fancy_index.specs.Clauses.{items, owned_items, Mask, AreNoted, IsBlock, LieInBytes, bools_in, true_count, kind_in, numbers_in, true_ranks};

use crate::bools::{Bools, count_run, note_true};
use crate::fast::adjacent_bools::note_adjacent;
use arrays::{Items, Owned, copy};
use elem_descr::MemoryOrder;
use shape_strides::Runs;
use std::alloc::{AllocError, Global};

/// Writes the ranks of the true bools of a block.
fn note_block(found: &mut [u32; 512], bools: Bools<'_>, from: usize, end: usize) -> usize
    requires block { IsBlock bools from end }
    requires some { from < end }
    ensures { AreNoted bools.entry from end found.new result }
{
    if bools.run.step == 1 {
        return note_adjacent(found, bools, from, end);
    }
    note_true(found, 0, bools, from, end)
}

/// Adds the ranks of the true bools, block by block.
fn push_true(
    ranks: &mut Vec<u32>,
    found: &mut [u32; 512],
    bools: Bools<'_>,
) -> Result<(), AllocError>
    requires { LieInBytes bools }
    ensures { let more = true_ranks bools.entry.rank (bools_in bools.entry) in
        OnOk result (ranks.new.items ≡ ranks.old.items ++ more) }
{
    let mut from = 0;
    while from < bools.run.count {
        let end = bools.run.count.min(from + 512);
        let many = note_block(found, bools, from, end);
        ranks.extend_from_slice(&found[..many])?;
        from = end;
    }
    Ok(())
}

/// The ranks at which a mask is true, read in place, in a list that has room for so many from the start.
fn ranks_in(alloc: Global, mask: Items<'_>, room: usize) -> Result<Vec<u32>, AllocError>
    requires kind { kind_in mask ≡ Mask }
    ensures { IfOk result (λ v. v.items ≡ true_ranks 0 (numbers_in mask.entry)) }
{
    let _items = mask.layout.shape.items();
    let bytes = mask.block.bytes();
    let mut ranks = Vec::with_capacity(alloc, room)?;
    let mut found = [0; 512];
    let mut rank = 0;
    for run in Runs::new(mask.layout) {
        push_true(&mut ranks, &mut found, Bools { bytes, run, rank })?;
        rank += run.count;
    }
    Ok(ranks)
}

/// How many items of a mask are true, counted in place.
fn count_in(mask: Items<'_>) -> usize
    requires kind { kind_in mask ≡ Mask }
    ensures { result ≡ true_count (numbers_in mask.entry) }
{
    let _items = mask.layout.shape.items();
    let bytes = mask.block.bytes();
    let mut many = 0;
    for run in Runs::new(mask.layout) {
        many += count_run(Bools {
            bytes,
            run,
            rank: 0,
        });
    }
    many
}

/// A copy of a mask that is not a single run, if there is memory for it: true bools are found faster
/// among adjacent ones.
fn copied(alloc: Global, mask: Items<'_>) -> Option<Owned>
    ensures descr { IfSome result (λ o. o.descr ≡ mask.entry.descr.now) }
    ensures shape { IfSome result (λ o. o.layout.shape ≡ mask.entry.layout.now.shape) }
    ensures items { IfSome result (λ o. owned_items o ≡ items mask.entry) }
{
    if mask.layout.as_run().is_some() {
        return None;
    }
    copy(alloc, mask.block, mask.layout, mask.descr, MemoryOrder::C).ok()
}

/// How many items of a mask are true.
pub(crate) fn count_true(alloc: Global, mask: Items<'_>) -> usize
    requires kind { kind_in mask ≡ Mask }
    ensures { result ≡ length (true_ranks 0 (numbers_in mask.entry)) }
{
    match copied(alloc, mask) {
        Some(copied) => count_in(copied.items()),
        None => count_in(mask),
    }
}

/// The ranks at which a mask is true, in a list that has room for so many from the start.
pub(crate) fn true_ranks(
    alloc: Global,
    mask: Items<'_>,
    room: usize,
) -> Result<Vec<u32>, AllocError>
    requires kind { kind_in mask ≡ Mask }
    ensures { IfOk result (λ v. v.items ≡ true_ranks 0 (numbers_in mask.entry)) }
{
    match copied(alloc, mask) {
        Some(copied) => ranks_in(alloc, copied.items(), room),
        None => ranks_in(alloc, mask, room),
    }
}
