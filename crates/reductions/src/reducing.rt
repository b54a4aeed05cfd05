//! Reductions of the items of an array.
ghost use Rattle.std.specs.Prelude.{◌≡◌, ◌<◌, ◌≤◌, true, None, pos, length, slice_index, slice_index_or, IfOk};
ghost use Rattle.reductions.specs.Clauses.{count, max_items, list_length, IsAxisOf, IsNumber, IsReduction, needs_items, lists_from, HaveItems, depends_on_order, lists_of, AreResults};

use crate::by_reduction::{Reducing, depends_on_order, empty_block, result_scalar};
use crate::lines::Numbers;
use crate::reduced_axis::{list_length, named_axis, number_scalar, shape_after, starts_of};
use arrays::{Items, Owned, copy, goes_by_columns};
use elem_descr::{Descr, MemoryOrder, Red, Refusal};
use machine_numbers::on_number;
use raw_block::RawBlock;
use shape_strides::{Layout, StridedAxis, in_memory_order, lies_in_c_order};
use std::alloc::{AllocError, Global};

/// The axis with this number.
fn axis_at(layout: &Layout, axis: usize) -> StridedAxis
    requires { axis < length layout.now.shape }
    ensures value { result
        ≡ record {
          len = slice_index layout.now.shape axis;
          stride
              = slice_index_or layout.now.strides axis (pos 0);
        } }
    ensures limit { result.len ≤ max_items }
{
    StridedAxis {
        len: layout.shape.as_slice()[axis],
        stride: layout.strides.as_slice()[axis],
    }
}

/// A block with the reductions of the lists that start at these numbers.
fn reduced_from(
    alloc: Global,
    reduction: Red,
    firsts: Numbers<'_>,
    axis: Option<StridedAxis>,
) -> Result<RawBlock, AllocError>
    requires number { IsNumber firsts.scalar.now }
    requires items { HaveItems firsts axis }
    ensures { IfOk result
        (AreResults reduction firsts.entry (lists_from firsts.entry.layout.now axis)) }
{
    let task = Reducing {
        alloc,
        reduction,
        firsts,
        axis,
    };
    on_number(firsts.scalar, task)
}

/// A block with the reduction of all numbers, visited in the order of memory if their order does
/// not matter.
fn reduced_all(alloc: Global, reduction: Red, numbers: Numbers<'_>) -> Result<RawBlock, AllocError>
    requires number { IsNumber numbers.scalar.now }
    requires some { 0 < count numbers.layout.now.shape }
    ensures { IfOk result
        (AreResults reduction numbers.entry (lists_of numbers.entry None)) }
{
    if !depends_on_order(reduction) {
        if let Some(pair) = in_memory_order(alloc, numbers.layout, numbers.layout) {
            let near = Numbers {
                bytes: numbers.bytes,
                layout: &pair.target,
                scalar: numbers.scalar,
            };
            return reduced_from(alloc, reduction, near, None);
        }
    }
    reduced_from(alloc, reduction, numbers, None)
}

/// A block with the reduction of each list.
fn reduced_block(
    alloc: Global,
    items: usize,
    reduction: Red,
    numbers: Numbers<'_>,
    axis: Option<usize>,
) -> Result<RawBlock, AllocError>
    requires number { IsNumber numbers.scalar.now }
    requires axis { IsAxisOf (length numbers.layout.now.shape) axis }
    requires items { items ≡ length (lists_of numbers axis) }
    requires few { items ≤ max_items }
    requires some { needs_items reduction ≡ true
        → list_length numbers.layout.now.shape axis ≡ 0 → items ≡ 0 }
    ensures { IfOk result
        (AreResults reduction numbers.entry (lists_of numbers.entry axis)) }
{
    if list_length(&numbers.layout.shape, axis) == 0 {
        let block = empty_block(alloc, reduction, items)?;
        return Ok(block);
    }
    let Some(axis) = axis else {
        return reduced_all(alloc, reduction, numbers);
    };
    let along = axis_at(numbers.layout, axis);
    let starts = starts_of(alloc, numbers.layout, axis)?;
    let firsts = Numbers {
        bytes: numbers.bytes,
        layout: &starts,
        scalar: numbers.scalar,
    };
    reduced_from(alloc, reduction, firsts, Some(along))
}

/// The result of `reduce`, whatever the order of the items in memory.
fn reduce_items(
    alloc: Global,
    reduction: Red,
    items: Items<'_>,
    axis: Option<i128>,
    keep: bool,
) -> Result<Owned, Refusal>
    ensures { IsReduction reduction items.entry axis keep result }
{
    let scalar = number_scalar(items.descr)?;
    let axis = named_axis(items.layout.shape.rank(), axis)?;
    let shape = shape_after(alloc, reduction, &items.layout.shape, axis, keep)?;
    let numbers = Numbers {
        bytes: items.block.bytes(),
        layout: items.layout,
        scalar: &scalar,
    };
    let out = reduced_block(alloc, shape.items(), reduction, numbers, axis)?;
    let descr = Descr::Scalar(result_scalar(reduction, &scalar));
    let owned = Owned::over(alloc, descr, &shape, MemoryOrder::C, out)?;
    Ok(owned)
}

/// Reduces items along an axis, or all of them if no axis is given, into a block of their own in C
/// order. A negative axis counts from the end. With `keep`, a reduced axis stays in the result with
/// length 1.
/// Refusals, in this order: items that are not numbers (`NotForThisKind`); an axis out of range
/// (`BadAxis`); the least or greatest of no items, or its place (`EmptyReduction`); a result of
/// more than 2^24 items (`TooLarge`).
pub fn reduce(
    alloc: Global,
    reduction: Red,
    items: Items<'_>,
    axis: Option<i128>,
    keep: bool,
) -> Result<Owned, Refusal>
    ensures { IsReduction reduction items.entry axis keep result }
{
    // Where the order does not matter, all items are visited in the order of memory.
    if axis.is_some()
        || items.descr.size() > 8
        || !depends_on_order(reduction) && !lies_in_c_order(items.layout)
        || !goes_by_columns(items.layout)
    {
        return reduce_items(alloc, reduction, items, axis, keep);
    }
    // For the prover alone: the bytes of the result are within the limit of a block.
    let _items = items.layout.shape.items();
    let near = copy(
        alloc,
        items.block,
        items.layout,
        items.descr,
        MemoryOrder::C,
    )?;
    reduce_items(alloc, reduction, near.items(), axis, keep)
}
