//! Which axes a list of numbers names.
ghost use Rattle.std.specs.Prelude.{IfOk, IsTrue, Some, length, map, option_copied, true, ℕ, ◌-◌, ◌<◌, ◌^◌, ◌≡◌, ◌≤◌};
ghost use Rattle.view_ops.specs.Clauses.{list_all, range_with_len, from_front, is_place, are_distinct, axes_of, Gives};

use crate::slice::{from_front, is_place};
use elem_descr::Refusal;
use smallvec::SmallVec;
use std::alloc::{AllocError, Global};

fn are_in_range(rank: usize, named: &[i128]) -> bool
    ensures { result ≡ list_all (is_place rank) named.now }
{
    named.iter().all(|axis| is_place(rank, *axis))
}

fn are_distinct(axes: &[usize]) -> bool
    ensures { result ≡ are_distinct axes.now }
{
    for (k, axis) in axes.iter().enumerate() {
        if axes[k + 1..].contains(axis) {
            return false;
        }
    }
    true
}

/// The axes from the last to the first.
fn reversed_axes(alloc: Global, rank: usize) -> Result<SmallVec<usize, 4>, AllocError>
    ensures { IfOk result (λ v. v.items ≡ map (λ k. rank - 1 - k) (range_with_len 0 rank)) }
{
    let mut axes = SmallVec::new(alloc);
    for k in 0..rank {
        axes.push(rank - 1 - k)?;
    }
    Ok(axes)
}

/// The named axes, counted from the front.
fn named_axes(alloc: Global, rank: usize, named: &[i128]) -> Result<SmallVec<usize, 4>, Refusal>
    ensures { Gives (λ v. v.items) result (axes_of rank (Some named.now)) }
{
    if named.len() != rank {
        return Err(Refusal::BadAxis);
    }
    if !are_in_range(rank, named) {
        return Err(Refusal::BadAxis);
    }
    let mut axes = SmallVec::new(alloc);
    for axis in named {
        axes.push(from_front(rank, *axis) as usize)?;
    }
    if !are_distinct(axes.as_slice()) {
        return Err(Refusal::BadAxis);
    }
    Ok(axes)
}

/// The axes in the order of a transpose.
pub(crate) fn axes_of(
    alloc: Global,
    rank: usize,
    named: Option<&[i128]>,
) -> Result<SmallVec<usize, 4>, Refusal>
    ensures { Gives (λ v. v.items) result (axes_of rank (option_copied named.entry)) }
{
    match named {
        None => Ok(reversed_axes(alloc, rank)?),
        Some(named) => named_axes(alloc, rank, named),
    }
}
