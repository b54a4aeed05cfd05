//! Points on some axes: the points of an integer, of an array of integers and of a mask.
ghost use Rattle.std.specs.Prelude.{All, IfErr, IfOk, [], length, true, ◌∷◌, ◌≡◌, ◌≢◌, ◌≤◌};
ghost use Rattle.fancy_index.specs.Clauses.{covers, is_within, item_axes, parts_of, is_place, max_items, Integers, Mask, NoIndex, IsOutside, IsWithin, array_item, kind_in, numbers_in, IsPart, are_named, place_of, ranks_of, true_ranks};

use crate::index_arrays::{BoolMask, Named};
use crate::kinds::{Kind, kind_of};
use crate::masks::{count_true, true_ranks};
use crate::positions::places;
use crate::tuning::FIRST_RANKS;
use arrays::Items;
use elem_descr::Refusal;
use smallvec::SmallVec;
use std::alloc::{AllocError, Global};
use std::mem;
use view_ops::{from_front, is_place};

/// The ranks of points: those that an array of integers names, or those at which a mask is true. These
/// arrays are read when the ranks are needed, so that those of one array are stored at a time. The rank
/// of an integer, and those of a mask that is the one array of its list, are held from the start.
#[derive(Drop)]
pub(crate) enum Ranks<'a> {
    Named(Named<'a>),
    Masked(BoolMask<'a>),
    Held(Vec<u32>),
}

/// The positions that one index array selects: its shape, and a rank for each.
#[derive(Drop)]
pub(crate) struct PointList<'a> {
    pub lengths: SmallVec<usize, 4>,
    pub axes: SmallVec<usize, 4>,
    pub ranks: Ranks<'a>,
}

impl Ranks<'_> {
    /// The ranks, which are no longer held, or the refusal of a number that is out of range.
    pub(crate) fn take(&mut self, alloc: Global) -> Result<Vec<u32>, Refusal>
        ensures within { IsWithin (are_named self.old) result }
        ensures ranks { IfOk result (λ v. v.items ≡ ranks_of self.old) }
    {
        match self {
            Ranks::Named(named) => places(alloc, *named),
            Ranks::Masked(mask) => Ok(true_ranks(alloc, mask.array, mask.many)?),
            Ranks::Held(ranks) => Ok(mem::replace(ranks, Vec::new(alloc))),
        }
    }
}

impl<'a> PointList<'a> {
    /// It is inlined, since a move of the points costs more.
    #[inline(always)]
    fn try_new(
        alloc: Global,
        lengths: &[usize],
        axes: &[usize],
        ranks: Ranks<'a>,
    ) -> Result<PointList<'a>, AllocError>
        ensures lengths { IfOk result (λ p. p.lengths.items ≡ lengths.now) }
        ensures axes { IfOk result (λ p. p.axes.items ≡ axes.now) }
        ensures ranks { IfOk result (λ p. p.ranks ≡ ranks.entry) }
    {
        let lengths = SmallVec::from_slice(alloc, lengths)?;
        let axes = SmallVec::from_slice(alloc, axes)?;
        Ok(PointList {
            lengths,
            axes,
            ranks,
        })
    }
}

/// The single point of an integer, or its refusal.
pub(crate) fn integer_point(
    alloc: Global,
    n: usize,
    at: i128,
) -> Result<PointList<'static>, Refusal>
    requires { n ≤ max_items }
    ensures within { IsWithin (is_place n at) result }
    ensures lengths { IfOk result (λ p. p.lengths.items ≡ []) }
    ensures axes { IfOk result (λ p. p.axes.items ≡ n ∷ []) }
    ensures named { IfOk result (λ p. are_named p.ranks ≡ true) }
    ensures ranks { IfOk result (λ p. ranks_of p.ranks ≡ place_of n at ∷ []) }
{
    if !is_place(n, at) {
        return Err(Refusal::IndexOutOfRange);
    }
    let mut ranks = Vec::new(alloc);
    ranks.push(from_front(n, at) as u32)?;
    Ok(PointList::try_new(alloc, &[], &[n], Ranks::Held(ranks))?)
}

/// The ranks at which a mask is true, and how many there are. Those of the one array of a list are
/// read at once, others are counted first.
fn mask_ranks<'a>(
    alloc: Global,
    array: Items<'a>,
    is_alone: bool,
) -> Result<(Ranks<'a>, usize), AllocError>
    requires kind { kind_in array ≡ Mask }
    ensures ranks { IfOk result (λ r. ranks_of r.0 ≡ true_ranks 0 (numbers_in array.entry)) }
    ensures named { IfOk result (λ r. are_named r.0 ≡ true) }
    ensures many { IfOk result (λ r. r.1 ≡ length (ranks_of r.0)) }
{
    if !is_alone {
        let many = count_true(alloc, array);
        return Ok((Ranks::Masked(BoolMask { array, many }), many));
    }
    let room = array.layout.shape.items().min(FIRST_RANKS);
    let ranks = true_ranks(alloc, array, room)?;
    let many = ranks.len();
    Ok((Ranks::Held(ranks), many))
}

/// The points of an array on the axes that it takes, or the refusal of a number. An array of integers
/// is not read yet, but if its axis is empty, any number is refused.
pub(crate) fn array_points<'a>(
    alloc: Global,
    axes: &[usize],
    array: Items<'a>,
    is_alone: bool,
) -> Result<PointList<'a>, Refusal>
    requires small { All (λ n. n ≤ max_items) axes.now }
    requires kind { kind_in array ≢ NoIndex }
    requires axes { length axes.now ≡ item_axes (array_item array) }
    requires covers { covers axes.now (array_item array) ≡ true }
    ensures part { let item = array_item array.entry in
        IfOk result (λ p. IsPart axes.now (is_within axes.now item) p (parts_of axes.now item)) }
    ensures err { IfErr result (IsOutside (is_within axes.now (array_item array.entry))) }
{
    match kind_of(array) {
        Kind::Mask => {
            let (ranks, many) = mask_ranks(alloc, array, is_alone)?;
            Ok(PointList::try_new(alloc, &[many], axes, ranks)?)
        }
        Kind::Integers => {
            let n = axes[0];
            if n == 0 && array.layout.shape.items() > 0 {
                return Err(Refusal::IndexOutOfRange);
            }
            let lengths = array.layout.shape.as_slice();
            let ranks = Ranks::Named(Named { array, n });
            Ok(PointList::try_new(alloc, lengths, axes, ranks)?)
        }
        Kind::NoIndex => unreachable!(),
    }
}
