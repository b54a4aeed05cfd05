//! What the items of a basic index select from the axes, and the view of it.
ghost use Rattle.std.specs.Prelude.{IfOk, IsTrue, OnOk, [], count_by, drop, false, length, map, pos, slice_index_or, true, ℕ, ◌++◌, ◌+◌, ◌-◌, ◌<◌, ◌∷◌, ◌≡◌, ◌≤◌};
ghost use Rattle.view_ops.specs.Clauses.{flat_map, list_all, are_on_axes, axes_taken, axis_of, has_step, is_on_axis, picked_shape, picked_view, picks, picks_of, shape_picked, takes_axis, whole, width, ArePicks, first_of, pick_shown, GivesView, KeepsNested, Gives, Integer, NewAxis, is_basic, max_axes, AddsPicks, HaveSmallSteps, IsSmallPick, IsSmallStep, axes_of_pick, picked_strides, run_stride, stride_of};

use crate::slice::{Progression, from_front, is_place, slice_of};
use elem_descr::{IndexItem, Refusal};
use shape_strides::{Layout, Shape, Strides};
use smallvec::SmallVec;
use std::alloc::{AllocError, Global};

/// What is picked from an axis: one number, the numbers of a run, or a new axis.
#[derive(Clone, Copy, Debug, PartialEq, Eq, Default)]
pub enum AxisPick {
    At(usize),
    Along(Progression),
    #[default]
    New,
}

fn takes_axis<A>(item: &IndexItem<A>) -> bool
    ensures { result ≡ takes_axis item.now }
{
    !matches!(item, IndexItem::Ellipsis | IndexItem::NewAxis)
}

/// The number of axes that the items take, not counting those that `...` takes.
pub(crate) fn taken<A>(items: &[IndexItem<A>]) -> usize
    ensures { result ≡ axes_taken items.now }
{
    items.iter().filter(|item| takes_axis(*item)).count()
}

/// The axis after those that the item at place k takes, from `axis` on.
pub(crate) fn axes_end<A>(rank: usize, axis: usize, items: &[IndexItem<A>], k: usize) -> usize
    requires item { k < length items.now }
    requires axis { axis ≤ rank }
    requires enough { axes_taken (drop k items.now) ≤ rank - axis }
    ensures value { result
        ≡ axis + width axes_taken (rank - axis) (slice_index_or items.now k (Integer (pos 0)))
        (drop (k + 1) items.now) }
    ensures from { axis ≤ result }
    ensures within { result ≤ rank }
    ensures enough { axes_taken (drop (k + 1) items.now) ≤ rank - result }
{
    match items[k] {
        IndexItem::Ellipsis => rank - taken(&items[k + 1..]),
        IndexItem::NewAxis => axis,
        _ => axis + 1,
    }
}

fn is_in_range<A>(axes: &[usize], item: &IndexItem<A>) -> bool
    ensures { result ≡ is_on_axis axes.now item.now }
{
    match (item, axes) {
        (IndexItem::Integer(at), [n, ..]) => is_place(*n, *at),
        _ => true,
    }
}

/// Whether each integer is within its axis.
pub(crate) fn are_in_range<A>(lengths: &[usize], items: &[IndexItem<A>]) -> bool
    requires { axes_taken items.now ≤ length lengths.now }
    ensures { result ≡ are_on_axes lengths.now items.now }
{
    let mut axis = 0;
    for k in 0..items.len() {
        let end = axes_end(lengths.len(), axis, items, k);
        if !is_in_range(&lengths[axis..end], &items[k]) {
            return false;
        }
        axis = end;
    }
    true
}

/// What an integer or a slice picks from its axis.
pub fn pick_of<A>(n: usize, item: &IndexItem<A>) -> AxisPick
    requires axis { takes_axis item.now ≡ true }
    requires basic { is_basic item.now ≡ true }
    requires step { has_step item.now ≡ true }
    requires in_range { is_on_axis (n ∷ []) item.now ≡ true }
    ensures within { ArePicks (n ∷ []) (result ∷ []) }
    ensures shown { picks_of (n ∷ []) item.now ≡ pick_shown result ∷ [] }
{
    match item {
        IndexItem::Integer(at) => AxisPick::At(from_front(n, *at) as usize),
        IndexItem::Slice { start, stop, step } => {
            AxisPick::Along(slice_of(n, *start, *stop, *step).unwrap())
        }
        _ => unreachable!(),
    }
}

/// All numbers of an axis.
pub fn whole_axis(n: usize) -> AxisPick
    ensures within { ArePicks (n ∷ []) (result ∷ []) }
    ensures whole { pick_shown result ≡ whole n }
{
    AxisPick::Along(Progression {
        first: 0,
        step: 1,
        count: n,
    })
}

fn push_whole(picks: &mut SmallVec<AxisPick, 4>, axes: &[usize]) -> Result<(), AllocError>
    ensures { OnOk result
        (AddsPicks picks.old.items picks.new.items axes.now (map whole axes.now)) }
{
    for n in axes {
        picks.push(whole_axis(*n))?;
    }
    Ok(())
}

fn push_picks<A>(
    picks: &mut SmallVec<AxisPick, 4>,
    axes: &[usize],
    item: &IndexItem<A>,
) -> Result<(), AllocError>
    requires axis { takes_axis item.now ≡ true → length axes.now ≡ 1 }
    requires none { item.now ≡ NewAxis → axes.now ≡ [] }
    requires basic { is_basic item.now ≡ true }
    requires step { has_step item.now ≡ true }
    requires in_range { is_on_axis axes.now item.now ≡ true }
    ensures { OnOk result
        (AddsPicks picks.old.items picks.new.items axes.now (picks_of axes.now item.now)) }
{
    match item {
        IndexItem::Ellipsis => push_whole(picks, axes),
        IndexItem::NewAxis => Ok(picks.push(AxisPick::New)?),
        _ => Ok(picks.push(pick_of(axes[0], item))?),
    }
}

/// Makes a list what the items pick from the axes of a shape.
pub(crate) fn set_picks<A>(
    made: &mut SmallVec<AxisPick, 4>,
    lengths: &[usize],
    items: &[IndexItem<A>],
) -> Result<(), AllocError>
    requires taken { axes_taken items.now ≤ length lengths.now }
    requires basic { list_all is_basic items.now ≡ true }
    requires steps { list_all has_step items.now ≡ true }
    requires in_range { are_on_axes lengths.now items.now ≡ true }
    ensures are { OnOk result (ArePicks lengths.now made.new.items) }
    ensures shown { OnOk result (map pick_shown made.new.items ≡ picks lengths.now items.now) }
{
    made.clear();
    let mut axis = 0;
    for k in 0..items.len() {
        let end = axes_end(lengths.len(), axis, items, k);
        push_picks(made, &lengths[axis..end], &items[k])?;
        axis = end;
    }
    push_whole(made, &lengths[axis..])
}

fn push_length(lengths: &mut SmallVec<usize, 4>, pick: AxisPick) -> Result<(), AllocError>
    ensures { OnOk result (lengths.new.items ≡ lengths.old.items ++ axis_of (pick_shown pick)) }
{
    match pick {
        AxisPick::At(_) => Ok(()),
        AxisPick::Along(run) => Ok(lengths.push(run.count)?),
        AxisPick::New => Ok(lengths.push(1)?),
    }
}

/// The lengths of the axes of what is picked.
pub fn picked_lengths(alloc: Global, picks: &[AxisPick]) -> Result<SmallVec<usize, 4>, AllocError>
    ensures { IfOk result (λ v. v.items ≡ picked_shape (map pick_shown picks.now)) }
{
    let mut lengths = SmallVec::new(alloc);
    for pick in picks {
        push_length(&mut lengths, *pick)?;
    }
    Ok(lengths)
}

/// The index of the first item that is picked.
fn first_index(alloc: Global, picks: &[AxisPick]) -> Result<SmallVec<usize, 4>, AllocError>
    ensures { IfOk result (λ v. v.items ≡ flat_map first_of picks.now) }
{
    let mut index = SmallVec::new(alloc);
    for pick in picks {
        match pick {
            AxisPick::At(number) => index.push(*number)?,
            AxisPick::Along(run) => index.push(run.first)?,
            AxisPick::New => {}
        }
    }
    Ok(index)
}

/// How many axes of the array a pick takes.
fn axes_of_pick(pick: AxisPick) -> usize
    ensures { result ≡ axes_of_pick pick }
{
    match pick {
        AxisPick::New => 0,
        _ => 1,
    }
}

/// The stride of a run along an axis; 0 if it has fewer than two numbers.
fn run_stride(strides: &[isize], axis: usize, run: Progression) -> isize
    requires axis { axis < length strides.now }
    requires small { 2 ≤ run.count
        → IsSmallStep (slice_index_or strides.now axis (pos 0)) run.step }
    ensures { result ≡ run_stride (slice_index_or strides.now axis (pos 0)) run }
{
    if run.count < 2 {
        return 0;
    }
    strides[axis] * run.step as isize
}

fn push_stride(
    made: &mut Strides,
    strides: &[isize],
    axis: usize,
    pick: AxisPick,
) -> Result<(), AllocError>
    requires axis { axes_of_pick pick ≡ 1 → axis < length strides.now }
    requires small { IsSmallPick (slice_index_or strides.now axis (pos 0)) pick }
    ensures { OnOk result
        (made.new ≡ made.old ++ stride_of (slice_index_or strides.now axis (pos 0)) pick) }
{
    match pick {
        AxisPick::At(_) => Ok(()),
        AxisPick::Along(run) => made.push(run_stride(strides, axis, run)),
        AxisPick::New => made.push(0),
    }
}

fn picked_strides(
    alloc: Global,
    strides: &[isize],
    picks: &[AxisPick],
) -> Result<Strides, AllocError>
    requires small { HaveSmallSteps strides.now picks.now }
    requires few { length strides.now ≤ max_axes }
    ensures { IfOk result (λ s. s ≡ picked_strides strides.now picks.now) }
{
    let mut made = Strides::new(alloc);
    let mut axis = 0;
    for pick in picks {
        push_stride(&mut made, strides, axis, *pick)?;
        axis += axes_of_pick(*pick);
    }
    Ok(made)
}

/// The shape of what is picked from the axes of another one.
fn shape_picked(alloc: Global, shape: &Shape, picks: &[AxisPick]) -> Result<Shape, Refusal>
    requires { ArePicks shape.now picks.now }
    ensures { Gives (λ s. s) result (shape_picked (map pick_shown picks.now)) }
{
    let _lengths = shape.as_slice();
    let lengths = picked_lengths(alloc, picks)?;
    Shape::try_new(alloc, lengths.as_slice())
}

/// The view of what is picked. A view of more than 64 axes is refused as `TooManyAxes`. A view
/// without items has strides and offset 0, and an axis of fewer than two items has stride 0.
pub fn with_picks(alloc: Global, layout: &Layout, picks: &[AxisPick]) -> Result<Layout, Refusal>
    requires { ArePicks layout.now.shape picks.now }
    ensures view { GivesView layout.now result (picked_view (map pick_shown picks.now)) }
    ensures nested { IfOk result (KeepsNested layout.now) }
{
    let _lengths = layout.shape.as_slice();
    let shape = shape_picked(alloc, &layout.shape, picks)?;
    if shape.items() == 0 {
        return Ok(Layout::c_order(alloc, &shape, 1)?);
    }
    let first = first_index(alloc, picks)?;
    let offset = layout.at(first.as_slice());
    let strides = picked_strides(alloc, layout.strides.as_slice(), picks)?;
    Ok(Layout {
        shape,
        strides,
        offset,
    })
}
