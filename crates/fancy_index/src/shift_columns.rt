//! For each position of the broadcast index arrays, the offset of the first selected item.
ghost use Rattle.std.specs.Prelude.{All, IfOk, OnOk, get_or, length, map, pos, true, ℕ, ◌+◌, ◌<◌, ◌≡◌, ◌≤◌};
ghost use Rattle.fancy_index.specs.Clauses.{IsShape, address, can_stretch, count, indexes, max_bytes, offsets, IsWithin, IsMoved, AreParts, IsReady, LeadInto, all_named, first_offset, is_named, AllCanGrow, AreSoMany, CanGrowAlong, IsOrigin, BeginAt, BeginsAt, CanAdd, CanGrow, HaveAdded, HaveAllGrown, HaveGrown, HaveGrownFrom, number_along, number_through, point_number, start_of, starts, stretched_ranks, strides_along};

use crate::along_axes::along;
use crate::index_parts::IndexPart;
use crate::rank_offsets::to_offsets;
use broadcasting::stretched_to;
use elem_descr::Refusal;
use shape_strides::{Layout, Run, Runs, Shape, Strides};
use std::alloc::{AllocError, Global};
use view_ops::AxisPick;

/// A layout, the offset of its first item with all points at 0, and the common lengths of the points.
#[derive(Clone, Copy)]
pub(crate) struct Origin<'a> {
    pub layout: &'a Layout,
    pub start: usize,
    pub lengths: &'a [usize],
}

/// How many axes a part takes.
fn axes_of(part: &IndexPart<'_>) -> usize
    ensures { result ≡ length (start_of part.now) }
{
    match part {
        IndexPart::Points(points) => points.axes.len(),
        IndexPart::Axis(AxisPick::New) | IndexPart::Between => 0,
        _ => 1,
    }
}

/// Adds to each shift the distance from the start of a part's point, if the part has points. Their
/// ranks are read now and replaced by offsets, and freed at the end. A number that is out of range
/// is refused.
fn add_part(
    alloc: Global,
    origin: Origin<'_>,
    axis: usize,
    part: &mut IndexPart<'_>,
    shifts: &mut Vec<u32>,
) -> Result<(), Refusal>
    requires origin { IsOrigin origin }
    requires ready { IsReady origin.lengths.now part.old }
    requires begins { BeginsAt origin.layout.now axis origin.start part.old }
    requires many { AreSoMany (count origin.lengths.now) shifts.old.items }
    requires can { CanAdd origin axis part.old shifts.old.items }
    ensures ok { OnOk result
        (HaveAdded origin.entry axis part.old shifts.old.items shifts.new.items) }
    ensures within { IsWithin (is_named part.old) result }
{
    match part {
        IndexPart::Points(points) => {
            let axes = points.axes.as_slice();
            let along = along(alloc, origin.layout, axis, axes, origin.start)?;
            let mut offsets = points.ranks.take(alloc)?;
            to_offsets(&along, offsets.as_mut_slice());
            add_points(alloc, origin, points.lengths.as_slice(), offsets, shifts)?;
        }
        _ => {}
    }
    Ok(())
}

/// The offset of the first item with the points at each index of the common lengths, or the refusal
/// of a number. The ranks of only one part are stored at a time.
pub(crate) fn shifts(
    alloc: Global,
    origin: Origin<'_>,
    parts: &mut [IndexPart<'_>],
    many: usize,
) -> Result<Vec<u32>, Refusal>
    requires origin { IsOrigin origin }
    requires start { pos origin.start ≡ address origin.layout.now (starts parts.old) }
    requires are { AreParts origin.layout.now.shape parts.old }
    requires ready { All (IsReady origin.lengths.now) parts.old }
    requires leads { LeadInto origin.layout.now origin.lengths.now parts.old }
    requires many { many ≡ count origin.lengths.now }
    ensures ok { let first = first_offset origin.entry.layout.now parts.old in
        IfOk result (λ v. v.items ≡ map first (indexes origin.entry.lengths.now)) }
    ensures within { IsWithin (all_named parts.old) result }
{
    let _lengths = origin.layout.shape.as_slice();
    let mut shifts = Vec::new(alloc);
    let mut axis = 0;
    for part in parts.iter_mut() {
        let axes = axes_of(part);
        add_part(alloc, origin, axis, part, &mut shifts)?;
        axis += axes;
    }
    begin(alloc, &mut shifts, origin.start as u32, many)?;
    Ok(shifts)
}

/// Adds to each shift the distance of its offset from the start.
fn grow(shifts: &mut [u32], start: u32, offsets: &[u32])
    requires start { start ≤ max_bytes }
    requires many { length offsets.now ≡ length shifts.old }
    requires can { AllCanGrow start (λ k. get_or offsets.now k 0) shifts.old }
    ensures { HaveAllGrown start (λ k. get_or offsets.now k 0) shifts.old shifts.new }
{
    for k in 0..shifts.len() {
        shifts[k] = shifts[k] + offsets[k] - start;
    }
}

/// Adds each point's displacement to `places.count` consecutive shifts, from index `at` on.
#[inline(always)]
fn grow_each(shifts: &mut [u32], at: usize, start: u32, offsets: &[u32], places: Run)
    requires { CanGrowAlong at start offsets.now places shifts.old }
    ensures { let to = at + places.count in
        HaveGrownFrom at start (number_along offsets.now places at) shifts.old shifts.new to }
{
    for k in 0..places.count {
        let offset = offsets[places.offset_after(k)];
        shifts[at + k] = shifts[at + k] + offset - start;
    }
}

/// Adds the distance of one offset from the start to `count` shifts, starting with one of them.
fn grow_equally(shifts: &mut [u32], at: usize, start: u32, offset: u32, count: usize)
    requires start { start ≤ max_bytes }
    requires many { at + count ≤ length shifts.old }
    requires can { (k : ℕ) → at ≤ k → k < at + count
        → IsMoved start (get_or shifts.old k 0) offset }
    ensures { HaveGrownFrom at start (λ _. offset) shifts.old shifts.new (at + count) }
{
    for k in 0..count {
        shifts[at + k] = shifts[at + k] + offset - start;
    }
}

/// The same, with separate loops for adjacent places and for a single place.
fn grow_run(shifts: &mut [u32], at: usize, start: u32, offsets: &[u32], places: Run)
    requires { CanGrowAlong at start offsets.now places shifts.old }
    ensures { let to = at + places.count in
        HaveGrownFrom at start (number_along offsets.now places at) shifts.old shifts.new to }
{
    match places.step {
        0 if places.count > 0 => {
            grow_equally(shifts, at, start, offsets[places.offset], places.count);
        }
        1 => grow_each(shifts, at, start, offsets, Run { step: 1, ..places }),
        _ => grow_each(shifts, at, start, offsets, places),
    }
}

/// Adds each point's displacement to all shifts. The places are the offsets of a layout.
fn grow_along(shifts: &mut [u32], start: u32, numbers: &[u32], places: &Layout)
    requires start { start ≤ max_bytes }
    requires many { length (offsets places.now) ≡ length shifts.old }
    requires places { All (λ place. place < length numbers.now) (offsets places.now) }
    requires can { AllCanGrow start (number_through numbers.now places.now) shifts.old }
    ensures { HaveAllGrown start (number_through numbers.now places.now) shifts.old shifts.new }
{
    let _items = places.shape.items();
    let mut at = 0;
    for run in Runs::new(places) {
        grow_run(shifts, at, start, numbers, run);
        at += run.count;
    }
}

/// The places of a shape's items in the shape that it is stretched to, in C order.
fn stretched_places(
    alloc: Global,
    lengths: &[usize],
    target: &[usize],
) -> Result<Layout, AllocError>
    requires own { IsShape lengths.now }
    requires shape { IsShape target.now }
    requires can { can_stretch lengths.now target.now ≡ true }
    ensures shape { IfOk result (λ l. l.shape ≡ target.now) }
    ensures places { IfOk result (λ l. offsets l ≡ stretched_ranks lengths.now target.now) }
{
    let own = Shape::from_lengths(alloc, lengths)?;
    let shape = Shape::from_lengths(alloc, target)?;
    let places = Layout::c_order(alloc, &own, 1)?;
    stretched_to(alloc, &places, &shape)
}

/// Makes `many` shifts, all at the start, if there are none so far.
fn begin(alloc: Global, shifts: &mut Vec<u32>, start: u32, many: usize) -> Result<(), AllocError>
    requires { AreSoMany many shifts.old.items }
    ensures many { OnOk result (length shifts.new.items ≡ many) }
    ensures each { OnOk result ((k : ℕ) → k < many
        → get_or shifts.new.items k start ≡ get_or shifts.old.items k start) }
{
    if shifts.is_empty() {
        *shifts = vec![in alloc; start; many]?;
    }
    Ok(())
}

/// Adds to each shift the distance of its point's offset from the start; the points have a shape of
/// their own. If there are no shifts so far, the offsets become the shifts, if there is one for each.
fn add_points(
    alloc: Global,
    origin: Origin<'_>,
    own: &[usize],
    offsets: Vec<u32>,
    shifts: &mut Vec<u32>,
) -> Result<(), AllocError>
    requires origin { IsOrigin origin }
    requires points { length offsets.items ≡ count own.now }
    requires fit { can_stretch own.now origin.lengths.now ≡ true }
    requires many { AreSoMany (count origin.lengths.now) shifts.old.items }
    requires can { let number = point_number origin.lengths.now own.now offsets.items in
        CanGrow origin.start (count origin.lengths.now) number shifts.old.items }
    ensures { let lengths = origin.entry.lengths.now in
        let number = point_number lengths own.now offsets.items in
        let old = shifts.old.items in
        OnOk result (HaveGrown origin.entry.start (count lengths) number old shifts.new.items) }
{
    let start = origin.start as u32;
    if own == origin.lengths {
        if shifts.is_empty() {
            *shifts = offsets;
        } else {
            grow(shifts.as_mut_slice(), start, offsets.as_slice());
        }
        return Ok(());
    }
    let places = stretched_places(alloc, own, origin.lengths)?;
    begin(alloc, shifts, start, places.shape.items())?;
    grow_along(shifts.as_mut_slice(), start, offsets.as_slice(), &places);
    Ok(())
}
