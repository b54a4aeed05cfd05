//! The axes that no index array indexes.
ghost use Rattle.std.specs.Prelude.{IfErr, IfOk, OnOk, length, map, ◌++◌, ◌<◌, ◌≡◌, ◌≤◌};
ghost use Rattle.fancy_index.specs.Clauses.{other_axes, ArePicks, OutOfMemory, max_axes, IsRest, rest_picks, shown_part, AtAxis};

use crate::index_parts::IndexPart;
use elem_descr::Refusal;
use shape_strides::{Layout, Shape, Strides};
use smallvec::SmallVec;
use std::alloc::{AllocError, Global};
use view_ops::{AxisPick, with_picks};

fn push_zeros(picks: &mut SmallVec<AxisPick, 4>, axes: &[usize]) -> Result<(), AllocError>
    ensures { OnOk result (picks.new.items ≡ picks.old.items ++ map (λ _. AtAxis 0) axes.now) }
{
    for _ in axes {
        picks.push(AxisPick::At(0))?;
    }
    Ok(())
}

/// What the parts pick from the axes of a layout, with all points at 0.
fn rest_picks(alloc: Global, parts: &[IndexPart<'_>]) -> Result<SmallVec<AxisPick, 4>, AllocError>
    ensures { IfOk result (λ v. v.items ≡ rest_picks parts.now) }
{
    let mut picks = SmallVec::new(alloc);
    for part in parts {
        match part {
            IndexPart::Axis(pick) => picks.push(*pick)?,
            IndexPart::Points(points) => push_zeros(&mut picks, points.axes.as_slice())?,
            IndexPart::Between => {}
        }
    }
    Ok(picks)
}

/// The items of a layout that the parts pick, with all points at 0.
pub(crate) fn rest(
    alloc: Global,
    layout: &Layout,
    parts: &[IndexPart<'_>],
) -> Result<Layout, Refusal>
    requires picks { ArePicks layout.now.shape (rest_picks parts.now) }
    requires few { length (other_axes (map shown_part parts.now)) ≤ max_axes }
    ensures ok { IfOk result (λ rest. IsRest layout.now parts.now rest) }
    ensures err { IfErr result (λ refusal. refusal ≡ OutOfMemory) }
{
    let picks = rest_picks(alloc, parts)?;
    with_picks(alloc, layout, picks.as_slice())
}
