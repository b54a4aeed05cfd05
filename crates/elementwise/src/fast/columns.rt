//! Items that are stored by columns: combined column by column, or copied into C order first.
ghost use Rattle.std.specs.Prelude.{IfOk, IfSome, ◌≡◌};
ghost use Rattle.elementwise.specs.Clauses.{items, held_descr, held_items, held_shape};
ghost use Rattle.elementwise.specs.inside.Made.{IsTurned};
ghost use Rattle.elementwise.specs.inside.Operands.{AreMatched, IsPaired};

use crate::held::Held;
use crate::loops::row_pairs::Operands;
use crate::pairing::{Pairing, made_by_rows};
use crate::tuning::{ADJACENT, FEW_ITEMS};
use arrays::{Items, Owned, copy, gather, goes_by_columns};
use elem_descr::{Descr, MemoryOrder};
use raw_block::BlockBuilder;
use shape_strides::{Layout, Rows};
use std::alloc::{AllocError, Global};

impl<'a> Held<'a> {
    /// The items in place or, if there are many and they are stored by columns, a copy in C order,
    /// so that a single loop reads them all. Without memory for the copy, they stay in place.
    pub(crate) fn near(alloc: Global, from: Items<'a>) -> Held<'a>
        ensures descr { held_descr result ≡ from.entry.descr.now }
        ensures shape { held_shape result ≡ from.entry.layout.now.shape }
        ensures items { held_items result ≡ items from.entry }
    {
        if from.layout.shape.items() < FEW_ITEMS || !goes_by_columns(from.layout) {
            return Held::Kept(from);
        }
        match copy(alloc, from.block, from.layout, from.descr, MemoryOrder::C) {
            Ok(copied) => Held::Made(copied),
            Err(_) => Held::Kept(from),
        }
    }
}

/// The distance between the items of a row.
fn step(layout: &Layout) -> usize {
    let Rows { starts: _, along } = layout.rows();
    along.stride.unsigned_abs().max(ADJACENT)
}

/// Both layouts with their axes reversed, if that brings successive items closer together and
/// leaves no short rows.
fn columns(
    alloc: Global,
    left: &Layout,
    right: &Layout,
) -> Result<Option<(Layout, Layout)>, AllocError>
    ensures { IfOk result (λ columns. IfSome columns (λ c. IsTurned c.0 left.now
        × IsTurned c.1 right.now)) }
{
    let first = Layout::reversed(alloc, left)?;
    let second = Layout::reversed(alloc, right)?;
    let across = step(left).saturating_add(step(right));
    if across <= step(&first).saturating_add(step(&second))
        || goes_by_columns(&first)
        || goes_by_columns(&second)
    {
        return Ok(None);
    }
    Ok(Some((first, second)))
}

/// Combines many pairs: column by column if both operands are stored so, and otherwise row by row,
/// after an operand that is stored by columns is copied into C order. Its frame is large, so it is
/// not inlined.
#[inline(never)]
fn made_of_many(
    alloc: Global,
    pairing: &Pairing,
    operands: Operands<'_, '_>,
) -> Result<Owned, AllocError>
    requires { AreMatched pairing.now operands }
    ensures { IfOk result (IsPaired pairing.now operands.entry) }
{
    let Operands { left, right } = operands;
    let shape = &left.layout.shape;
    let Some(columns) = columns(alloc, left.layout, right.layout)? else {
        let left = Held::near(alloc, left);
        let right = Held::near(alloc, right);
        let near = Operands {
            left: left.items(),
            right: right.items(),
        };
        return made_by_rows(alloc, pairing, near);
    };
    let turned = Operands {
        left: Items {
            block: left.block,
            layout: &columns.0,
            descr: left.descr,
        },
        right: Items {
            block: right.block,
            layout: &columns.1,
            descr: right.descr,
        },
    };
    let scalar = pairing.target();
    let width = scalar.size();
    let block = BlockBuilder::try_new(alloc, shape.items() * width)?;
    let block = pairing.push(block, turned).finish();
    let order = Layout::f_order(alloc, shape, width)?;
    let block = gather(alloc, &block, &order, width)?;
    Owned::over(alloc, Descr::Scalar(scalar), shape, MemoryOrder::C, block)
}

/// Combines all pairs: row by row, or by columns.
pub(crate) fn made(
    alloc: Global,
    pairing: &Pairing,
    operands: Operands<'_, '_>,
) -> Result<Owned, AllocError>
    requires { AreMatched pairing.now operands }
    ensures { IfOk result (IsPaired pairing.now operands.entry) }
{
    if operands.left.layout.shape.items() < FEW_ITEMS || operands.as_row().is_some() {
        return made_by_rows(alloc, pairing, operands);
    }
    made_of_many(alloc, pairing, operands)
}
