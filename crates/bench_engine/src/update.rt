//! `upd X[ix] OP Z`: the new items, and the places where they are written.
ghost use Rattle.std.specs.Prelude.{◌≡◌, ◌≤◌, ◌*◌, true, map, Ok, IfSome};
ghost use Rattle.bench_engine.specs.Clauses.{IsPermutation, item_from, item_size, can_cast, cast_item, offsets, count, max_bytes, Argument, State, LiteralArgument, View, OperandValues, argument_values, literal_values, operand_values, updated_items, changed_with, updated, IsGiven, Stands, HoldsItems, GoTogether, IsTargetIn, IsTargetOf, Writes, WritesIn, Meets};

use crate::operands::{Given, items_of_view};
use crate::operate::{result_scalar, work, work_literal};
use arrays::Owned;
use elem_descr::{Descr, Refusal};
use elementwise::{Items, keeps_items, same_kind, scalar_of};
use name_store::{ArrayRef, Source, Target};
use script_lang::{Literal, Operation};
use shape_strides::{Layout, LayoutPair, in_memory_order, lies_in_c_order};
use std::alloc::Global;

/// New items, cast to the type of the old ones.
fn as_old(alloc: Global, new: Owned, descr: &Descr) -> Result<Owned, Refusal>
    requires can { can_cast new.descr descr.now ≡ true }
    requires few { count new.layout.shape * item_size descr.now ≤ max_bytes }
    ensures { Meets (HoldsItems descr.now (count new.layout.shape)) result
        (Ok (map (cast_item new.descr descr.now)
        (map (item_from new.descr new.block) (offsets new.layout)))) }
{
    if keeps_items(&new.block, &new.descr, descr) {
        return Ok(new);
    }
    elementwise::cast(alloc, new.items(), descr)
}

/// The result of an operation on the old items and other items, which are stretched to the shape of
/// the old ones, in the type of the old ones.
fn changed_by_items(
    alloc: Global,
    operation: Operation,
    old: Items<'_>,
    items: Items<'_>,
) -> Result<Owned, Refusal>
    requires few { count old.layout.now.shape * item_size old.descr.now ≤ max_bytes }
    ensures { (v w : OperandValues) → Stands v old.entry → Stands w items.entry
        → Meets (HoldsItems old.entry.descr.now (count v.shape)) result
        (updated_items operation old.entry.descr.now v w) }
{
    let scalar = result_scalar(operation, old.descr, items.descr)?;
    same_kind(scalar, scalar_of(old.descr)?)?;
    broadcasting::stretch(alloc, items.layout, &old.layout.shape)?;
    let new = work(alloc, operation, old, items)?;
    as_old(alloc, new, old.descr)
}

/// The result of an operation on items and a literal, in the type of the items.
fn changed_by_literal(
    alloc: Global,
    operation: Operation,
    old: Items<'_>,
    literal: &Literal,
) -> Result<Owned, Refusal>
    requires few { count old.layout.now.shape * item_size old.descr.now ≤ max_bytes }
    ensures { (v : OperandValues) → Stands v old.entry
        → Meets (HoldsItems old.entry.descr.now (count v.shape)) result
        (changed_with operation old.entry.descr.now v
        (literal_values operation old.entry.descr.now literal.now)) }
{
    // This call tells the prover what lengths a shape may have.
    let _lengths = old.layout.shape.as_slice();
    let new = work_literal(alloc, operation, old, literal)?;
    let scalar = scalar_of(&new.descr)?;
    same_kind(scalar, scalar_of(old.descr)?)?;
    as_old(alloc, new, old.descr)
}

/// The result of an operation on items and the value of an argument, in the type of the items.
fn changed(
    alloc: Global,
    operation: Operation,
    old: Items<'_>,
    given: &Given<'_>,
) -> Result<Owned, Refusal>
    requires given { (s : State) × (value : Argument) × IsGiven s value given.now }
    requires few { count old.layout.now.shape * item_size old.descr.now ≤ max_bytes }
    ensures { (s : State) (value : Argument) (v : OperandValues) → IsGiven s value given.now
        → Stands v old.entry
        → Meets (HoldsItems old.entry.descr.now (count v.shape)) result
        (changed_with operation old.entry.descr.now v
        (argument_values s operation old.entry.descr.now value)) }
{
    match given {
        Given::Literal(literal) => changed_by_literal(alloc, operation, old, literal),
        Given::Items(part) => changed_by_items(alloc, operation, old, part.items()),
    }
}

/// Items, and the places where they are written, in the same order.
#[derive(Drop)]
pub struct Writing {
    pub target: Target,
    pub source: Source,
}

/// The view with its axes in memory order.
fn near(alloc: Global, view: Layout) -> Layout
    ensures { IsPermutation (offsets view) (offsets result) }
{
    match in_memory_order(alloc, &view, &view) {
        Some(pair) => pair.target,
        None => view,
    }
}

/// The result of an operation on the items of a view and a literal. They are read, and written, in
/// memory order.
fn view_by_literal(
    alloc: Global,
    array: &ArrayRef<'_>,
    view: Layout,
    operation: Operation,
    literal: &Literal,
) -> Result<Writing, Refusal>
    requires { IsTargetOf array.now (View view) }
    ensures { Writes array.now (View view)
        (λ s part. updated s array.now.descr.now part operation (LiteralArgument literal.now))
        result }
{
    // These calls tell the prover what lengths shapes may have, and how large an item may be.
    let _size = array.descr.size();
    let _before = view.shape.as_slice();
    let moved = near(alloc, view);
    let _after = moved.shape.as_slice();
    let new = changed_by_literal(alloc, operation, items_of_view(array, &moved), literal)?;
    Ok(Writing {
        target: Target::View(moved),
        source: Source::Block(new),
    })
}

/// A view, and items that are stretched to its shape, both in the memory order of the view. `None`
/// if that is C order, if they do not stretch, or if there is no memory.
fn near_both(alloc: Global, view: &Layout, items: &Layout) -> Option<LayoutPair>
    ensures { IfSome result (GoTogether view.now items.now) }
{
    if lies_in_c_order(view) {
        return None;
    }
    match broadcasting::stretch(alloc, items, &view.shape) {
        Ok(wide) => in_memory_order(alloc, view, &wide),
        Err(_) => None,
    }
}

/// The result of an operation on the items of a view and other items, which are stretched to its
/// shape.
fn view_by_items(
    alloc: Global,
    array: &ArrayRef<'_>,
    view: Layout,
    operation: Operation,
    items: Items<'_>,
) -> Result<Writing, Refusal>
    requires { IsTargetOf array.now (View view) }
    ensures { (w : OperandValues) → Stands w items.entry → Writes array.now (View view)
        (λ s part. updated_items operation array.now.descr.now (operand_values s part) w) result }
{
    // These calls tell the prover what lengths shapes may have, and how large an item may be.
    let _size = array.descr.size();
    let _before = view.shape.as_slice();
    if let Some(pair) = near_both(alloc, &view, items.layout) {
        let LayoutPair { target, source } = pair;
        let _after = target.shape.as_slice();
        let beside = Items {
            block: items.block,
            layout: &source,
            descr: items.descr,
        };
        let new = changed_by_items(alloc, operation, items_of_view(array, &target), beside)?;
        return Ok(Writing {
            target: Target::View(target),
            source: Source::Block(new),
        });
    }
    let new = changed_by_items(alloc, operation, items_of_view(array, &view), items)?;
    Ok(Writing {
        target: Target::View(view),
        source: Source::Block(new),
    })
}

/// The result of an operation on the items of a target and an argument, and the places where it is
/// written, in the same order. This order may differ from that of the target.
pub fn updated(
    alloc: Global,
    array: &ArrayRef<'_>,
    target: Target,
    operation: Operation,
    given: &Given<'_>,
) -> Result<Writing, Refusal>
    requires { (s : State) × (value : Argument) × IsGiven s value given.now
        × IsTargetIn s array.now target }
    ensures { (s : State) (value : Argument) → IsGiven s value given.now
        → WritesIn s array.now target (λ part. updated s array.now.descr.now part operation value)
        result }
{
    match target {
        Target::View(view) => match given {
            Given::Literal(literal) => view_by_literal(alloc, array, view, operation, literal),
            Given::Items(part) => view_by_items(alloc, array, view, operation, part.items()),
        },
        Target::Plan(plan) => {
            let old = plan.gather_owned(alloc, array.block, array.descr)?;
            let new = changed(alloc, operation, old.items(), given)?;
            Ok(Writing {
                target: Target::Plan(plan),
                source: Source::Block(new),
            })
        }
    }
}
