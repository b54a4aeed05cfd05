//! Index lists, which may name arrays, and what they select from an array: a view if they name no
//! array, and a copy otherwise.
ghost use Rattle.std.specs.Prelude.{◌≡◌, ◌∷◌, [], true, map, IfOk, option_copied, unwrap_or};
ghost use Rattle.bench_engine.specs.Clauses.{list_all, index_item_of, index_items, is_bound, Shows, is_basic, Array, names_in_item, names_in_index, array_by_items, taken, Meets, IsAimed, IsNamed, Knows};

use arrays::{Items, bytes_of};
use elem_descr::{IndexItem, Name, Refusal};
use fancy_index::plan;
use name_store::{ArrayRef, Bench, Target};
use script_lang::Index;
use std::alloc::{AllocError, Global};

/// Whether the name in an item is bound.
fn is_bound(bench: &Bench, item: &IndexItem<Name>) -> bool
    ensures { result ≡ list_all (is_bound bench.now.state) (names_in_item item.now) }
{
    match item {
        IndexItem::Array(name) => bench.get(name).is_some(),
        _ => true,
    }
}

/// Whether each name in an index list is bound.
fn are_bound(bench: &Bench, index: &[IndexItem<Name>]) -> bool
    ensures { result ≡ list_all (is_bound bench.now.state) (names_in_index index.now) }
{
    index.iter().all(|item| is_bound(bench, item))
}

/// The array of a name. `UnknownName` if this name, or one in the index list after it, is not
/// bound.
pub fn named_array<'a>(
    bench: &'a Bench,
    name: &Name,
    index: Option<&Index>,
) -> Result<ArrayRef<'a>, Refusal>
    ensures { Knows bench.now.state
        (name.now ∷ names_in_index (unwrap_or (option_copied index.entry) []))
        (IsNamed bench.now.state name.now) result }
{
    let array = bench.get(name).ok_or(Refusal::UnknownName)?;
    if let Some(index) = index {
        if !are_bound(bench, index.as_slice()) {
            return Err(Refusal::UnknownName);
        }
    }
    Ok(array)
}

/// An item with the array in place of its name.
fn with_array<'a>(bench: &'a Bench, item: &IndexItem<Name>) -> IndexItem<Items<'a>>
    requires { list_all (is_bound bench.now.state) (names_in_item item.now) ≡ true }
    ensures { index_item_of result ≡ array_by_items bench.now.state item.now }
{
    match *item {
        IndexItem::Array(ref name) => {
            let array = bench.get(name).unwrap();
            IndexItem::Array(Items {
                block: array.block,
                layout: array.layout,
                descr: array.descr,
            })
        }
        IndexItem::Integer(at) => IndexItem::Integer(at),
        IndexItem::Slice { start, stop, step } => IndexItem::Slice { start, stop, step },
        IndexItem::Ellipsis => IndexItem::Ellipsis,
        IndexItem::NewAxis => IndexItem::NewAxis,
    }
}

/// An index list with the arrays in place of their names.
fn with_arrays<'a>(
    alloc: Global,
    bench: &'a Bench,
    index: &[IndexItem<Name>],
) -> Result<Vec<IndexItem<Items<'a>>>, AllocError>
    requires { list_all (is_bound bench.now.state) (names_in_index index.now) ≡ true }
    ensures { IfOk result (λ v.
        index_items v.items ≡ map (array_by_items bench.now.state) index.now) }
{
    let mut items = Vec::new(alloc);
    for item in index {
        items.push(with_array(bench, item))?;
    }
    Ok(items)
}

/// The places that an index list selects from an array. If it names arrays, more than `MAX_BYTES`
/// bytes of items are refused.
pub fn named_target(
    alloc: Global,
    bench: &Bench,
    array: &ArrayRef<'_>,
    index: &[IndexItem<Name>],
) -> Result<Target, Refusal>
    requires bound { list_all (is_bound bench.now.state) (names_in_index index.now) ≡ true }
    ensures { (a : Array) → Shows bench.now.state a array.now
        → Meets (IsAimed array.now (list_all is_basic index.now)) result
        (taken bench.now.state a index.now) }
{
    if view_ops::are_basic(index) {
        return Ok(Target::View(view_ops::basic(alloc, array.layout, index)?));
    }
    let items = with_arrays(alloc, bench, index)?;
    let plan = plan(alloc, array.layout, items.as_slice())?;
    bytes_of(plan.len(), array.descr)?;
    Ok(Target::Plan(plan))
}
