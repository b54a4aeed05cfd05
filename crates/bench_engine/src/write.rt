//! `set X[ix] = Z` and `upd X[ix] OP Z`: write to items of an array.
ghost use Rattle.std.specs.Prelude.{◌≡◌, ◌≤◌, ◌*◌, Some, ◌++◌, ◌∷◌, OnErr, OnOk};
ghost use Rattle.bench_engine.specs.Clauses.{list_all, item_size, count, max_bytes, max_items, is_bound, State, Argument, Supplies, argument_items, names_in_argument, new_items, write_outcome, write_reply, Fitted, IsGiven, names_in_index, CarriesOut, KeepsItems, Meets, IsTargetIn, Prepares, WritesIn};

use crate::create::item_of;
use crate::index_list::{named_array, named_target};
use crate::operands::{Given, argument_array, operand_part};
use crate::reply_text::ReplyText;
use crate::update::{Writing, updated};
use elem_descr::{Descr, Name, Refusal};
use elementwise::Items;
use itoa::Buffer;
use name_store::{ArrayRef, Bench, Source, Target};
use script_lang::{Argument, Index, Operation};
use shape_strides::Shape;
use std::alloc::Global;

/// Items, stretched to a shape and cast to an element type. Items of the buffer with this number
/// are not copied if the cast keeps their bytes.
fn fitted(
    alloc: Global,
    items: Items<'_>,
    number: Option<u64>,
    shape: &Shape,
    descr: &Descr,
) -> Result<Source, Refusal>
    requires few { count shape.now * item_size descr.now ≤ max_bytes }
    ensures { Fitted items.entry number shape.now descr.now result }
{
    let wide = broadcasting::stretch_into(alloc, items.layout, shape)?;
    if !elementwise::can_cast(items.descr, descr) {
        return Err(Refusal::NoSuchCast);
    }
    if let Some(number) = number {
        if elementwise::keeps_items(items.block, items.descr, descr) {
            return Ok(Source::Buffer(number, wide));
        }
    }
    let stretched = Items {
        block: items.block,
        layout: &wide,
        descr: items.descr,
    };
    let owned = elementwise::cast(alloc, stretched, descr)?;
    Ok(Source::Block(owned))
}

/// The items to write, one for each index of a shape: those of an operand, stretched to the shape
/// and cast to an element type, or a literal of that type, repeated.
fn source_of(
    alloc: Global,
    given: &Given<'_>,
    shape: &Shape,
    descr: &Descr,
) -> Result<Source, Refusal>
    requires given { (s : State) × (value : Argument) × IsGiven s value given.now }
    requires few { count shape.now * item_size descr.now ≤ max_bytes }
    ensures { (s : State) (value : Argument) → IsGiven s value given.now
        → Meets (Supplies s descr.now (count shape.now)) result
        (argument_items s value descr.now shape.now) }
{
    match given {
        Given::Literal(literal) => Ok(Source::One(item_of(alloc, descr, literal)?)),
        Given::Items(part) => fitted(alloc, part.items(), part.number(), shape, descr),
    }
}

/// Makes `ok set N` or `ok upd N` the reply. It cannot fail for lack of memory.
fn set_count(out: &mut ReplyText, operation: Option<Operation>, count: usize)
    requires { count ≤ max_items }
    ensures { out.new ≡ write_reply operation count }
{
    let mut buffer = Buffer::new();
    let done = match operation {
        None => b"ok set ",
        Some(_) => b"ok upd ",
    };
    out.set(done, buffer.format(count).as_bytes());
}

/// `X[ix]`, where items are written.
#[derive(Clone, Copy)]
pub struct Selection<'a> {
    pub name: &'a Name,
    pub index: &'a Index,
}

/// The new items of a target, and their places: the items of an argument, or the result of an
/// operation on the old items and the argument.
fn new_items(
    alloc: Global,
    array: &ArrayRef<'_>,
    target: Target,
    operation: Option<Operation>,
    given: &Given<'_>,
) -> Result<Writing, Refusal>
    requires { (s : State) × (value : Argument) × IsGiven s value given.now
        × IsTargetIn s array.now target }
    ensures { (s : State) (value : Argument) → IsGiven s value given.now
        → WritesIn s array.now target
        (λ part. new_items s array.now.descr.now part operation value) result }
{
    match operation {
        None => {
            let source = source_of(alloc, given, target.shape(), array.descr)?;
            Ok(Writing { target, source })
        }
        Some(operation) => updated(alloc, array, target, operation, given),
    }
}

/// What `set` or `upd` writes, and where. Unknown names are refused before any memory is allocated.
fn writing_of(
    alloc: Global,
    bench: &Bench,
    selection: Selection<'_>,
    operation: Option<Operation>,
    value: &Argument,
) -> Result<Writing, Refusal>
    ensures { Prepares bench.now.state selection.entry.name.now selection.entry.index.now
        operation value.now result }
{
    let array = named_array(bench, selection.name, Some(selection.index))?;
    let source = argument_array(bench, value)?;
    let target = named_target(alloc, bench, &array, selection.index.as_slice())?;
    if !array.writable {
        return Err(Refusal::ReadOnly);
    }
    // These calls tell the prover how large an item may be, and how many items a shape may have.
    let _size = array.descr.size();
    let _count = target.shape().items();
    match value {
        Argument::Literal(literal) => {
            new_items(alloc, &array, target, operation, &Given::Literal(literal))
        }
        Argument::Operand(operand) => {
            let part = operand_part(alloc, bench, operand, source.unwrap())?;
            new_items(alloc, &array, target, operation, &Given::Items(part))
        }
    }
}

/// `set X[ix] = Z`, or with an operation `upd X[ix] OP Z`.
pub fn set(
    bench: &mut Bench,
    selection: Selection<'_>,
    operation: Option<Operation>,
    value: &Argument,
    out: &mut ReplyText,
) -> Result<(), Refusal>
    ensures answers { CarriesOut
        (list_all (is_bound bench.old.state)
        (selection.entry.name.now ∷ names_in_index selection.entry.index.now
        ++ names_in_argument value.now))
        (λ choice. write_outcome bench.old.state selection.entry.name.now
        selection.entry.index.now operation value.now)
        bench.old.state bench.new.state out.new result }
    ensures patches { OnOk result (KeepsItems selection.entry.name.now selection.entry.index.now
        bench.old bench.new) }
    ensures kept { OnErr result (bench.new.patches ≡ bench.old.patches) }
{
    let writing = writing_of(out.allocator(), bench, selection, operation, value)?;
    let count = bench.write_items(selection.name, writing.target, writing.source)?;
    set_count(out, operation, count);
    Ok(())
}
