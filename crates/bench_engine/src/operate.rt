//! `X = copy Y C`, `cast Y D`, `OP operand Z`, `neg operand`, `RED Y [axis] [keep]`: compute an
//! array, and bind a name to it.
ghost use Rattle.std.specs.Prelude.{◌≡◌, true, ◌∷◌, [], map, IfOk, Some};
ghost use Rattle.bench_engine.specs.Clauses.{list_all, offsets, is_bound, Gives, Answers, item_from, promote, integer_compared_result, compared_item, item_value, literal_number, Boolean, OperandValues, literal_value, literal_scalar, operand_of_literal, compared_literal, literal_values, operation_scalar, operation_on, operation_with, argument_values, compute_outcome, AreSources, IsGiven, Knows, OwnStands, Stands, ScalarDescr};
ghost use Rattle.elem_descr.specs.Values as leaf;
ghost use Rattle.script_lang.specs.declared.command.Operation.TheVariants as operation;
ghost use Rattle.bench_engine.specs.Clauses.{held, IsInCOrder, bound_in_computation, computed_contents, origin_of, CarriesOut, Counts, Meets};

use crate::create::{bind_new, filled, item_of};
use crate::index_list::named_array;
use crate::operands::{argument_array, items_of_view, operand_part};
use crate::replies::Origin;
use crate::reply_text::ReplyText;
use arrays::Owned;
use elem_descr::{BinOp, Comparison, Descr, MemoryOrder, Name, Red, Refusal, Scalar, descr_read};
use elementwise::{
    Items, apply1, apply2, compare, compare_bytes, compare_integer, compared_type, literal_type,
    promote, scalar_of,
};
use name_store::{ArrayRef, Bench};
use script_lang::{Argument, Computation, Literal, Operation, ScalarLiteral};
use shape_strides::Shape;
use std::alloc::Global;

/// The type of the result of an operation on items of two types.
pub fn result_scalar(operation: Operation, left: &Descr, right: &Descr) -> Result<Scalar, Refusal>
    ensures { Answers (λ s. s) result (operation_scalar operation left.now right.now) }
{
    let from = scalar_of(left)?;
    let other = scalar_of(right)?;
    match operation {
        Operation::Binary(op) => promote(op, from, other),
        Operation::Compare(_) => compared_type(from, other),
    }
}

/// The result of an operation on two operands, which are broadcast together.
pub fn work(
    alloc: Global,
    operation: Operation,
    left: Items<'_>,
    right: Items<'_>,
) -> Result<Owned, Refusal>
    ensures gives { (v w : OperandValues) → Stands v left.entry → Stands w right.entry
        → Gives held result (operation_on operation v w) }
    ensures order { IfOk result IsInCOrder }
{
    match operation {
        Operation::Binary(op) => apply2(alloc, op, left, right),
        Operation::Compare(comparison) => compare(alloc, comparison, left, right),
    }
}

/// A literal as an array of one item and no axes.
fn single(alloc: Global, scalar: &Scalar, literal: &Literal) -> Result<Owned, Refusal>
    ensures descr { IfOk result (λ o. o.descr ≡ ScalarDescr scalar.now) }
    ensures shape { IfOk result (λ o. o.layout.shape ≡ []) }
    ensures offsets { IfOk result (λ o. offsets o.layout ≡ 0 ∷ []) }
    ensures item { Gives (λ o. item_from o.descr o.block 0) result
        (item_value (ScalarDescr scalar.now) literal.now) }
{
    let descr = Descr::Scalar(*scalar);
    // This call tells the prover how large an item may be.
    let _size = descr.size();
    let item = item_of(alloc, &descr, literal)?;
    let block = filled(alloc, item.as_slice(), 1)?;
    drop(item);
    let shape = Shape::try_new(alloc, &[])?;
    Ok(Owned::over(alloc, descr, &shape, MemoryOrder::C, block)?)
}

/// The type of a literal next to a scalar operand. Byte strings and records cannot be operands.
fn literal_scalar(beside: &Scalar, literal: &Literal) -> Result<Scalar, Refusal>
    ensures { Answers (λ s. s) result (literal_scalar beside.now literal.now) }
{
    let Literal::Scalar(literal) = literal else {
        return Err(Refusal::NotForThisKind);
    };
    match literal {
        ScalarLiteral::Integer(_) => Ok(literal_type(*beside)),
        ScalarLiteral::Boolean(_) => Ok(Scalar::Bool),
        ScalarLiteral::Bytes(_) => Err(Refusal::NotForThisKind),
    }
}

/// A literal as an array of one item, of the type that an operation gives it next to an element
/// type.
fn worked_literal(
    alloc: Global,
    op: BinOp,
    descr: &Descr,
    literal: &Literal,
) -> Result<Owned, Refusal>
    ensures { Meets OwnStands result (operand_of_literal op descr.now literal.now) }
{
    let beside = scalar_of(descr)?;
    let scalar = literal_scalar(&beside, literal)?;
    promote(op, beside, scalar)?;
    single(alloc, &scalar, literal)
}

/// Compares items with a literal, by value.
fn compare_literal(
    alloc: Global,
    comparison: Comparison,
    left: Items<'_>,
    literal: &Literal,
) -> Result<Owned, Refusal>
    ensures gives { (v : OperandValues) → Stands v left.entry
        → Gives held result
        (operation_with (operation.Compare comparison) v (compared_literal v.descr literal.now)) }
    ensures order { IfOk result IsInCOrder }
{
    let Literal::Scalar(literal) = literal else {
        return Err(Refusal::NotForThisKind);
    };
    // This call tells the prover what lengths a shape may have.
    let _lengths = left.layout.shape.as_slice();
    match literal {
        ScalarLiteral::Integer(value) => compare_integer(alloc, comparison, left, *value),
        ScalarLiteral::Boolean(value) => compare_integer(
            alloc,
            comparison,
            left,
            i128::from(*value),
        ),
        ScalarLiteral::Bytes(bytes) => compare_bytes(alloc, comparison, left, bytes.as_slice()),
    }
}

/// The result of an operation on items and a literal.
pub fn work_literal(
    alloc: Global,
    operation: Operation,
    left: Items<'_>,
    literal: &Literal,
) -> Result<Owned, Refusal>
    ensures gives { (v : OperandValues) → Stands v left.entry
        → Gives held result
        (operation_with operation v (literal_values operation v.descr literal.now)) }
    ensures order { IfOk result IsInCOrder }
{
    match operation {
        Operation::Binary(op) => {
            let item = worked_literal(alloc, op, left.descr, literal)?;
            apply2(alloc, op, left, item.items())
        }
        Operation::Compare(comparison) => compare_literal(alloc, comparison, left, literal),
    }
}

/// The array that a computation reads, and the second one of an operation on two arrays.
#[derive(Drop)]
pub struct Sources<'a> {
    pub first: ArrayRef<'a>,
    pub second: Option<ArrayRef<'a>>,
}

/// The arrays that a computation names. `UnknownName` if a name is not bound.
fn find_sources<'a>(bench: &'a Bench, computation: &Computation) -> Result<Sources<'a>, Refusal>
    ensures { Knows bench.now.state (bound_in_computation computation.now)
        (AreSources bench.now.state computation.now) result }
{
    match computation {
        Computation::Duplicate { source, .. }
        | Computation::Cast { source, .. }
        | Computation::Reduce { source, .. } => Ok(Sources {
            first: named_array(bench, source, None)?,
            second: None,
        }),
        Computation::Transform { operand, .. } => Ok(Sources {
            first: named_array(bench, &operand.name, operand.index.as_ref())?,
            second: None,
        }),
        Computation::Combine { left, right, .. } => Ok(Sources {
            first: named_array(bench, &left.name, left.index.as_ref())?,
            second: argument_array(bench, right)?,
        }),
    }
}

/// The result of a computation.
fn computed(
    alloc: Global,
    bench: &Bench,
    computation: &Computation,
    sources: Sources<'_>,
) -> Result<Owned, Refusal>
    requires bound { list_all (is_bound bench.now.state)
        (bound_in_computation computation.now) ≡ true }
    requires sources { AreSources bench.now.state computation.now sources }
    ensures { Gives held result (computed_contents bench.now.state computation.now) }
{
    let Sources { first, second } = sources;
    match computation {
        Computation::Duplicate { order, .. } => {
            arrays::copy(alloc, first.block, first.layout, first.descr, *order)
        }
        Computation::Cast { descr, .. } => {
            let descr = descr_read(alloc, descr.as_slice())?;
            elementwise::cast(alloc, items_of_view(&first, first.layout), &descr)
        }
        Computation::Combine {
            operation,
            left,
            right,
        } => {
            let left = operand_part(alloc, bench, left, first)?;
            let items = left.items();
            match right {
                Argument::Literal(literal) => work_literal(alloc, *operation, items, literal),
                Argument::Operand(right) => {
                    let right = operand_part(alloc, bench, right, second.unwrap())?;
                    work(alloc, *operation, items, right.items())
                }
            }
        }
        Computation::Transform { operation, operand } => {
            let part = operand_part(alloc, bench, operand, first)?;
            apply1(alloc, *operation, part.items())
        }
        Computation::Reduce {
            reduction,
            axis,
            keep,
            ..
        } => {
            let items = items_of_view(&first, first.layout);
            reductions::reduce(alloc, *reduction, items, *axis, *keep)
        }
    }
}

/// Whether the reply calls the result new or a copy.
fn origin_of(computation: &Computation) -> Origin
    ensures { result ≡ origin_of computation.now }
{
    match computation {
        Computation::Duplicate { .. } => Origin::Copy,
        _ => Origin::New,
    }
}

/// Binds a name to the result of a computation, and makes the reply.
pub fn compute(
    bench: &mut Bench,
    name: &Name,
    computation: &Computation,
    out: &mut ReplyText,
) -> Result<(), Refusal>
    ensures answers { CarriesOut
        (list_all (is_bound bench.old.state) (bound_in_computation computation.now))
        (λ choice. compute_outcome choice bench.old.state name.now computation.now)
        bench.old.state bench.new.state out.new result }
    ensures patches { Counts 0 bench.old result bench.new }
{
    let sources = find_sources(bench, computation)?;
    if !bench.has_room_for(name) {
        return Err(Refusal::TooManyNames);
    }
    let owned = computed(out.allocator(), bench, computation, sources)?;
    bind_new(bench, name, owned, origin_of(computation), out)
}
