//! The values of operands and arguments: a literal, or the part of an array that an index list
//! selects.
ghost use Rattle.std.specs.Prelude.{All, length, true, ◌+◌, ◌≡◌, ◌≤◌};
ghost use Rattle.bench_engine.specs.Clauses.{Array, IsNamed, IsNamedBy, IsPart, Knows, LiesInBuffer, Meets, StandsFor, State, buffer_number, is_bound, item_size, list_all, names_in_argument, names_in_operand, offsets, operand_part};

use crate::index_list::{named_array, named_target};
use arrays::Owned;
use elem_descr::Refusal;
use elementwise::Items;
use name_store::{ArrayRef, Bench, Target};
use script_lang::{Argument, Literal, Operand};
use shape_strides::Layout;
use std::alloc::Global;

/// The array of an argument's name, or `None` for a literal. `UnknownName` if this name, or one in
/// the index list, is not bound.
pub fn argument_array<'a>(
    bench: &'a Bench,
    value: &Argument,
) -> Result<Option<ArrayRef<'a>>, Refusal>
    ensures { Knows bench.now.state (names_in_argument value.now)
        (IsNamedBy bench.now.state value.now) result }
{
    match value {
        Argument::Operand(operand) => {
            let array = named_array(bench, &operand.name, operand.index.as_ref())?;
            Ok(Some(array))
        }
        Argument::Literal(_) => Ok(None),
    }
}

/// The items that a layout selects from the buffer of an array.
pub fn items_of_view<'a>(array: &'a ArrayRef<'_>, view: &'a Layout) -> Items<'a>
    requires inside { All (λ offset. offset + item_size array.now.descr.now
        ≤ length array.now.block.now) (offsets view.now) }
    ensures block { result.block.now ≡ array.now.block.now }
    ensures layout { result.layout.now ≡ view.now }
    ensures descr { result.descr.now ≡ array.now.descr.now }
{
    Items {
        block: array.block,
        layout: view,
        descr: array.descr,
    }
}

/// The part of an array that an operand selects.
#[derive(Drop)]
pub enum Part<'a> {
    /// The whole array.
    Whole(ArrayRef<'a>),
    /// A view of it.
    View(ArrayRef<'a>, Layout),
    /// A copy of some of its items.
    Copy(Owned),
}

impl Part<'_> {
    /// The items of the part.
    pub fn items(&self) -> Items<'_>
        requires { (s : State) × (part : Array) × IsPart s self.now part }
        ensures stands { (s : State) (part : Array) → IsPart s self.now part
            → StandsFor s part result }
        ensures lies { (s : State) (part : Array) → IsPart s self.now part
            → LiesInBuffer s part (buffer_number self.now) result.layout.now }
    {
        match self {
            Part::Whole(array) => items_of_view(array, array.layout),
            Part::View(array, layout) => items_of_view(array, layout),
            Part::Copy(copy) => copy.items(),
        }
    }

    /// The number of the buffer that holds the items, unless they are a copy.
    pub fn number(&self) -> Option<u64>
        ensures { result ≡ buffer_number self.now }
    {
        match self {
            Part::Whole(array) | Part::View(array, _) => Some(array.number),
            Part::Copy(_) => None,
        }
    }
}

/// The part of an array that an operand selects. The refusals are those of its index list.
pub fn operand_part<'a>(
    alloc: Global,
    bench: &Bench,
    operand: &Operand,
    array: ArrayRef<'a>,
) -> Result<Part<'a>, Refusal>
    requires bound { list_all (is_bound bench.now.state) (names_in_operand operand.now) ≡ true }
    requires named { IsNamed bench.now.state operand.now.name array }
    ensures { Meets (IsPart bench.now.state) result (operand_part bench.now.state operand.now) }
{
    let Some(index) = &operand.index else {
        return Ok(Part::Whole(array));
    };
    let target = named_target(alloc, bench, &array, index.as_slice())?;
    match target {
        Target::View(layout) => Ok(Part::View(array, layout)),
        Target::Plan(plan) => {
            let copy = plan.gather_owned(alloc, array.block, array.descr)?;
            Ok(Part::Copy(copy))
        }
    }
}

/// The right side of `=` or of an operation: a literal, or the part that an operand selects.
#[derive(Drop)]
pub enum Given<'a> {
    Literal(&'a Literal),
    Items(Part<'a>),
}
