//! `X = Y`, `X = Y[ix]`, `X = transpose Y`, `X = reshape Y S`, `X = broadcast Y S`, `X = field Y
//! "f"`: bind a name to a view of another name's array, or to a copy of some of its items.
ghost use Rattle.std.specs.Prelude.{◌≡◌, true, option_copied, unwrap_or, ◌∷◌, []};
ghost use Rattle.bench_engine.specs.Clauses.{list_all, Whole, Indexed, Transposed, Reshaped, Broadcast, is_bound, Shows, Field, Array, names_in_index, names_in_viewing, view_outcome, IsShown, Sees, SeesIn, shape_of_bound, origin_of_bound, CarriesOut, Counts};
ghost use Rattle.name_store.specs.declared.bound.Bound.TheVariants.{View};

use crate::create::shape_of;
use crate::index_list::{named_array, named_target};
use crate::replies::{Origin, set_bound_text};
use crate::reply_text::ReplyText;
use arrays::Owned;
use elem_descr::{Descr, MemoryOrder, Name, Refusal};
use name_store::{ArrayRef, Bench, Bound, Target};
use script_lang::{Index, Lengths, Text, Viewing};
use shape_strides::{Layout, Shape};
use std::alloc::Global;

/// A view of an array, or a copy of its items in C order, that a name will be bound to; and the
/// element type.
#[derive(Drop)]
pub struct Viewed<'a> {
    pub bound: Bound,
    pub descr: &'a Descr,
}

/// The shape, and whether the reply calls it a view or a copy.
fn shape_and_origin(bound: &Bound) -> (&Shape, Origin)
    ensures shape { result.0.now ≡ shape_of_bound bound.now }
    ensures origin { result.1 ≡ origin_of_bound bound.now }
{
    match bound {
        Bound::Fresh(owned) => (&owned.layout.shape, Origin::Copy),
        Bound::View { layout, .. } => (&layout.shape, Origin::View),
    }
}

/// The view of an array with this layout.
fn items<'a>(array: &ArrayRef<'a>, layout: Layout, writable: bool) -> Viewed<'a>
    ensures bound { result.bound ≡ View array.now.number array.now.path.now layout writable }
    ensures descr { result.descr ≡ array.now.descr }
{
    let bound = Bound::View {
        number: array.number,
        path: *array.path,
        layout,
        writable,
    };
    Viewed {
        bound,
        descr: array.descr,
    }
}

/// `Y[ix]`: a copy if the list names an array.
fn indexed<'a>(
    alloc: Global,
    bench: &Bench,
    array: &ArrayRef<'a>,
    index: &Index,
) -> Result<Viewed<'a>, Refusal>
    requires bound { list_all (is_bound bench.now.state) (names_in_index index.now) ≡ true }
    requires shown { (a : Array) × Shows bench.now.state a array.now }
    ensures { SeesIn bench.now.state (Indexed index.now) array.now result }
{
    let target = named_target(alloc, bench, array, index.as_slice())?;
    match target {
        Target::View(layout) => Ok(items(array, layout, array.writable)),
        Target::Plan(plan) => {
            let copy = plan.gather_owned(alloc, array.block, array.descr)?;
            Ok(Viewed {
                bound: Bound::Fresh(copy),
                descr: array.descr,
            })
        }
    }
}

/// `transpose Y [(axes)]`
fn transposed<'a>(
    alloc: Global,
    array: &ArrayRef<'a>,
    axes: Option<&[i128]>,
) -> Result<Viewed<'a>, Refusal>
    ensures { Sees (Transposed (option_copied axes.entry)) array.now result }
{
    let layout = view_ops::transpose(alloc, array.layout, axes)?;
    Ok(items(array, layout, array.writable))
}

/// `field Y "f"`
fn field<'a>(alloc: Global, array: &ArrayRef<'a>, field: &Text) -> Result<Viewed<'a>, Refusal>
    requires { IsShown array.now }
    ensures { Sees (Field field.now) array.now result }
{
    let Some(k) = array.descr.leaf_of(field.as_slice()) else {
        return Err(Refusal::NoSuchField);
    };
    let layout = view_ops::field(alloc, array.layout, array.descr, field.as_slice())?;
    let bound = Bound::View {
        number: array.number,
        path: array.path.then(k),
        layout,
        writable: array.writable,
    };
    Ok(Viewed {
        bound,
        descr: &array.descr.field(k).descr,
    })
}

/// `broadcast Y S`: it is read-only, since one item may be at many indexes.
fn broadcast<'a>(
    alloc: Global,
    array: &ArrayRef<'a>,
    lengths: &Lengths,
) -> Result<Viewed<'a>, Refusal>
    ensures { Sees (Broadcast lengths.now) array.now result }
{
    let shape = shape_of(alloc, lengths)?;
    let layout = broadcasting::stretch(alloc, array.layout, &shape)?;
    Ok(items(array, layout, false))
}

/// `reshape Y S`: the items are copied if no strides lead to them in the new shape.
fn reshaped<'a>(
    alloc: Global,
    array: &ArrayRef<'a>,
    numbers: &[i128],
) -> Result<Viewed<'a>, Refusal>
    requires { IsShown array.now }
    ensures { Sees (Reshaped numbers.now) array.now result }
{
    let shape = reshape_rule::target(alloc, &array.layout.shape, numbers)?;
    if let Some(layout) = reshape_rule::no_copy(alloc, array.layout, &shape)? {
        return Ok(items(array, layout, array.writable));
    }
    let copy = arrays::copy(
        alloc,
        array.block,
        array.layout,
        array.descr,
        MemoryOrder::C,
    )?;
    let owned = Owned::over(alloc, copy.descr, &shape, MemoryOrder::C, copy.block)?;
    Ok(Viewed {
        bound: Bound::Fresh(owned),
        descr: array.descr,
    })
}

/// The index list in a view's description.
fn index_in(how: &Viewing) -> Option<&Index>
    ensures { names_in_index (unwrap_or (option_copied result) []) ≡ names_in_viewing how.now }
{
    match how {
        Viewing::Indexed(index) => Some(index),
        _ => None,
    }
}

/// The view of an array, or the copy. The refusals are those of the kind of view.
fn seen<'a>(
    alloc: Global,
    bench: &Bench,
    array: &ArrayRef<'a>,
    how: &Viewing,
) -> Result<Viewed<'a>, Refusal>
    requires shown { (a : Array) × Shows bench.now.state a array.now }
    requires bound { list_all (is_bound bench.now.state) (names_in_viewing how.now) ≡ true }
    ensures { SeesIn bench.now.state how.now array.now result }
{
    match how {
        Viewing::Whole => {
            let layout = Layout::try_copy(alloc, array.layout)?;
            Ok(items(array, layout, array.writable))
        }
        Viewing::Indexed(index) => indexed(alloc, bench, array, index),
        Viewing::Field(part) => field(alloc, array, part),
        Viewing::Transposed(axes) => match axes {
            None => transposed(alloc, array, None),
            Some(axes) => transposed(alloc, array, Some(axes.as_slice())),
        },
        Viewing::Broadcast(lengths) => broadcast(alloc, array, lengths),
        Viewing::Reshaped(numbers) => reshaped(alloc, array, numbers.as_slice()),
    }
}

/// Binds a name to a view of an array. The reply is made before the change, which is the last step
/// that may run out of memory.
pub fn view(
    bench: &mut Bench,
    name: &Name,
    source: &Name,
    how: &Viewing,
    out: &mut ReplyText,
) -> Result<(), Refusal>
    ensures answers { CarriesOut
        (list_all (is_bound bench.old.state) (source.now ∷ names_in_viewing how.now))
        (λ choice. view_outcome choice bench.old.state name.now source.now how.now)
        bench.old.state bench.new.state out.new result }
    ensures patches { Counts 0 bench.old result bench.new }
{
    let array = named_array(bench, source, index_in(how))?;
    if !bench.has_room_for(name) {
        return Err(Refusal::TooManyNames);
    }
    let viewed = seen(out.allocator(), bench, &array, how)?;
    let bound = viewed.bound;
    let (shape, origin) = shape_and_origin(&bound);
    set_bound_text(out, name, viewed.descr, shape, origin)?;
    bench.bind(name, bound)
}
