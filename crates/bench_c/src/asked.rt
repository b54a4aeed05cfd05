//! Questions about the array of a name: what the calls copy out.
ghost use Rattle.std.specs.Prelude.{◌≡◌, ◌+◌, ◌≤◌, length, All, IfOk};
ghost use Rattle.bench_c.specs.Clauses.{Array, Gives, Looks, Shows, State, array_called, bytes_as, descr_text, in_form, item_size, offsets, type_called};

use arrays::{Items, Owned};
use elem_descr::{
    Descr, LONGEST_NAME, Name, Order, Refusal, Scalar, Width, format_write, typestr_write,
};
use elementwise::cast;
use name_store::{ArrayRef, Bench};
use std::alloc::{AllocError, Global};

/// The array of a name.
pub fn array_called<'a>(
    alloc: Global,
    bench: &'a Bench,
    name: &[u8],
) -> Result<ArrayRef<'a>, Refusal>
    ensures { Looks bench.now.state (array_called name.now bench.now.state) result }
{
    if name.len() > LONGEST_NAME {
        return Err(Refusal::UnknownName);
    }
    let name = Name::from_slice(alloc, name);
    match bench.get(&name) {
        Some(array) => Ok(array),
        None => Err(Refusal::UnknownName),
    }
}

/// An element type as `info` prints it.
pub fn descr_text(alloc: Global, descr: &Descr) -> Result<Vec<u8>, AllocError>
    ensures { IfOk result (λ text. text.items ≡ descr_text descr.now) }
{
    match descr {
        Descr::Scalar(scalar) => typestr_write(alloc, *scalar),
        Descr::Record(_) => format_write(alloc, descr),
    }
}

/// The element type of a name's array, as a text.
pub fn type_called(alloc: Global, bench: &Bench, name: &[u8]) -> Result<Vec<u8>, Refusal>
    ensures { Gives (λ text. text.items) result (type_called name.now bench.now.state) }
{
    let array = array_called(alloc, bench, name)?;
    Ok(descr_text(alloc, array.descr)?)
}

/// The items of an array, cast to an element type, one after another in C order.
fn cast_to(alloc: Global, array: &ArrayRef<'_>, descr: &Descr) -> Result<Owned, Refusal>
    requires inside { All (λ offset. offset + item_size array.now.descr.now
        ≤ length array.now.block.now) (offsets array.now.layout.now) }
    ensures { (s : State) (a : Array) → Shows s a array.now
        → Gives (λ owned. owned.block) result (bytes_as descr.now s a) }
{
    let items = Items {
        block: array.block,
        layout: array.layout,
        descr: array.descr,
    };
    cast(alloc, items, descr)
}

/// In which bytes items are copied out.
#[derive(Clone, Copy)]
pub enum Form {
    /// Those of their own type.
    Own,
    /// Those of an integer of eight bytes, the lowest first.
    Number,
}

/// The items of a name's array in C order.
pub fn items_called(alloc: Global, bench: &Bench, name: &[u8], form: Form) -> Result<Owned, Refusal>
    ensures { Gives (λ owned. owned.block) result (in_form form name.now bench.now.state) }
{
    let array = array_called(alloc, bench, name)?;
    let int64 = Descr::Scalar(Scalar::Int {
        signed: true,
        width: Width::Eight,
        order: Order::Little,
    });
    match form {
        Form::Own => cast_to(alloc, &array, array.descr),
        Form::Number => cast_to(alloc, &array, &int64),
    }
}
