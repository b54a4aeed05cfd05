//! The integers of an array, read in place, and the indexes that they stand for.
ghost use Rattle.std.specs.Prelude.{◌≡◌, ◌≤◌, length, IfSome};
ghost use Rattle.fancy_index.specs.Words.{Gives, count};
ghost use Rattle.fancy_index.specs.inside.Items.{numbers_in};
ghost use Rattle.fancy_index.specs.inside.Tables.{IsTableOf};
ghost use Rattle.fancy_index.specs.inside.Words.{named_places, AreWords, ArePlaces};

use crate::fast::native_integers::put_run;
use crate::fast::offset_tables::{OffsetTable, table_if_spread};
use crate::fast::table_places::{Reading, put_table};
use crate::index_arrays::Named;
use crate::integers::{Form, Words, put_places};
use elem_descr::{Descr, Order, Refusal, Scalar};
use shape_strides::Runs;
use std::alloc::Global;

/// The form of the integers of an array.
fn form_of(named: Named<'_>) -> Form
    ensures { AreWords result named.entry.array.descr.now }
{
    match named.array.descr {
        Descr::Scalar(Scalar::Byte { signed }) => Form {
            signed: *signed,
            order: Order::Little,
            width: 1,
        },
        Descr::Scalar(
            Scalar::Int {
                signed,
                width,
                order,
            },
        ) => Form {
            signed: *signed,
            order: *order,
            width: width.bytes(),
        },
        _ => unreachable!(),
    }
}

/// Writes the indexes that the integers of an array, of `N` bytes, stand for on their axis, run by
/// run, and returns whether all are in range.
fn put_runs<const N: usize>(places: &mut [u32], named: Named<'_>, form: Form) -> bool
    requires few { (1 ≤ N) × (N ≤ 8) }
    requires width { form.width ≡ N }
    requires words { AreWords form named.array.descr.now }
    requires many { length places.old ≡ count named.array.layout.now.shape }
    ensures { ArePlaces named.entry.n (numbers_in named.entry.array) result places.new }
{
    let Named { array, n } = named;
    let _items = array.layout.shape.items();
    if let Some(run) = array.layout.as_run() {
        return put_run::<N>(places, array.block, form, run, n);
    }
    let bytes = array.block.bytes();
    let mut are = true;
    let mut at = 0;
    for run in Runs::new(array.layout) {
        let end = at + run.count;
        are = are & put_places(&mut places[at..end], Words::<N> { bytes, form, run }, n);
        at = end;
    }
    are
}

/// Writes these indexes, by a table of the offsets if there is one, and returns whether all integers
/// are in range.
fn put_all<const N: usize>(
    places: &mut [u32],
    named: Named<'_>,
    form: Form,
    table: &Option<OffsetTable>,
) -> bool
    requires few { (1 ≤ N) × (N ≤ 8) }
    requires width { form.width ≡ N }
    requires words { AreWords form named.array.descr.now }
    requires table { IfSome table.now (IsTableOf named.array.layout.now) }
    requires many { length places.old ≡ count named.array.layout.now.shape }
    ensures { ArePlaces named.entry.n (numbers_in named.entry.array) result places.new }
{
    match table {
        Some(table) => put_table::<N>(places, Reading { named, form, table }),
        None => put_runs::<N>(places, named, form),
    }
}

/// The indexes that the integers of an array stand for on their axis, or the refusal of one that is
/// out of range.
pub(crate) fn places(alloc: Global, named: Named<'_>) -> Result<Vec<u32>, Refusal>
    ensures { let there = named_places named.entry.n (numbers_in named.entry.array) in
        Gives (λ v. v.items) result there }
{
    let form = form_of(named);
    let mut places = vec![in alloc; 0u32; named.array.layout.shape.items()]?;
    let slots = places.as_mut_slice();
    let table = table_if_spread(alloc, named.array.layout);
    let are = match form.width {
        1 => put_all::<1>(slots, named, form, &table),
        2 => put_all::<2>(slots, named, form, &table),
        4 => put_all::<4>(slots, named, form, &table),
        _ => put_all::<8>(slots, named, form, &table),
    };
    if !are {
        return Err(Refusal::IndexOutOfRange);
    }
    Ok(places)
}
