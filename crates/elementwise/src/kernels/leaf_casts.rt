//! Casts one field of many records, each value into its own record.
ghost use Rattle.std.specs.Prelude.{◌≡◌, ◌*◌, ◌+◌, ◌≤◌, length, replicate, true, IsTrue, ◌-◌};
ghost use Rattle.elementwise.specs.Words.{IsNumber, size, put, item_in, EachWithin, max_items};
ghost use Rattle.elementwise.specs.Casts.{can_cast_scalar};
ghost use Rattle.elementwise.specs.inside.LeafCasts.{leaf_cast};
ghost use Rattle.elementwise.specs.inside.Columns.{HasZeros, IsColumn, with_leaves, AreRows};

use arrays::copy_run;
use elem_descr::Scalar;
use machine_numbers::{Number, NumberTask, Ordered, Side, on_number};
use raw_block::RawBlock;
use shape_strides::Run;
use std::marker::PhantomData;

/// A run of leaves, and the rows of `row` bytes that they are cast to: each leaf goes to the offset
/// `at` in its row.
#[derive(Drop)]
pub(crate) struct Column<'a> {
    pub(crate) block: &'a RawBlock,
    pub(crate) from: Run,
    pub(crate) at: usize,
    pub(crate) row: usize,
    pub(crate) rows: RawBlock,
}

/// Writes a number as one of another type.
#[inline(always)]
fn cast_one<S: Number, P: Ordered, T: Number, Q: Ordered>(item: &[u8], place: &mut [u8])
    requires item { length item.now ≡ S.WIDTH }
    requires place { length place.old ≡ T.WIDTH }
    ensures { place.new ≡ leaf_cast (S.scalar P.order) (T.scalar Q.order) item.now }
{
    T::of_bits(S::read::<P>(item).bits()).write::<Q>(place);
}

/// Casts a number, and writes it at an offset.
#[inline(always)]
fn put_one<S: Number, P: Ordered, T: Number, Q: Ordered>(item: &[u8], at: usize, bytes: &mut [u8])
    requires item { length item.now ≡ S.WIDTH }
    requires room { at + T.WIDTH ≤ length bytes.old }
    ensures { bytes.new
        ≡ put at (leaf_cast (S.scalar P.order) (T.scalar Q.order) item.now) bytes.old }
{
    cast_one::<S, P, T, Q>(item, &mut bytes[at..at + T::WIDTH]);
}

/// Casts each number of a run, and writes it to its row.
#[inline(always)]
fn put_each<S: Number, P: Ordered, T: Number, Q: Ordered>(
    from: Side<'_>,
    at: usize,
    row: usize,
    bytes: &mut [u8],
)
    requires from { from.width ≡ S.WIDTH }
    requires fits { at + T.WIDTH ≤ row }
    requires room { from.run.count * row ≤ length bytes.old }
    ensures len { length bytes.new ≡ length bytes.old }
    ensures bytes { bytes.new
        ≡ with_leaves
        (λ k. leaf_cast (S.scalar P.order) (T.scalar Q.order) (item_in from.entry k)) at row
        from.entry.run.count bytes.old }
{
    for k in 0..from.run.count {
        put_one::<S, P, T, Q>(from.item(k), at + k * row, bytes);
    }
}

/// A column of numbers that are cast to a scalar.
struct CastingTo<'a>(Column<'a>, Scalar);

/// A column of numbers of a known type that are cast.
struct CastingFrom<'a, S, P>(Column<'a>, PhantomData<(S, P)>);

impl<'a> NumberTask for CastingTo<'a> {
    type Out = RawBlock;

    ghost Needs = { λ t scalar. IsNumber t.1 × IsColumn t.0 (size scalar) (size t.1) };

    ghost Gives = { λ t scalar rows. AreRows scalar t.1 t.0 rows };

    fn run<S: Number, P: Ordered>(self) -> RawBlock {
        let CastingTo(column, to) = self;
        on_number(&to, CastingFrom::<S, P>(column, PhantomData))
    }
}

impl<'a, S: Number, P: Ordered> NumberTask for CastingFrom<'a, S, P> {
    type Out = RawBlock;

    ghost Needs = { λ t scalar. IsColumn t.0 S.WIDTH (size scalar) };

    ghost Gives = { λ t scalar rows. AreRows (S.scalar P.order) scalar t.0 rows };

    fn run<T: Number, Q: Ordered>(self) -> RawBlock {
        let CastingFrom(column, _) = self;
        let Column {
            block,
            from,
            at,
            row,
            rows,
        } = column;
        let mut rows = rows;
        let side = Side {
            bytes: block.bytes(),
            run: from,
            width: S::WIDTH,
        };
        put_each::<S, P, T, Q>(side, at, row, rows.bytes_mut());
        rows
    }
}

impl<'a> Column<'a> {
    /// The rows with the leaves of one scalar, cast to another. Byte strings are copied over zeros.
    pub(crate) fn cast(self, scalar: &Scalar, to: &Scalar) -> RawBlock
        requires can { can_cast_scalar scalar.now to.now ≡ true }
        requires column { IsColumn self (size scalar.now) (size to.now) }
        requires zeros { HasZeros self (size to.now) }
        ensures { AreRows scalar.now to.now self.entry result }
    {
        match (scalar, to) {
            (Scalar::Bytes(width), Scalar::Bytes(len)) => {
                let Column {
                    block,
                    from,
                    at,
                    row,
                    rows,
                } = self;
                let mut rows = rows;
                let to = Run {
                    offset: at,
                    count: from.count,
                    step: row as isize,
                };
                copy_run(&mut rows, to, block, from, width.get().min(len.get()));
                rows
            }
            _ => on_number(scalar, CastingTo(self, *to)),
        }
    }
}
