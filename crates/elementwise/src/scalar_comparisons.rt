//! Comparisons of all items of two arrays of numbers, or of byte strings.
ghost use Rattle.std.specs.Prelude.{IfOk, ◌≡◌};
ghost use Rattle.elementwise.specs.Clauses.{ScalarDescr, Bytes, IsNumber, AreCompared, AreComparable, IsComparing};

use crate::fast::chunks::make_cast;
use crate::fast::columns::made;
use crate::fast::cut_lengths::cut_lengths;
use crate::kernels::bits::note_slice;
use crate::loops::row_pairs::{Broadcast, Operands};
use crate::operands::read_as;
use crate::pairing::{Pairing, Work};
use crate::rules::promotion::common_type;
use arrays::{Items, Owned};
use broadcasting::stretched_to;
use elem_descr::{BytesLen, Comparison, Descr, Scalar};
use machine_numbers::{is_signed, little};
use std::alloc::{AllocError, Global};

/// How numbers of two scalars are compared: cast to the smallest scalar that holds both. If there
/// is none, both are integers of eight bytes, one signed and the other unsigned.
fn number_pairing(
    comparison: Comparison,
    left: &Scalar,
    right: &Scalar,
    both: Broadcast<'_>,
) -> Pairing
    requires left { IsNumber left.now }
    requires right { IsNumber right.now }
    ensures { IsComparing comparison left.now right.now result }
{
    let native = little(left);
    let work = Work::Compare(comparison);
    if native == little(right) {
        let scalar = read_as(&native, both.left, both.right);
        return Pairing::Alike { work, scalar };
    }
    match common_type(left, right) {
        Ok(scalar) => Pairing::Alike { work, scalar },
        Err(_) => Pairing::Signs {
            comparison,
            left_signed: is_signed(left),
        },
    }
}

/// A comparison of byte strings. Trailing NULs of items that repeat are looked at once.
fn compare_texts(
    alloc: Global,
    comparison: Comparison,
    width: BytesLen,
    other_width: BytesLen,
    both: Broadcast<'_>,
) -> Result<Owned, AllocError>
    requires left { both.left.descr.now ≡ ScalarDescr (Bytes width) }
    requires right { both.right.descr.now ≡ ScalarDescr (Bytes other_width) }
    ensures { IfOk result (AreCompared comparison both.entry) }
{
    let Broadcast { left, right, shape } = both;
    let _items = shape.items();
    let (cut, other_cut) = cut_lengths(alloc, width, other_width, both)?;
    let pairing = Pairing::Texts {
        comparison,
        width: cut,
        other_width: other_cut,
    };
    let descr = Descr::Scalar(Scalar::Bytes(cut));
    let other_descr = Descr::Scalar(Scalar::Bytes(other_cut));
    let first = stretched_to(alloc, left.layout, shape)?;
    let second = stretched_to(alloc, right.layout, shape)?;
    let operands = Operands {
        left: Items {
            block: left.block,
            layout: &first,
            descr: &descr,
        },
        right: Items {
            block: right.block,
            layout: &second,
            descr: &other_descr,
        },
    };
    made(alloc, &pairing, operands)
}

/// A comparison of numbers, by value, or of byte strings.
pub(crate) fn compare_scalars(
    alloc: Global,
    comparison: Comparison,
    both: Broadcast<'_>,
) -> Result<Owned, AllocError>
    requires { AreComparable both.left.descr.now both.right.descr.now }
    ensures { IfOk result (AreCompared comparison both.entry) }
{
    match (both.left.descr, both.right.descr) {
        (Descr::Scalar(left), Descr::Scalar(right)) => match (left, right) {
            (Scalar::Bytes(width), Scalar::Bytes(other_width)) => {
                compare_texts(alloc, comparison, *width, *other_width, both)
            }
            (Scalar::Bytes(_), _) => unreachable!(),
            _ => {
                note_slice(both.left.block.bytes());
                note_slice(both.right.block.bytes());
                let pairing = number_pairing(comparison, left, right, both);
                make_cast(alloc, &pairing, both)
            }
        },
        _ => unreachable!(),
    }
}
