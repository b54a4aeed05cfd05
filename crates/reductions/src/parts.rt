//! Some of the numbers, and the place of a number among them.
ghost use Rattle.std.specs.Prelude.{◌≡◌, ◌+◌, ◌<◌, ◌≤◌};
ghost use Rattle.reductions.specs.Reductions.{first_place};
ghost use Rattle.reductions.specs.inside.Numbers.{numbers_of, IsPart};

use machine_numbers::{Number, Ordered, Side, place};
use shape_strides::Run;

/// Some of the items, starting with one of them.
#[inline(always)]
pub(crate) fn part<'a>(side: Side<'a>, from: usize, count: usize) -> Side<'a>
    requires from { from < side.run.count }
    requires fits { from + count ≤ side.run.count }
    ensures { IsPart from count side.entry result }
{
    Side {
        bytes: side.bytes,
        run: Run {
            offset: place(side.run, from),
            count,
            ..side.run
        },
        width: side.width,
    }
}

/// The place of a number's first occurrence among others, or the number of them if it does not
/// occur.
#[inline(always)]
pub(crate) fn place_of<S: Number, O: Ordered>(number: S, side: Side<'_>) -> usize
    requires { side.width ≡ S.WIDTH }
    ensures place { result
        ≡ first_place (S.value number) (numbers_of (S.scalar O.order) side.entry) }
    ensures within { result ≤ side.entry.run.count }
{
    let bits = number.bits();
    for k in 0..side.run.count {
        if side.number::<S, O>(k).bits() == bits {
            return k;
        }
    }
    side.run.count
}
