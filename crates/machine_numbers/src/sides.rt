//! Reads items at equal steps.
ghost use Rattle.std.specs.Prelude.{◌≡◌, ◌^◌, ◌<◌, pos, ◌≤ℤ◌, ◌<ℤ◌, length};
ghost use Rattle.raw_block.specs.Bytes.{position, place, EachWithin};

use crate::byte_orders::Ordered;
use crate::numbers::Number;
use raw_block::Steps;
use shape_strides::Run;

/// The place of the `k`-th item of a run.
#[inline(always)]
pub fn place(run: Run, k: usize) -> usize
    requires low { pos 0 ≤ℤ position run.offset run.step k }
    requires high { position run.offset run.step k <ℤ pos (2 ^ 64) }
    ensures { result ≡ place run.offset run.step k }
{
    Steps::new(run.offset, run.step).place(k)
}

/// A run of items of `width` bytes each, in a slice of bytes.
#[derive(Clone, Copy, Drop)]
pub struct Side<'a> {
    pub bytes: &'a [u8],
    pub run: Run,
    pub width: usize,
    pub ghost few: { run.count < 2 ^ 63 },
    pub ghost within: { EachWithin (length bytes.now) run.offset run.step width run.count },
}

impl<'a> Side<'a> {
    ghost use Rattle.machine_numbers.specs.Sides.{AreSame, item_in, number_of_side};

    /// The same items, with a step that the compiler knows.
    #[inline(always)]
    pub fn with_step(self, step: isize) -> Side<'a>
        requires { self.run.step ≡ step }
        ensures { AreSame result self.entry }
    {
        Side {
            bytes: self.bytes,
            run: Run { step, ..self.run },
            width: self.width,
        }
    }

    /// The `k`-th number.
    #[inline(always)]
    pub fn number<N: Number, O: Ordered>(self, k: usize) -> N
        requires k { k < self.run.count }
        requires width { self.width ≡ N.WIDTH }
        ensures { N.value result ≡ number_of_side (N.scalar O.order) self.entry k }
    {
        let at = place(self.run, k);
        N::read::<O>(&self.bytes[at..at + N::WIDTH])
    }

    /// The bytes of the `k`-th item.
    #[inline(always)]
    pub fn item(self, k: usize) -> &'a [u8]
        requires { k < self.run.count }
        ensures { result.now ≡ item_in self.entry k }
    {
        let at = place(self.run, k);
        &self.bytes[at..at + self.width]
    }
}
