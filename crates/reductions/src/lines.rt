//! The numbers to reduce, the lists and lines that they form, and where the result of a line goes.
ghost use Rattle.std.specs.Prelude.{◌+◌, ◌^◌, ◌<◌, ◌≤◌, ℕ, length, All};
ghost use Rattle.reductions.specs.Words.{Little, size, place, EachWithin, offsets};
ghost use Rattle.reductions.specs.inside.Numbers.{IsPushed};

use elem_descr::Scalar;
use machine_numbers::{LowFirst, Number, Side, place};
use raw_block::BlockBuilder;
use shape_strides::{Layout, Run, StridedAxis};

/// The numbers of a layout.
#[derive(Clone, Copy, Drop)]
pub(crate) struct Numbers<'a> {
    pub(crate) bytes: &'a [u8],
    pub(crate) layout: &'a Layout,
    pub(crate) scalar: &'a Scalar,
    pub(crate) ghost inside: { All (λ offset. offset + size scalar.now ≤ length bytes.now)
        (offsets layout.now) },
}

/// Lines along an axis, one for each start.
#[derive(Clone, Copy, Drop)]
pub(crate) struct Lines<'a> {
    pub(crate) starts: Side<'a>,
    pub(crate) axis: StridedAxis,
    pub(crate) ghost few: { axis.len < 2 ^ 63 },
    pub(crate) ghost within: { (j : ℕ) → j < starts.run.count
        → EachWithin (length starts.bytes.now) (place starts.run.offset starts.run.step j)
        axis.stride starts.width axis.len },
}

impl<'a> Lines<'a> {
    ghost use Rattle.reductions.specs.inside.Lines.{IsLine};

    /// The line that starts at the `j`-th item.
    #[inline(always)]
    pub(crate) fn line(self, j: usize) -> Side<'a>
        requires { j < self.starts.run.count }
        ensures { IsLine self.entry j result }
    {
        Side {
            bytes: self.starts.bytes,
            run: Run {
                offset: place(self.starts.run, j),
                count: self.axis.len,
                step: self.axis.stride,
            },
            width: self.starts.width,
        }
    }
}

/// Appends the result of a line, lowest byte first.
#[inline(always)]
pub(crate) fn push_total<T: Number>(block: &mut BlockBuilder, total: T)
    requires { T.WIDTH ≤ block.old.1 }
    ensures { IsPushed (T.scalar Little) T.WIDTH (T.value total) block.old block.new }
{
    total.push::<LowFirst>(block);
}
