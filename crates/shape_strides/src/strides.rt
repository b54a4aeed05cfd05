//! Strides: how many bytes each axis steps over.
ghost use Rattle.std.specs.Prelude.{◌≡◌, ◌≢◌, [], ◌∷◌, ◌++◌, ◌+◌, ◌^◌, ◌<◌, pos, neg_ℤ, map, replicate, reverse, length, swap, slice_set, slice_index_or, IfOk, OnOk, OnErr, Some};
ghost use Rattle.shape_strides.specs.Contiguity.{strides_text};

use smallvec::SmallVec;
use std::alloc::{AllocError, Global};
use std::fmt;
use std::marker::Model;

/// How many bytes each axis steps over from one item to the next, the first axis first. A step may
/// be negative. Up to four axes take no memory.
#[derive(Drop)]
pub struct Strides {
    steps: SmallVec<isize, 4>,
}

impl Model for Strides {
    ghost use Rattle.std.specs.Prelude.{List, ℤ};

    ghost Value = { List ℤ };

    ghost view = { λ s. s.steps.items };
}

impl Strides {
    pub fn new(alloc: Global) -> Strides
        ensures { result ≡ [] }
    {
        Strides {
            steps: SmallVec::new(alloc),
        }
    }

    /// `count` strides of 0.
    pub fn zeros(alloc: Global, count: usize) -> Result<Strides, AllocError>
        ensures { IfOk result (λ s. s ≡ replicate count (pos 0)) }
    {
        let steps = SmallVec::from_elem(alloc, 0, count)?;
        Ok(Strides { steps })
    }

    pub fn from_slice(alloc: Global, steps: &[isize]) -> Result<Strides, AllocError>
        ensures { IfOk result (λ s. s ≡ steps.now) }
    {
        let steps = SmallVec::from_slice(alloc, steps)?;
        Ok(Strides { steps })
    }

    pub fn as_slice(&self) -> &[isize]
        ensures { result.now ≡ self.now }
    {
        self.steps.as_slice()
    }

    /// The same number of strides, all 0.
    pub fn zeroed(self) -> Strides
        ensures { result ≡ map (λ _. pos 0) self }
    {
        let mut strides = self;
        for step in strides.steps.as_mut_slice() {
            *step = 0;
        }
        strides
    }

    /// Reverses the strides.
    pub(crate) fn reverse(&mut self)
        ensures { self.new ≡ reverse self.old }
    {
        self.steps.as_mut_slice().reverse();
    }

    /// Swaps one and the next.
    pub(crate) fn swap(&mut self, axis: usize)
        requires { axis + 1 < length self.old }
        ensures { self.new ≡ swap self.old axis (axis + 1) }
    {
        self.steps.as_mut_slice().swap(axis, axis + 1);
    }

    /// Changes the sign of one.
    pub(crate) fn negate(&mut self, axis: usize)
        requires axis { axis < length self.old }
        requires short { slice_index_or self.old axis (pos 0) ≢ neg_ℤ (pos (2 ^ 63)) }
        ensures { self.new
            ≡ slice_set self.old axis (neg_ℤ (slice_index_or self.old axis (pos 0))) }
    {
        let steps = self.steps.as_mut_slice();
        steps[axis] = -steps[axis];
    }

    pub fn push(&mut self, step: isize) -> Result<(), AllocError>
        ensures ok { OnOk result (self.new ≡ self.old ++ step ∷ []) }
        ensures err { OnErr result (self.new ≡ self.old) }
    {
        self.steps.push(step)?;
        Ok(())
    }
}

/// The strides as Python writes a tuple: `()`, `(12,)`, `(-8, 4)`.
impl fmt::Display for Strides {
    ghost output = { λ s. Some (strides_text s) };

    fn fmt<W: fmt::Write>(&self, f: &mut fmt::Formatter<W>) -> fmt::Result {
        match self.as_slice() {
            [] => write!(f, "()"),
            [stride] => write!(f, "({stride},)"),
            [first, rest @ ..] => {
                write!(f, "({first}")?;
                for stride in rest {
                    write!(f, ", {stride}")?;
                }
                write!(f, ")")
            }
        }
    }
}
