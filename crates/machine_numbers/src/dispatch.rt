//! Work on numbers whose type is known only at run time, from a scalar: the one place that goes
//! from a scalar to a Rust type.
ghost use Rattle.elem_descr.specs.declared.scalar.Scalar.{Scalar};
ghost use Rattle.elem_descr.specs.Encoding.{IsNumber};

use crate::byte_orders::{HighFirst, LowFirst, Ordered};
use crate::numbers::Number;
use elem_descr::{Order, Scalar, Width};

/// Work on numbers of any type, in either byte order.
pub trait NumberTask {
    /// What the work returns.
    type Out;

    // What the work requires of a scalar.
    ghost Needs: { Self → Scalar → Type 0 };

    // What the work ensures of its result.
    ghost Gives: { Self → Scalar → Self.Out → Type 0 };

    fn run<N: Number, O: Ordered>(self) -> Self::Out
        requires { Needs self (N.scalar O.order) }
        ensures { Gives self (N.scalar O.order) result };
}

/// Does the work for the type that a scalar of numbers selects.
pub fn on_number<T: NumberTask>(scalar: &Scalar, task: T) -> T::Out
    requires number { IsNumber scalar.now }
    requires needs { T.Needs task scalar.now }
    ensures { T.Gives task scalar.now result }
{
    match scalar {
        Scalar::Bool => task.run::<bool, LowFirst>(),
        Scalar::Byte { signed: false } => task.run::<u8, LowFirst>(),
        Scalar::Byte { signed: true } => task.run::<i8, LowFirst>(),
        Scalar::Int {
            signed,
            width,
            order,
        } => match (*signed, *width, *order) {
            (false, Width::Two, Order::Little) => task.run::<u16, LowFirst>(),
            (false, Width::Two, Order::Big) => task.run::<u16, HighFirst>(),
            (false, Width::Four, Order::Little) => task.run::<u32, LowFirst>(),
            (false, Width::Four, Order::Big) => task.run::<u32, HighFirst>(),
            (false, Width::Eight, Order::Little) => task.run::<u64, LowFirst>(),
            (false, Width::Eight, Order::Big) => task.run::<u64, HighFirst>(),
            (true, Width::Two, Order::Little) => task.run::<i16, LowFirst>(),
            (true, Width::Two, Order::Big) => task.run::<i16, HighFirst>(),
            (true, Width::Four, Order::Little) => task.run::<i32, LowFirst>(),
            (true, Width::Four, Order::Big) => task.run::<i32, HighFirst>(),
            (true, Width::Eight, Order::Little) => task.run::<i64, LowFirst>(),
            (true, Width::Eight, Order::Big) => task.run::<i64, HighFirst>(),
        },
        Scalar::Bytes(_) => unreachable!(),
    }
}
