//! Combines the items of two operands, pair by pair.
ghost use Rattle.std.specs.Prelude.{IfOk, true, ◌*◌, ◌≡◌, ◌≤◌};
ghost use Rattle.elementwise.specs.Words.{item_size, size};
ghost use Rattle.elementwise.specs.inside.PairPasses.{number_pair};
ghost use Rattle.elementwise.specs.inside.Operands.{AreAllMade, AreMatched, IsPaired, pairs_of};

use crate::fast::divisions::Divisions;
use crate::fast::even_texts::push_texts;
use crate::kernels::arithmetic::{
    Adding, BitwiseAnd, BitwiseOr, BitwiseXor, LeftShift, Multiplying, RightShift, Subtracting,
    SubtractingFrom,
};
use crate::kernels::casting::cast;
use crate::kernels::comparing::compare;
use crate::loops::numbers::append;
use crate::loops::row_pairs::Operands;
use crate::rules::promotion::integer_type;
use arrays::Owned;
use elem_descr::{BinOp, BytesLen, Comparison, Descr, MemoryOrder, Scalar, UnOp};
use machine_numbers::{LowFirst, Number, NumberTask, Ordered, is_bool, little, on_number};
use raw_block::BlockBuilder;
use std::alloc::{AllocError, Global};
use std::marker::PhantomData;

/// A function of two numbers of one type.
#[derive(Clone, Copy)]
pub(crate) enum Work {
    /// The result of an operation on them.
    Combine(BinOp),
    /// The result of an operation on the second of them.
    Change(UnOp),
    /// The result of a comparison of them.
    Compare(Comparison),
    /// The first of them, cast to another scalar of numbers.
    Cast(Scalar),
}

/// An operation on operands of one scalar, which appends its results.
struct Working<'a, 'b> {
    work: Work,
    /// Whether the numbers are bools.
    bools: bool,
    operands: Operands<'a, 'b>,
    block: BlockBuilder,
}

impl<'a, 'b> NumberTask for Working<'a, 'b> {
    ghost use Rattle.elementwise.specs.Clauses.{IsWork, is_bool, meaning, target};

    type Out = BlockBuilder;

    ghost Needs = { λ t scalar. IsWork t.work × (t.bools ≡ is_bool scalar)
        × (item_size t.operands.left.descr.now ≡ size scalar)
        × (item_size t.operands.right.descr.now ≡ size scalar)
        × (pairs_of t.operands * size (target t.work scalar) ≤ t.block.1) };

    ghost Gives = { λ t scalar block. AreAllMade
        (number_pair scalar scalar (target t.work scalar) (meaning t.work scalar))
        (size (target t.work scalar)) t.operands t.block block };

    #[inline(never)]
    fn run<N: Number, O: Ordered>(self) -> BlockBuilder {
        let Working {
            work,
            bools,
            operands,
            block,
        } = self;
        match work {
            Work::Combine(op) => match op {
                BinOp::Add => append::<Adding, N, N, N, O, LowFirst>(block, operands),
                BinOp::Subtract => append::<Subtracting, N, N, N, O, LowFirst>(block, operands),
                BinOp::Multiply => append::<Multiplying, N, N, N, O, LowFirst>(block, operands),
                BinOp::FloorDivide => operands.push_all(
                    &Divisions::<false, N, O>(PhantomData),
                    block,
                ),
                BinOp::Modulo => operands.push_all(&Divisions::<true, N, O>(PhantomData), block),
                BinOp::And => append::<BitwiseAnd, N, N, N, O, LowFirst>(block, operands),
                BinOp::Or => append::<BitwiseOr, N, N, N, O, LowFirst>(block, operands),
                BinOp::Xor => append::<BitwiseXor, N, N, N, O, LowFirst>(block, operands),
                BinOp::ShiftLeft => append::<LeftShift, N, N, N, O, LowFirst>(block, operands),
                BinOp::ShiftRight => append::<RightShift, N, N, N, O, LowFirst>(block, operands),
                BinOp::Divide => unreachable!(),
            },
            Work::Change(op) => match op {
                UnOp::Negate => append::<SubtractingFrom<0>, N, N, N, O, LowFirst>(block, operands),
                UnOp::Invert if bools => append::<SubtractingFrom<1>, N, N, N, O, LowFirst>(
                    block, operands,
                ),
                UnOp::Invert => append::<SubtractingFrom<{ u64::MAX }>, N, N, N, O, LowFirst>(
                    block, operands,
                ),
            },
            Work::Compare(comparison) => compare::<N, N, O>(comparison, block, operands),
            Work::Cast(to) => cast::<N, O>(&to, block, operands),
        }
    }
}

/// A function of pairs of values of two scalars.
#[derive(Clone, Copy)]
pub(crate) enum Pairing {
    /// A function of numbers of one scalar.
    Alike {
        work: Work,
        scalar: Scalar,
    },
    /// A comparison of little-endian integers of eight bytes: signed ones on one side, and unsigned
    /// ones on the other.
    Signs {
        comparison: Comparison,
        left_signed: bool,
    },
    /// A comparison of byte strings of these lengths.
    Texts {
        comparison: Comparison,
        width: BytesLen,
        other_width: BytesLen,
    },
}

impl Pairing {
    ghost use Rattle.elementwise.specs.inside.Works.{left_of, right_of, target_of, pair_made, CanPair};

    /// The scalar of the first items.
    pub(crate) fn left(&self) -> Scalar
        ensures { result ≡ left_of self.now }
    {
        match self {
            Pairing::Alike { scalar, .. } => *scalar,
            Pairing::Signs { left_signed, .. } => integer_type(*left_signed, 8),
            Pairing::Texts { width, .. } => Scalar::Bytes(*width),
        }
    }

    /// The scalar of the second items.
    pub(crate) fn right(&self) -> Scalar
        ensures { result ≡ right_of self.now }
    {
        match self {
            Pairing::Alike { scalar, .. } => *scalar,
            Pairing::Signs { left_signed, .. } => integer_type(!*left_signed, 8),
            Pairing::Texts { other_width, .. } => Scalar::Bytes(*other_width),
        }
    }

    /// The scalar of the results.
    pub(crate) fn target(&self) -> Scalar
        ensures { result ≡ target_of self.now }
    {
        match self {
            Pairing::Alike { work, scalar } => match work {
                Work::Combine(_) | Work::Change(_) => little(scalar),
                Work::Compare(_) => Scalar::Bool,
                Work::Cast(to) => *to,
            },
            _ => Scalar::Bool,
        }
    }

    /// Appends the result for each pair of items.
    pub(crate) fn push(&self, block: BlockBuilder, operands: Operands<'_, '_>) -> BlockBuilder
        requires can { CanPair self.now }
        requires left { item_size operands.left.descr.now ≡ size (left_of self.now) }
        requires right { item_size operands.right.descr.now ≡ size (right_of self.now) }
        requires room { pairs_of operands * size (target_of self.now) ≤ block.1 }
        ensures { AreAllMade (pair_made self.now) (size (target_of self.now)) operands.entry block
            result }
    {
        match self {
            Pairing::Alike { work, scalar } => {
                let task = Working {
                    work: *work,
                    bools: is_bool(scalar),
                    operands,
                    block,
                };
                on_number(scalar, task)
            }
            Pairing::Signs {
                comparison,
                left_signed: true,
            } => compare::<i64, u64, LowFirst>(*comparison, block, operands),
            Pairing::Signs {
                comparison,
                left_signed: false,
            } => compare::<u64, i64, LowFirst>(*comparison, block, operands),
            Pairing::Texts { comparison, .. } => push_texts(*comparison, block, operands),
        }
    }
}

/// Combines all pairs row by row.
pub(crate) fn made_by_rows(
    alloc: Global,
    pairing: &Pairing,
    operands: Operands<'_, '_>,
) -> Result<Owned, AllocError>
    requires { AreMatched pairing.now operands }
    ensures { IfOk result (IsPaired pairing.now operands.entry) }
{
    let shape = &operands.left.layout.shape;
    let scalar = pairing.target();
    let block = BlockBuilder::try_new(alloc, shape.items() * scalar.size())?;
    let block = pairing.push(block, operands).finish();
    Owned::over(alloc, Descr::Scalar(scalar), shape, MemoryOrder::C, block)
}
