//! The keywords that begin a command or follow `X =`.

use crate::command::Operation;
use crate::command::Operation::{Binary, Compare};
use crate::verb::ComputeVerb::{Cast, Combine, Duplicate, Reduce, Transform};
use crate::verb::Verb::Compute;
use elem_descr::BinOp::{
    Add, And, Divide, FloorDivide, Modulo, Multiply, Or, ShiftLeft, ShiftRight, Subtract, Xor,
};
use elem_descr::Comparison::{Equal, Greater, GreaterOrEqual, Less, LessOrEqual, NotEqual};
use elem_descr::{Red, UnOp};

/// A keyword that begins a command or follows `X =`.
#[derive(Clone, Copy)]
pub enum Verb {
    Make(MakeVerb),
    View(ViewVerb),
    Compute(ComputeVerb),
    Load,
    Set,
    Update,
    Delete,
    Undo,
    Save,
    Ask(AskVerb),
}

/// A keyword that makes an array.
#[derive(Clone, Copy)]
pub enum MakeVerb {
    Zeros,
    Full,
    Arange,
    Array,
}

/// A keyword that views another array.
#[derive(Clone, Copy)]
pub enum ViewVerb {
    Field,
    Transpose,
    Reshape,
    Broadcast,
}

/// A keyword that computes.
#[derive(Clone, Copy)]
pub enum ComputeVerb {
    Duplicate,
    Cast,
    Combine(Operation),
    Transform(UnOp),
    Reduce(Red),
}

/// A keyword that asks for something.
#[derive(Clone, Copy)]
pub enum AskVerb {
    Print,
    Info,
    Format,
    Names,
    Shares,
}

/// The keywords of two letters that begin a command or follow `X =`.
pub const TWO_LETTERS: [(&[u8], Verb); 7] = [
    (b"or", Compute(Combine(Binary(Or)))),
    (b"eq", Compute(Combine(Compare(Equal)))),
    (b"ne", Compute(Combine(Compare(NotEqual)))),
    (b"lt", Compute(Combine(Compare(Less)))),
    (b"le", Compute(Combine(Compare(LessOrEqual)))),
    (b"gt", Compute(Combine(Compare(Greater)))),
    (b"ge", Compute(Combine(Compare(GreaterOrEqual)))),
];

/// The keywords of three letters that begin a command or follow `X =`.
pub const THREE_LETTERS: [(&[u8], Verb); 19] = [
    (b"set", Verb::Set),
    (b"upd", Verb::Update),
    (b"del", Verb::Delete),
    (b"add", Compute(Combine(Binary(Add)))),
    (b"sub", Compute(Combine(Binary(Subtract)))),
    (b"mul", Compute(Combine(Binary(Multiply)))),
    (b"mod", Compute(Combine(Binary(Modulo)))),
    (b"and", Compute(Combine(Binary(And)))),
    (b"xor", Compute(Combine(Binary(Xor)))),
    (b"shl", Compute(Combine(Binary(ShiftLeft)))),
    (b"shr", Compute(Combine(Binary(ShiftRight)))),
    (b"div", Compute(Combine(Binary(Divide)))),
    (b"neg", Compute(Transform(UnOp::Negate))),
    (b"not", Compute(Transform(UnOp::Invert))),
    (b"sum", Compute(Reduce(Red::Sum))),
    (b"min", Compute(Reduce(Red::Minimum))),
    (b"max", Compute(Reduce(Red::Maximum))),
    (b"any", Compute(Reduce(Red::Any))),
    (b"all", Compute(Reduce(Red::All))),
];

/// The keywords of four letters that begin a command or follow `X =`.
pub const FOUR_LETTERS: [(&[u8], Verb); 9] = [
    (b"full", Verb::Make(MakeVerb::Full)),
    (b"copy", Compute(Duplicate)),
    (b"cast", Compute(Cast)),
    (b"load", Verb::Load),
    (b"undo", Verb::Undo),
    (b"save", Verb::Save),
    (b"info", Verb::Ask(AskVerb::Info)),
    (b"fdiv", Compute(Combine(Binary(FloorDivide)))),
    (b"prod", Compute(Reduce(Red::Product))),
];

/// The keywords of five letters or more that begin a command or follow `X =`.
pub const MORE_LETTERS: [(&[u8], Verb); 13] = [
    (b"zeros", Verb::Make(MakeVerb::Zeros)),
    (b"arange", Verb::Make(MakeVerb::Arange)),
    (b"array", Verb::Make(MakeVerb::Array)),
    (b"field", Verb::View(ViewVerb::Field)),
    (b"transpose", Verb::View(ViewVerb::Transpose)),
    (b"reshape", Verb::View(ViewVerb::Reshape)),
    (b"broadcast", Verb::View(ViewVerb::Broadcast)),
    (b"print", Verb::Ask(AskVerb::Print)),
    (b"format", Verb::Ask(AskVerb::Format)),
    (b"names", Verb::Ask(AskVerb::Names)),
    (b"shares", Verb::Ask(AskVerb::Shares)),
    (b"argmin", Compute(Reduce(Red::ArgMin))),
    (b"argmax", Compute(Reduce(Red::ArgMax))),
];
