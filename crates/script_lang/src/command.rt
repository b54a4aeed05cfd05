//! The commands of a script, with their index lists and lists of numbers.

use crate::literal::{Literal, Literals};
use crate::short_list::ShortList;
use crate::text::{FileName, Text};
use elem_descr::{BinOp, Comparison, IndexItem, MemoryOrder, Name, Red, UnOp};

/// `Y` or `Y[ix]`
#[derive(Drop)]
pub struct Operand {
    pub name: Name,
    pub index: Option<Index>,
}

/// What an operation takes or a command writes: an operand or a literal.
#[derive(Drop)]
pub enum Argument {
    Operand(Operand),
    Literal(Literal),
}

/// What the items of a new array are, after its descriptor.
#[derive(Drop)]
pub enum NewItems {
    /// `zeros D S`
    Zeros { shape: Lengths },
    /// `full D S L`
    Full { shape: Lengths, value: Literal },
    /// `arange D a b s`
    Arange { start: i128, stop: i128, step: i128 },
    /// `array D S L..`
    Array { shape: Lengths, values: Literals },
}

/// How another array is viewed.
#[derive(Drop)]
pub enum Viewing {
    /// `Y`
    Whole,
    /// `Y[ix]`
    Indexed(Index),
    /// `field Y "f"`
    Field(Text),
    /// `transpose Y [(axes)]`
    Transposed(Option<Integers>),
    /// `reshape Y S`
    Reshaped(Integers),
    /// `broadcast Y S`
    Broadcast(Lengths),
}

/// What is computed from other arrays.
#[derive(Drop)]
pub enum Computation {
    /// `copy Y C` or `F`
    Duplicate {
        source: Name,
        order: MemoryOrder,
    },
    /// `cast Y D`
    Cast {
        source: Name,
        descr: Text,
    },
    /// `OP operand Z`
    Combine {
        operation: Operation,
        left: Operand,
        right: Argument,
    },
    /// `neg operand` or `not`
    Transform {
        operation: UnOp,
        operand: Operand,
    },
    /// `RED Y [axis] [keep]`
    Reduce {
        reduction: Red,
        source: Name,
        axis: Option<i128>,
        keep: bool,
    },
}

/// What follows `X =`.
#[derive(Drop)]
pub enum Value {
    /// a new array
    Make { descr: Text, items: NewItems },
    /// the items of another array
    View { source: Name, how: Viewing },
    Compute(Computation),
    /// `load "f"`
    Load { file: FileName },
}

/// What a command that changes nothing asks for.
#[derive(Drop)]
pub enum Question {
    /// `print X`
    Print { name: Name },
    /// `info X`
    Info { name: Name },
    /// `format X`
    Format { name: Name },
    /// `names`
    Names,
    /// `shares X Y`
    Shares { left: Name, right: Name },
}

/// A command of the script. Descriptors stay texts until the command is carried out.
#[derive(Drop)]
pub enum Command {
    /// `X = ..`
    Bind {
        name: Name,
        value: Value,
    },
    /// `set X[ix] = Z`
    Set {
        name: Name,
        index: Index,
        value: Argument,
    },
    /// `upd X[ix] OP Z`
    Update {
        name: Name,
        index: Index,
        operation: Operation,
        value: Argument,
    },
    /// `del X`
    Delete {
        name: Name,
    },
    /// `undo`
    Undo,
    /// `save X "f"`
    Save {
        name: Name,
        file: FileName,
    },
    Ask(Question),
}

/// An operator with two operands: an operation or a comparison.
#[derive(Clone, Copy, Debug)]
pub enum Operation {
    Binary(BinOp),
    Compare(Comparison),
}

/// The lengths of a shape.
pub type Lengths = ShortList<u128, 8>;

/// The lengths of `reshape` or the axes of `transpose`, which may have signs.
pub type Integers = ShortList<i128, 8>;

/// The items between the brackets: at least one, with `...` at most once. Integers have up to 30
/// digits, and arrays are given by their names.
pub type Index = ShortList<IndexItem<Name>, 1>;
