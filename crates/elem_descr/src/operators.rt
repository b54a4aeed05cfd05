//! The operators: operations, comparisons and reductions; and the order of items in memory.

/// The operations with two operands.
#[derive(Clone, Copy, Debug)]
pub enum BinOp {
    Add,
    Subtract,
    Multiply,
    FloorDivide,
    Modulo,
    And,
    Or,
    Xor,
    ShiftLeft,
    ShiftRight,
    /// True division, which needs floats.
    Divide,
}

/// The comparisons of two operands.
#[derive(Clone, Copy, Debug)]
pub enum Comparison {
    Equal,
    NotEqual,
    Less,
    LessOrEqual,
    Greater,
    GreaterOrEqual,
}

/// The operations with one operand.
#[derive(Clone, Copy, Debug)]
pub enum UnOp {
    Negate,
    Invert,
}

/// The reductions.
#[derive(Clone, Copy, Debug)]
pub enum Red {
    Sum,
    Product,
    Minimum,
    Maximum,
    Any,
    All,
    ArgMin,
    ArgMax,
}

/// The order of adjacent items of an array: the last axis changes fastest, or the first.
#[derive(Clone, Copy, Debug, PartialEq, Eq, Drop)]
pub enum MemoryOrder {
    C,
    Fortran,
}
