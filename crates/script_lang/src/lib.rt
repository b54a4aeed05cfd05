//! The script's language: the commands, and the grammar of a line.
#![tactic(auto)]

mod command;
mod grammar;
mod literal;
mod short_list;
mod text;
mod verb;

pub use command::{
    Argument, Command, Computation, Index, Integers, Lengths, NewItems, Operand, Operation,
    Question, Value, Viewing,
};
pub use grammar::parse;
pub use literal::{ByteText, Literal, Literals, RecordLiteral, ScalarLiteral};
pub use short_list::ShortList;
pub use text::{FileName, Text, word};
