//! What a program needs from its process: its arguments, its stack, and reads and writes that signals
//! do not interrupt.
#![tactic(auto)]

mod command_line;
mod retrying;
mod stack;
mod words;

pub use command_line::given_options;
pub use retrying::Retrying;
pub use stack::has_stack;
pub use words::{Options, OptionsFault};
