//! Machine numbers: what they mean, how they are stored, and how a scalar selects their type.
#![tactic(auto)]

mod byte_orders;
mod dispatch;
mod kinds;
mod numbers;
mod sides;

pub use byte_orders::{HighFirst, LowFirst, Ordered};
pub use dispatch::{NumberTask, on_number};
pub use kinds::{is_bool, is_signed, is_text, little};
pub use numbers::Number;
pub use sides::{Side, place};
