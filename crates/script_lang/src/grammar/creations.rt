//! What follows `X =` and makes an array: `zeros`, `full`, `arange` and `array`.
ghost use Rattle.std.specs.Prelude.{◌≡◌, true};
ghost use Rattle.script_lang.specs.Clauses.{new_items_at, make_at, Takes, value_room};

use crate::command::{NewItems, Value};
use crate::grammar::descriptors::descr;
use crate::grammar::literals::{literal, literals};
use crate::grammar::numbers::{integer, shape};
use crate::text::Text;
use crate::verb::MakeVerb;
use elem_descr::Refusal;
use std::alloc::Global;

/// What the items are, after the descriptor.
#[tactic(auto, unfolding(crate::specs::Literals::literals_at), using(crate::proofs::Lists::any_list, crate::proofs::Shorter::length_shorter))]
fn new_items(alloc: Global, verb: MakeVerb, bytes: &[u8]) -> Result<(NewItems, &[u8]), Refusal>
    ensures { Takes (λ _. true) result (new_items_at verb bytes.now) }
{
    match verb {
        MakeVerb::Zeros => {
            let (shape, rest) = shape(alloc, bytes)?;
            Ok((NewItems::Zeros { shape }, rest))
        }
        MakeVerb::Full => {
            let (shape, rest) = shape(alloc, bytes)?;
            let (value, rest) = literal(alloc, rest)?;
            Ok((NewItems::Full { shape, value }, rest))
        }
        MakeVerb::Arange => {
            let (start, rest) = integer(bytes).ok_or(Refusal::Syntax)?;
            let (stop, rest) = integer(rest).ok_or(Refusal::Syntax)?;
            let (step, rest) = integer(rest).ok_or(Refusal::Syntax)?;
            Ok((NewItems::Arange { start, stop, step }, rest))
        }
        MakeVerb::Array => {
            let (shape, rest) = shape(alloc, bytes)?;
            let (values, rest) = literals(alloc, rest)?;
            Ok((NewItems::Array { shape, values }, rest))
        }
    }
}

/// A descriptor, and what the items are.
#[tactic(auto, unfolding(crate::specs::Commands::make_at), using(crate::proofs::Commands::make_room))]
pub fn make(alloc: Global, verb: MakeVerb, bytes: &[u8]) -> Result<(Value, &[u8]), Refusal>
    ensures { Takes value_room result (make_at verb bytes.now) }
{
    let (descr, rest) = descr(bytes).ok_or(Refusal::Syntax)?;
    let descr = Text::from_slice(alloc, descr)?;
    let (items, rest) = new_items(alloc, verb, rest)?;
    Ok((Value::Make { descr, items }, rest))
}
