//! What follows `X =` and computes: `copy`, `cast`, operations and reductions.
ghost use Rattle.std.specs.Prelude.{◌≡◌};
ghost use Rattle.script_lang.specs.Clauses.{Compute, computation_at, one_part, Takes, value_room};

use crate::command::{Computation, Value};
use crate::grammar::descriptors::descr;
use crate::grammar::indexes::{argument, operand};
use crate::grammar::names::{order, owned_name};
use crate::grammar::numbers::optional_integer;
use crate::grammar::tokens::{flag, word};
use crate::text::Text;
use crate::verb::ComputeVerb;
use elem_descr::Refusal;
use std::alloc::Global;

/// The computation that the verb begins.
#[tactic(auto, using(crate::proofs::Commands::cast_room, crate::proofs::Commands::left_room, crate::proofs::Commands::right_room, crate::proofs::Commands::transform_room))]
pub fn compute(alloc: Global, verb: ComputeVerb, bytes: &[u8]) -> Result<(Value, &[u8]), Refusal>
    ensures { Takes value_room result (one_part Compute (computation_at verb) bytes.now) }
{
    match verb {
        ComputeVerb::Duplicate => {
            let (source, rest) = owned_name(alloc, bytes).ok_or(Refusal::Syntax)?;
            let (word, rest) = word(rest).ok_or(Refusal::Syntax)?;
            let order = order(word).ok_or(Refusal::Syntax)?;
            Ok((
                Value::Compute(Computation::Duplicate { source, order }),
                rest,
            ))
        }
        ComputeVerb::Cast => {
            let (source, rest) = owned_name(alloc, bytes).ok_or(Refusal::Syntax)?;
            let (descr, rest) = descr(rest).ok_or(Refusal::Syntax)?;
            let descr = Text::from_slice(alloc, descr)?;
            Ok((Value::Compute(Computation::Cast { source, descr }), rest))
        }
        ComputeVerb::Combine(operation) => {
            let (left, rest) = operand(alloc, bytes)?;
            let (right, rest) = argument(alloc, rest)?;
            let combined = Computation::Combine {
                operation,
                left,
                right,
            };
            Ok((Value::Compute(combined), rest))
        }
        ComputeVerb::Transform(operation) => {
            let (operand, rest) = operand(alloc, bytes)?;
            Ok((
                Value::Compute(Computation::Transform { operation, operand }),
                rest,
            ))
        }
        ComputeVerb::Reduce(reduction) => {
            let (source, rest) = owned_name(alloc, bytes).ok_or(Refusal::Syntax)?;
            let (axis, rest) = optional_integer(rest);
            let (keep, rest) = flag(b"keep", rest);
            let reduced = Computation::Reduce {
                reduction,
                source,
                axis,
                keep,
            };
            Ok((Value::Compute(reduced), rest))
        }
    }
}
