//! What follows `X =` and shows the items of another array.
ghost use Rattle.script_lang.specs.Clauses.{plain_view_at, viewing_at, view_at, Takes, viewing_room, value_room};

use crate::command::{Value, Viewing};
use crate::grammar::indexes::index;
use crate::grammar::names::{name, names_unless_verb};
use crate::grammar::numbers::shape;
use crate::grammar::quotes::quoted;
use crate::grammar::tokens::{byte, is_at_end};
use crate::text::Text;
use crate::verb::ViewVerb;
use elem_descr::{Name, Refusal};
use std::alloc::Global;

/// `Y` or `Y[ix]`, given the word `Y` and what follows it.
#[tactic(auto, unfolding(crate::specs::Commands::plain_view_at, crate::specs::Indexes::optional_index_at), using(crate::proofs::Rooms::optional_index_list_room, crate::proofs::Commands::plain_view_room))]
pub fn plain_view<'a>(
    alloc: Global,
    word: &[u8],
    bytes: &'a [u8],
) -> Result<(Value, &'a [u8]), Refusal>
    ensures { Takes value_room result (plain_view_at word.now bytes.now) }
{
    if !names_unless_verb(word) {
        return Err(Refusal::Syntax);
    }
    let source = Name::from_slice(alloc, word);
    let Some(inside) = byte(b'[', bytes) else {
        let how = Viewing::Whole;
        return Ok((Value::View { source, how }, bytes));
    };
    let (index, rest) = index(alloc, inside)?;
    let how = Viewing::Indexed(index);
    Ok((Value::View { source, how }, rest))
}

/// How the items are viewed, after the name.
#[tactic(auto, unfolding(crate::specs::Commands::transpose_at), using(crate::proofs::Commands::field_room, crate::proofs::Commands::transpose_room, crate::proofs::Commands::reshape_room, crate::proofs::Commands::broadcast_room, crate::proofs::Shorter::length_shorter, crate::proofs::Shorter::integer_shorter))]
fn viewing(alloc: Global, verb: ViewVerb, bytes: &[u8]) -> Result<(Viewing, &[u8]), Refusal>
    ensures { Takes viewing_room result (viewing_at verb bytes.now) }
{
    match verb {
        ViewVerb::Field => {
            let (field, rest) = quoted(bytes).ok_or(Refusal::Syntax)?;
            let field = Text::from_slice(alloc, field)?;
            Ok((Viewing::Field(field), rest))
        }
        ViewVerb::Transpose if is_at_end(bytes) => Ok((Viewing::Transposed(None), bytes)),
        ViewVerb::Transpose => {
            let (axes, rest) = shape(alloc, bytes)?;
            Ok((Viewing::Transposed(Some(axes)), rest))
        }
        ViewVerb::Reshape => {
            let (shape, rest) = shape(alloc, bytes)?;
            Ok((Viewing::Reshaped(shape), rest))
        }
        ViewVerb::Broadcast => {
            let (shape, rest) = shape(alloc, bytes)?;
            Ok((Viewing::Broadcast(shape), rest))
        }
    }
}

/// A name, and how its array is viewed.
#[tactic(auto, unfolding(crate::specs::Commands::view_at), using(crate::proofs::Commands::view_room))]
pub fn view(alloc: Global, verb: ViewVerb, bytes: &[u8]) -> Result<(Value, &[u8]), Refusal>
    ensures { Takes value_room result (view_at verb bytes.now) }
{
    let (source, rest) = name(bytes).ok_or(Refusal::Syntax)?;
    let (how, rest) = viewing(alloc, verb, rest)?;
    let source = Name::from_slice(alloc, source);
    Ok((Value::View { source, how }, rest))
}
