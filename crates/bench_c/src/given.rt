//! Arrays that are given by their type, their shape and the bytes of their items.
ghost use Rattle.std.specs.Prelude.{true};
ghost use Rattle.bench_c.specs.Clauses.{Answers, CarriesOut, Gives, asks, deleted, given_contents, held, named, put_outcome};

use arrays::Owned;
use bench_engine::{Origin, ReplyText, array_type, bind_new};
use elem_descr::{LONGEST_NAME, MemoryOrder, Name, Refusal};
use name_store::Bench;
use raw_block::RawBlock;
use script_lang::{Command, parse};
use shape_strides::Shape;
use std::alloc::Global;

/// An array as C gives it: its type as a script writes it, the lengths of its axes, and the bytes
/// of its items in C order.
#[repr(C)]
#[derive(Clone, Copy, Drop)]
pub struct GivenArray<'a> {
    pub descr: &'a [u8],
    pub shape: &'a [usize],
    pub items: &'a [u8],
}

/// The name that a command deletes.
fn deleted(command: Command) -> Result<Name, Refusal>
    ensures { Answers (λ name. name) result (deleted (asks command)) }
{
    match command {
        Command::Delete { name } => Ok(name),
        _ => Err(Refusal::Syntax),
    }
}

/// The name in the line `del NAME`.
fn named(alloc: Global, name: &[u8]) -> Result<Name, Refusal>
    ensures { Gives (λ name. name) result (named name.now) }
{
    if name.len() > LONGEST_NAME {
        return Err(Refusal::Syntax);
    }
    let mut line = Vec::from_slice(alloc, b"del ")?;
    line.extend_from_slice(name)?;
    match parse(alloc, line.as_slice())? {
        Some(command) => deleted(command),
        None => Err(Refusal::Syntax),
    }
}

/// The array that is given.
fn owned_of(alloc: Global, array: &GivenArray<'_>) -> Result<Owned, Refusal>
    ensures { Gives held result
        (given_contents array.now.descr.now array.now.shape.now array.now.items.now) }
{
    let shape = Shape::try_new(alloc, array.shape);
    let (descr, shape) = array_type(alloc, array.descr, shape)?;
    if array.items.len() != shape.items() * descr.size() {
        return Err(Refusal::NumberOfValues);
    }
    let block = RawBlock::try_copied(alloc, array.items)?;
    Ok(Owned::over(alloc, descr, &shape, MemoryOrder::C, block)?)
}

/// Binds a name to the array that is given, and makes the reply.
pub fn bind_given(
    bench: &mut Bench,
    name: &[u8],
    array: &GivenArray<'_>,
    out: &mut ReplyText,
) -> Result<(), Refusal>
    ensures { CarriesOut true (λ choice. put_outcome choice bench.old.state name.now
        (given_contents array.now.descr.now array.now.shape.now array.now.items.now))
        bench.old.state bench.new.state out.new result }
{
    let alloc = out.allocator();
    let name = named(alloc, name)?;
    if !bench.has_room_for(&name) {
        return Err(Refusal::TooManyNames);
    }
    let owned = owned_of(alloc, array)?;
    bind_new(bench, &name, owned, Origin::New, out)
}
