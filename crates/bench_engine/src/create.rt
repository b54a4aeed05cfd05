//! `X = zeros ..`, `full`, `arange`, `array`: bind a name to a new array.
ghost use Rattle.std.specs.Prelude.{◌≡◌, IfOk, ◌≤◌, ◌-◌, ◌*◌, List, ℕ, length, map, min, replicate, true};
ghost use Rattle.bench_engine.specs.Clauses.{Gives, Answers, item_size, decode_item, item_value, item_values, blocks, IsNumber, size, max_bytes, max_items, count, shape_of, range_count, range_items, has_room_for, ScalarDescr, array_type, zeros_contents, full_contents, array_contents, arange_contents, contents_of, integer_scalar, range_scalar, held, CarriesOut, bound_new, creation_outcome, Counts};

use crate::replies::{Origin, set_bound_text};
use crate::reply_text::ReplyText;
use arrays::{Owned, bytes_of};
use elem_descr::{Descr, MemoryOrder, Name, Refusal, Scalar, descr_read};
use literal_items::{range_block, range_len, write_item, write_items};
use name_store::{Bench, Bound};
use raw_block::{BlockBuilder, RawBlock};
use script_lang::{Lengths, Literal, Literals, NewItems, Text};
use shape_strides::Shape;
use smallvec::{SmallVec, smallvec};
use std::alloc::{AllocError, Global};

/// The bytes of a literal as an item.
pub fn item_of(alloc: Global, descr: &Descr, literal: &Literal) -> Result<SmallVec<u8, 16>, Refusal>
    ensures value { Gives (λ item. decode_item descr.now item.items) result
        (item_value descr.now literal.now) }
    ensures len { IfOk result (λ item. length item.items ≡ item_size descr.now) }
{
    let mut item = smallvec![in alloc; 0u8; descr.size()]?;
    write_item(descr, literal, item.as_mut_slice())?;
    Ok(item)
}

/// The shape with the lengths that a script gives. A length that is too large becomes the largest
/// machine number.
pub fn shape_of(alloc: Global, lengths: &Lengths) -> Result<Shape, Refusal>
    ensures { Gives (λ s. s) result (shape_of lengths.now) }
{
    let mut axes: SmallVec<usize, 4> = SmallVec::new(alloc);
    for length in lengths.as_slice() {
        axes.push((*length).min(u128::from(u64::MAX)) as usize)?;
    }
    Shape::try_new(alloc, axes.as_slice())
}

/// The element type and the shape of a new array. The type is refused before the shape.
pub fn array_type(
    alloc: Global,
    descr: &[u8],
    shape: Result<Shape, Refusal>,
) -> Result<(Descr, Shape), Refusal>
    ensures value { (lengths : List ℕ) → Gives (λ s. s) shape (shape_of lengths)
        → Gives (λ t. (t.0, t.1)) result (array_type descr.now lengths) }
    ensures bytes { IfOk result (λ t. count t.1 * item_size t.0 ≤ max_bytes) }
{
    let descr = descr_read(alloc, descr)?;
    let shape = shape?;
    bytes_of(shape.items(), &descr)?;
    Ok((descr, shape))
}

/// The same for the text and the lengths that a script gives.
fn type_in_script(alloc: Global, descr: &Text, lengths: &Lengths) -> Result<(Descr, Shape), Refusal>
    ensures value { Gives (λ t. (t.0, t.1)) result (array_type descr.now lengths.now) }
    ensures bytes { IfOk result (λ t. count t.1 * item_size t.0 ≤ max_bytes) }
{
    array_type(alloc, descr.as_slice(), shape_of(alloc, lengths))
}

/// `zeros D S`
fn zeros(alloc: Global, descr: &Text, lengths: &Lengths) -> Result<Owned, Refusal>
    ensures { Gives held result (zeros_contents descr.now lengths.now) }
{
    let (descr, shape) = type_in_script(alloc, descr, lengths)?;
    Owned::zeroed(alloc, descr, &shape)
}

/// A block of `items` items with these bytes.
pub fn filled(alloc: Global, item: &[u8], items: usize) -> Result<RawBlock, AllocError>
    requires bytes { items * length item.now ≤ max_bytes }
    ensures whole { IfOk result (λ block. length block ≡ items * length item.now) }
    ensures items { IfOk result (λ block. blocks (length item.now) items block
        ≡ replicate items item.now) }
{
    let mut block = BlockBuilder::try_new(alloc, items * item.len())?;
    block.push_repeated(item, items);
    Ok(block.finish())
}

/// `full D S L`
fn full(alloc: Global, descr: &Text, lengths: &Lengths, literal: &Literal) -> Result<Owned, Refusal>
    ensures { Gives held result (full_contents descr.now lengths.now literal.now) }
{
    let (descr, shape) = type_in_script(alloc, descr, lengths)?;
    let item = item_of(alloc, &descr, literal)?;
    let block = filled(alloc, item.as_slice(), shape.items())?;
    drop(item);
    Ok(Owned::over(alloc, descr, &shape, MemoryOrder::C, block)?)
}

/// A block of the items that these literals mean, one after another.
fn listed(alloc: Global, descr: &Descr, literals: &[Literal]) -> Result<RawBlock, Refusal>
    requires bytes { length literals.now * item_size descr.now ≤ max_bytes }
    ensures whole { IfOk result
        (λ block. length block ≡ length literals.now * item_size descr.now) }
    ensures items { Gives (λ block.
        map (decode_item descr.now) (blocks (item_size descr.now) (length literals.now) block))
        result (item_values descr.now literals.now) }
{
    let mut block = RawBlock::try_zeroed(alloc, literals.len() * descr.size())?;
    write_items(descr, literals, block.bytes_mut())?;
    Ok(block)
}

/// `array D S L..`
fn array(
    alloc: Global,
    descr: &Text,
    lengths: &Lengths,
    literals: &Literals,
) -> Result<Owned, Refusal>
    ensures { Gives held result (array_contents descr.now lengths.now literals.now) }
{
    let (descr, shape) = type_in_script(alloc, descr, lengths)?;
    let literals = literals.as_slice();
    if literals.len() != shape.items() {
        return Err(Refusal::NumberOfValues);
    }
    let block = listed(alloc, &descr, literals)?;
    Ok(Owned::over(alloc, descr, &shape, MemoryOrder::C, block)?)
}

/// The scalar of an integer element type.
fn integer_scalar(descr: &Descr) -> Result<Scalar, Refusal>
    ensures value { Answers (λ scalar. scalar) result (integer_scalar descr.now) }
    ensures number { IfOk result IsNumber }
{
    match descr {
        Descr::Scalar(scalar) => match scalar {
            Scalar::Byte { .. } | Scalar::Int { .. } => Ok(*scalar),
            Scalar::Bool | Scalar::Bytes(_) => Err(Refusal::NotForThisKind),
        },
        Descr::Record(_) => Err(Refusal::NotForThisKind),
    }
}

/// `arange D a b s`
fn arange(
    alloc: Global,
    descr: &Text,
    start: &i128,
    stop: &i128,
    step: &i128,
) -> Result<Owned, Refusal>
    ensures { Gives held result (arange_contents descr.now start.now stop.now step.now) }
{
    let descr = descr_read(alloc, descr.as_slice())?;
    let scalar = integer_scalar(&descr)?;
    let len = range_len(start, stop, step)?;
    let shape = Shape::try_new(alloc, &[len])?;
    let block = range_block(alloc, &scalar, start, stop, step)?;
    Ok(Owned::over(alloc, Descr::Scalar(scalar), &shape, MemoryOrder::C, block)?)
}

/// The array that a creating command describes.
fn contents_of(alloc: Global, descr: &Text, items: &NewItems) -> Result<Owned, Refusal>
    ensures { Gives held result (contents_of descr.now items.now) }
{
    match items {
        NewItems::Zeros { shape } => zeros(alloc, descr, shape),
        NewItems::Full { shape, value } => full(alloc, descr, shape, value),
        NewItems::Arange { start, stop, step } => arange(alloc, descr, start, stop, step),
        NewItems::Array { shape, values } => array(alloc, descr, shape, values),
    }
}

/// Binds a name, for which there is room, to a new array. The reply is made before the change,
/// which is the last step that may run out of memory.
pub fn bind_new(
    bench: &mut Bench,
    name: &Name,
    owned: Owned,
    origin: Origin,
    out: &mut ReplyText,
) -> Result<(), Refusal>
    requires room { has_room_for bench.old.state name.now ≡ true }
    ensures answers { CarriesOut true
        (λ choice. bound_new choice bench.old.state name.now origin (held owned))
        bench.old.state bench.new.state out.new result }
    ensures patches { Counts 0 bench.old result bench.new }
{
    set_bound_text(out, name, &owned.descr, &owned.layout.shape, origin)?;
    bench.bind(name, Bound::Fresh(owned))
}

/// Binds a name to a new array.
pub fn make(
    bench: &mut Bench,
    name: &Name,
    descr: &Text,
    items: &NewItems,
    out: &mut ReplyText,
) -> Result<(), Refusal>
    ensures answers { CarriesOut true
        (λ choice.
        creation_outcome choice bench.old.state name.now (contents_of descr.now items.now))
        bench.old.state bench.new.state out.new result }
    ensures patches { Counts 0 bench.old result bench.new }
{
    if !bench.has_room_for(name) {
        return Err(Refusal::TooManyNames);
    }
    let owned = contents_of(out.allocator(), descr, items)?;
    bind_new(bench, name, owned, Origin::New, out)
}
