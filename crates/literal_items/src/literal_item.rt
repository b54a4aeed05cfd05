//! Literals as items of a descriptor.
ghost use Rattle.std.specs.Prelude.{Err, IfOk, MatchResult, Ok, OnErr, drop, length, map, replicate, take, true, ◌*◌, ◌++◌, ◌+◌, ◌≡◌, ◌≤◌};
ghost use Rattle.literal_items.specs.Clauses.{RecordDescr, can_be_item, can_hold, field_values, is_castable, item_passes, item_value, item_values, leaf_value, values_of, AreInOrder, IsLegal, LiteralOutOfRange, all_values, blocks, decode_item, encode_item, item_size, leaves_from, leaves_of, listed, moved_leaf, can_be_field, field_value, passes, stand_for, stands_for, put_leaves, list_all};

use crate::leaf::{Test, passes, write_leaf};
use elem_descr::{Descr, Field, Leaf, Record, Refusal};
use script_lang::{Literal, ScalarLiteral};

/// Whether a literal matches a field of a record, and each scalar passes the test.
#[cycle(stand_for)]
fn stands_for(test: Test, descr: &Descr, literal: &Literal) -> bool
    ensures { result ≡ stands_for (passes test) descr.now literal.now }
{
    match (descr, literal) {
        (Descr::Scalar(scalar), Literal::Scalar(value)) => passes(test, scalar, value),
        (Descr::Record(structure), Literal::Record(values)) => {
            stand_for(test, structure.fields(), values.as_slice())
        }
        _ => false,
    }
}

/// Whether the literals match the fields one by one, and each scalar passes the test.
#[cycle(stand_for)]
fn stand_for(test: Test, fields: &[Field], literals: &[Literal]) -> bool
    ensures { result ≡ stand_for (passes test) (listed fields.now) (all_values literals.now) }
{
    if fields.len() != literals.len() {
        return false;
    }
    for (k, field) in fields.iter().enumerate() {
        if !stands_for(test, &field.descr, &literals[k]) {
            return false;
        }
    }
    true
}

/// Whether each leaf passes the test with the literal.
fn all_pass(test: Test, leaves: &[Leaf], literal: &ScalarLiteral) -> bool
    ensures { result ≡ list_all (λ leaf. passes test leaf.scalar literal.now) leaves.now }
{
    leaves
        .iter()
        .all(|leaf| passes(test, &leaf.scalar, literal))
}

/// Whether the literal matches an item of the descriptor, and each leaf passes the test.
fn item_passes(test: Test, descr: &Descr, literal: &Literal) -> bool
    ensures { result ≡ item_passes (passes test) descr.now literal.now }
{
    match (descr, literal) {
        (Descr::Record(structure), Literal::Scalar(value)) => {
            all_pass(test, structure.leaves(), value)
        }
        _ => stands_for(test, descr, literal),
    }
}

/// Whether the literal can be an item of the descriptor; otherwise it is refused as `NoSuchCast`.
pub fn can_be_item(descr: &Descr, literal: &Literal) -> bool
    ensures { result ≡ can_be_item descr.now literal.now }
{
    item_passes(Test::Castable, descr, literal)
}

/// Writes a literal as the field that begins at an offset in the item.
#[cycle(write_fields)]
fn write_field(descr: &Descr, literal: &Literal, at: usize, item: &mut [u8])
    requires castable { can_be_field descr.now literal.now ≡ true }
    requires within { at + item_size descr.now ≤ length item.old }
    ensures { item.new
        ≡ put_leaves item.old (map (moved_leaf at) (leaves_of descr.now))
        (field_value descr.now literal.now) }
{
    match (descr, literal) {
        (Descr::Scalar(scalar), Literal::Scalar(value)) => {
            write_leaf(scalar, value, &mut item[at..at + scalar.size()])
        }
        (Descr::Record(structure), Literal::Record(values)) => {
            write_fields(structure, values.as_slice(), at, item)
        }
        _ => unreachable!(),
    }
}

/// Writes literals as the fields of a record that begins at an offset in the item.
#[cycle(write_fields)]
fn write_fields(structure: &Record, literals: &[Literal], from: usize, item: &mut [u8])
    requires castable { can_hold structure.now.fields (all_values literals.now) ≡ true }
    requires within { from + structure.now.size ≤ length item.old }
    ensures written { item.new
        ≡ put_leaves item.old (leaves_from from structure.now.fields)
        (field_values structure.now.fields (all_values literals.now)) }
    ensures legal { IsLegal structure.now }
{
    let fields = structure.fields();
    for (k, field) in fields.iter().enumerate() {
        write_field(&field.descr, &literals[k], from + field.at, item);
    }
}

/// Writes a literal to each leaf.
#[tactic(auto, using(elem_descr::specs::ItemLaws::leaf_within))]
fn write_leaves(leaves: &[Leaf], literal: &ScalarLiteral, item: &mut [u8])
    requires castable { list_all (λ leaf. is_castable leaf.scalar literal.now) leaves.now ≡ true }
    requires order { AreInOrder 0 leaves.now (length item.old) }
    ensures { item.new
        ≡ put_leaves item.old leaves.now
        (map (λ leaf. leaf_value leaf.scalar literal.now) leaves.now) }
{
    for leaf in leaves {
        let end = leaf.at + leaf.scalar.size();
        write_leaf(&leaf.scalar, literal, &mut item[leaf.at..end]);
    }
}

/// Writes a literal as the bytes of an item.
fn write_cast(descr: &Descr, literal: &Literal, item: &mut [u8])
    requires castable { can_be_item descr.now literal.now ≡ true }
    requires whole { length item.old ≡ item_size descr.now }
    ensures encoded { item.new ≡ encode_item descr.now (values_of descr.now literal.now) }
    ensures reads_back { decode_item descr.now item.new ≡ values_of descr.now literal.now }
{
    match (descr, literal) {
        (Descr::Scalar(scalar), Literal::Scalar(value)) => write_leaf(scalar, value, item),
        (Descr::Record(structure), Literal::Scalar(value)) => {
            item.fill(0);
            write_leaves(structure.leaves(), value, item);
        }
        (Descr::Record(structure), Literal::Record(values)) => {
            item.fill(0);
            write_fields(structure, values.as_slice(), 0, item);
        }
        _ => unreachable!(),
    }
}

/// Writes a literal as the bytes of an item. Bytes that belong to no leaf become zeros. A literal
/// that cannot be an item is refused as `NoSuchCast`, and one with a value that is out of range as
/// `LiteralOutOfRange`. After a refusal, the bytes are as before.
pub fn write_item(descr: &Descr, literal: &Literal, item: &mut [u8]) -> Result<(), Refusal>
    requires whole { length item.old ≡ item_size descr.now }
    ensures value { MatchResult result
        (λ _. item_value descr.now literal.now ≡ Ok (decode_item descr.now item.new))
        (λ refusal. item_value descr.now literal.now ≡ Err refusal) }
    ensures bytes { IfOk result
        (λ _. item.new ≡ encode_item descr.now (decode_item descr.now item.new)) }
    ensures kept { OnErr result (item.new ≡ item.old) }
{
    if !can_be_item(descr, literal) {
        return Err(Refusal::NoSuchCast);
    }
    if !item_passes(Test::InRange, descr, literal) {
        return Err(Refusal::LiteralOutOfRange);
    }
    write_cast(descr, literal, item);
    Ok(())
}

/// Whether each literal passes the test as an item of the descriptor.
fn items_pass(test: Test, descr: &Descr, literals: &[Literal]) -> bool
    ensures { result ≡ list_all (item_passes (passes test) descr.now) literals.now }
{
    literals
        .iter()
        .all(|literal| item_passes(test, descr, literal))
}

/// Writes literals as items one after another.
fn write_casts(descr: &Descr, literals: &[Literal], block: &mut [u8])
    requires castable { list_all (can_be_item descr.now) literals.now ≡ true }
    requires whole { length block.old ≡ length literals.now * item_size descr.now }
    ensures encoded { blocks (item_size descr.now) (length literals.now) block.new
        ≡ map (encode_item descr.now) (map (values_of descr.now) literals.now) }
    ensures reads_back { map (decode_item descr.now)
        (blocks (item_size descr.now) (length literals.now) block.new)
        ≡ map (values_of descr.now) literals.now }
{
    let size = descr.size();
    for (k, literal) in literals.iter().enumerate() {
        write_cast(descr, literal, &mut block[k * size..(k + 1) * size]);
    }
}

/// Writes literals as items one after another. A literal that cannot be an item is refused as
/// `NoSuchCast`, and then one with a value that is out of range as `LiteralOutOfRange`. After a
/// refusal, the bytes are as before.
pub fn write_items(descr: &Descr, literals: &[Literal], block: &mut [u8]) -> Result<(), Refusal>
    requires whole { length block.old ≡ length literals.now * item_size descr.now }
    ensures value { MatchResult result
        (λ _. item_values descr.now literals.now
        ≡ Ok (map (decode_item descr.now)
        (blocks (item_size descr.now) (length literals.now) block.new)))
        (λ refusal. item_values descr.now literals.now ≡ Err refusal) }
    ensures bytes { IfOk result
        (λ _. let items = blocks (item_size descr.now) (length literals.now) block.new in items
        ≡ map (encode_item descr.now) (map (decode_item descr.now) items)) }
    ensures kept { OnErr result (block.new ≡ block.old) }
{
    if !items_pass(Test::Castable, descr, literals) {
        return Err(Refusal::NoSuchCast);
    }
    if !items_pass(Test::InRange, descr, literals) {
        return Err(Refusal::LiteralOutOfRange);
    }
    write_casts(descr, literals, block);
    Ok(())
}
