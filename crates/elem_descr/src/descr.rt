//! Descriptors: the element type of an array.
ghost use Rattle.elem_descr.specs.Descriptors.{IsLegal, fields_of, listed};
ghost use Rattle.elem_descr.specs.Encoding.{size};
ghost use Rattle.elem_descr.specs.Fields.{Structure, no_more};
ghost use Rattle.elem_descr.specs.Items.{AreInOrder, LeavesInOrder, field_at, field_leaves, field_of, fields, item_size, leaves_from, leaves_in, leaves_of, moved_leaf};
ghost use Rattle.std.specs.Prelude.{IfOk, IfSome, OnOk, [], length, map, position, slice_get, take, ℕ, ◌++◌, ◌+◌, ◌<◌, ◌∷◌, ◌≡◌, ◌≤◌};
ghost use Rattle.std.proofs.Common.{drop, get_or};

use crate::name::FieldName;
use crate::scalar::Scalar;
use std::alloc::{AllocError, Global};
use std::marker::Model;

/// The maximum number of fields of a record.
pub const MAX_FIELDS: usize = 64;

/// The maximum number of leaves of an item.
pub const MAX_LEAVES: usize = 2048;

/// The maximum depth of nested records.
pub const MAX_DEPTH: usize = 4;

/// A record: 1 to 64 fields with different names, in order of offset and without overlap, in items
/// of at most 65,536 bytes. The bytes between the fields and after them are padding.
#[derive(Debug, Drop)]
#[cycle(descr)]
pub struct Record {
    size: usize,
    fields: Vec<Field>,
    leaves: Vec<Leaf>,
}

/// A field of a record: its name, the offset of its bytes in the record, and its type.
#[derive(Debug, Drop)]
#[cycle(descr)]
pub struct Field {
    pub name: FieldName,
    pub at: usize,
    pub descr: Descr,
}

/// The element type of an array: one scalar, or a record of fields.
#[derive(Debug, Drop)]
#[cycle(descr)]
pub enum Descr {
    Scalar(Scalar),
    Record(Record),
}

impl Model for Record {
    ghost use Rattle.std.specs.Prelude.{◌+◌};
    ghost use Rattle.elem_descr.specs.Fields.{Structure, total};
    ghost use Rattle.elem_descr.specs.inside.FieldCodes.{structure_code};
    ghost use Rattle.elem_descr.specs.contracts.scalar.Scalar as scalar;

    ghost Value = { Structure };

    ghost coded = { structure_code scalar.the_row.coded };

    ghost use Rattle.elem_descr.specs.Descriptors.{listed};
    ghost use Rattle.elem_descr.specs.inside.Records.{IsRecord};

    ghost view = { λ r. record { size = r.size; fields = listed r.fields.items } };

    ghost invariant = { λ r. IsRecord r.size r.fields.items r.leaves.items };

    ghost size = { λ s. 1 + total s.fields };

    ghost use Rattle.elem_descr.specs.inside.Totals.{total_falls};

    ghost size_decreases = { λ r h. total_falls r.fields.items };
}

/// Appends the leaves of a field.
fn push_field(leaves: &mut Vec<Leaf>, field: &Field) -> Result<(), AllocError>
    requires small { field.now.at + item_size field.now.descr ≤ 65536 }
    ensures { OnOk result (leaves.new.items ≡ leaves.old.items
        ++ map (moved_leaf field.now.at) (leaves_of field.now.descr)) }
{
    for k in 0..field.descr.leaf_count() {
        let (scalar, from) = field.descr.leaf_at(k);
        let at = field.at + from;
        leaves.push(Leaf { scalar, at })?;
    }
    Ok(())
}

/// The number of leaves of fields.
fn leaf_sum(fields: &[Field]) -> usize
    requires { leaves_in fields.now ≤ 2048 }
    ensures { result ≡ leaves_in fields.now }
{
    let mut sum = 0;
    for field in fields {
        sum += field.descr.leaf_count();
    }
    sum
}

impl Record {
    /// A record of these fields, whose items have `size` bytes.
    pub fn try_new(alloc: Global, size: usize, fields: Vec<Field>) -> Result<Record, AllocError>
        requires { IsLegal (record { size = size; fields = listed fields.items }) }
        ensures { IfOk result
            (λ made. made ≡ record { size = size; fields = listed fields.items }) }
    {
        let mut leaves = Vec::new(alloc);
        for field in fields.as_slice() {
            push_field(&mut leaves, field)?;
        }
        Ok(Record {
            size,
            fields,
            leaves,
        })
    }

    /// The number of bytes of an item.
    pub fn size(&self) -> usize
        ensures value { result ≡ self.now.size }
        ensures not_empty { 1 ≤ result }
        ensures within { result ≤ 65536 }
        ensures legal { IsLegal self.now }
    {
        self.size
    }

    /// The fields, in order of offset.
    pub fn fields(&self) -> &[Field]
        ensures value { result.now ≡ fields_of self.now.fields }
        ensures legal { IsLegal self.now }
    {
        self.fields.as_slice()
    }

    /// The scalars of the fields, and in the place of nested records their scalars, with offsets in
    /// the whole item.
    pub fn leaves(&self) -> &[Leaf]
        ensures value { result.now ≡ leaves_from 0 self.now.fields }
        ensures in_order { AreInOrder 0 result.now self.now.size }
        ensures not_empty { 1 ≤ length result.now }
        ensures few { length result.now ≤ 2048 }
        ensures small { self.now.size ≤ 65536 }
    {
        self.leaves.as_slice()
    }

    #[cycle(copy)]
    pub fn try_copy(alloc: Global, original: &Record) -> Result<Record, AllocError>
        ensures { IfOk result (λ copy. copy ≡ original.now) }
    {
        let mut fields = Vec::new(alloc);
        for field in original.fields.as_slice() {
            let name = FieldName::from_slice(alloc, field.name.as_slice())?;
            let descr = Descr::try_copy(alloc, &field.descr)?;
            let at = field.at;
            fields.push(Field { name, at, descr })?;
        }
        let leaves = Vec::from_slice(alloc, original.leaves.as_slice())?;
        Ok(Record {
            size: original.size,
            fields,
            leaves,
        })
    }
}

impl Descr {
    /// The number of bytes of an item.
    #[tactic(auto, using(crate::proofs::FieldLaws::scalar_apart, crate::proofs::FieldLaws::record_apart))]
    pub fn size(&self) -> usize
        ensures value { result ≡ item_size self.now }
        ensures not_empty { 1 ≤ result }
        ensures within { result ≤ 65536 }
        ensures apart { LeavesInOrder self.now }
    {
        match self {
            Descr::Scalar(scalar) => scalar.size(),
            Descr::Record(structure) => structure.size(),
        }
    }

    /// The number of values in an item: one, or one for each scalar in the record.
    pub fn leaf_count(&self) -> usize
        ensures value { result ≡ length (leaves_of self.now) }
        ensures not_empty { 1 ≤ result }
        ensures few { result ≤ 2048 }
    {
        match self {
            Descr::Scalar(_) => 1,
            Descr::Record(structure) => structure.leaves().len(),
        }
    }

    /// The scalar of the k-th value of an item, and the offset of its bytes.
    pub fn leaf_at(&self, k: usize) -> (Scalar, usize)
        requires { k < length (leaves_of self.now) }
        ensures leaf { IfSome (slice_get (leaves_of self.now) k)
            (λ leaf. (result.0 ≡ leaf.scalar) × (result.1 ≡ leaf.at)) }
        ensures within { result.1 + size result.0 ≤ item_size self.now }
        ensures small { result.1 < 65536 }
    {
        match self {
            Descr::Scalar(scalar) => (*scalar, 0),
            Descr::Record(structure) => {
                let leaf = structure.leaves()[k];
                (leaf.scalar, leaf.at)
            }
        }
    }

    /// The fields of a record. A scalar has none.
    pub fn fields(&self) -> &[Field]
        ensures value { result.now ≡ fields self.now }
        ensures few { length (leaves_of self.now) ≤ 2048 }
        ensures within { (k : ℕ) → k < length (fields self.now)
            → (field_at self.now k).at + item_size (field_at self.now k).descr
            ≤ item_size self.now }
    {
        match self {
            Descr::Scalar(_) => &[],
            Descr::Record(structure) => structure.fields(),
        }
    }

    /// The position of the field with this name among the fields. A scalar has none.
    pub fn leaf_of(&self, name: &[u8]) -> Option<usize>
        ensures value { result ≡ field_of self.now name.now }
        ensures below { IfSome result (λ k. k < length (fields self.now)) }
    {
        self.fields()
            .iter()
            .position(|field| field.name.as_slice() == name)
    }

    /// The field at this position.
    pub fn field(&self, k: usize) -> &Field
        requires { k < length (fields self.now) }
        ensures value { result.now ≡ field_at self.now k }
        ensures within { result.now.at + item_size result.now.descr ≤ item_size self.now }
    {
        &self.fields()[k]
    }

    /// The leaves of the field at this position: how many come before them, and how many there are.
    pub fn leaves_of(&self, field: usize) -> (usize, usize)
        requires { field < length (fields self.now) }
        ensures value { result ≡ field_leaves self.now field }
        ensures some { 1 ≤ result.1 }
        ensures within { result.0 + result.1 ≤ length (leaves_of self.now) }
        ensures leaves { let there = field_at self.now field
            in take result.1 (drop result.0 (leaves_of self.now))
            ≡ map (moved_leaf there.at) (leaves_of there.descr) }
    {
        let fields = self.fields();
        let before = leaf_sum(&fields[..field]);
        (before, fields[field].descr.leaf_count())
    }

    #[cycle(copy)]
    pub fn try_copy(alloc: Global, descr: &Descr) -> Result<Descr, AllocError>
        ensures { IfOk result (λ copy. copy ≡ descr.now) }
    {
        match descr {
            Descr::Scalar(scalar) => Ok(Descr::Scalar(*scalar)),
            Descr::Record(structure) => Ok(Descr::Record(Record::try_copy(alloc, structure)?)),
        }
    }
}

/// A value of an item: its scalar, and the offset of its bytes in the item.
#[derive(Clone, Copy, Debug, PartialEq, Eq)]
pub struct Leaf {
    pub scalar: Scalar,
    pub at: usize,
}
