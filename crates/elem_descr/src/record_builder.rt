//! Records, built field by field.
ghost use Rattle.std.specs.Prelude.{◌≡◌, ◌≤◌, ◌<◌, ◌+◌, length, IsTrue, IfOk, OnErr, false};
ghost use Rattle.elem_descr.specs.Refusals.{Answers, Gives};
ghost use Rattle.elem_descr.specs.Names.{is_legal_name};
ghost use Rattle.elem_descr.specs.Items.{leaves_of};
ghost use Rattle.elem_descr.specs.RecordBuilding.{max_depth, max_fields, max_leaves, Partial, IsShallow, empty, is_taken, checked_name, added, widened, closed_record, closed_size};

use crate::descr::{Descr, Field, MAX_FIELDS, MAX_LEAVES, Record};
use crate::name::FieldName;
use crate::refusal::Refusal;
use crate::scalar::MAX_ITEM_SIZE;
use std::alloc::Global;
use std::marker::Model;

/// A record to which fields and padding are added in order.
#[derive(Debug, Drop)]
pub struct RecordBuilder {
    size: usize,
    alignment: usize,
    leaves: usize,
    levels: usize,
    fields: Vec<Field>,
}

impl Model for RecordBuilder {
    ghost use Rattle.elem_descr.specs.RecordBuilding.{Partial, built};
    ghost use Rattle.elem_descr.specs.inside.Partials.{IsPartial};
    ghost use Rattle.elem_descr.specs.contracts.descr.Field as field;
    ghost use Rattle.std.specs.Coded.{codes};

    ghost Value = { Partial };

    ghost coded = { Prim.hlevel (codes, field.the_row.coded) };

    ghost view = { λ b. built b.size b.alignment b.leaves b.levels b.fields.items };

    ghost invariant = { λ b. IsPartial
        (built b.size b.alignment b.leaves b.levels b.fields.items) };
}

fn is_taken(fields: &[Field], name: &[u8]) -> bool
    ensures { result ≡ is_taken fields.now name.now }
{
    fields.iter().any(|field| field.name.as_slice() == name)
}

impl RecordBuilder {
    /// A record before its first field, in which records may be nested `levels` deep, after
    /// `leaves` leaves of the whole type.
    #[tactic(auto, using(crate::proofs::PartialLaws::empty_partial))]
    pub fn new(alloc: Global, levels: usize, leaves: usize) -> RecordBuilder
        requires levels { levels < max_depth }
        requires leaves { leaves ≤ max_leaves }
        ensures { result ≡ empty levels leaves }
    {
        RecordBuilder {
            size: 0,
            alignment: 1,
            leaves,
            levels,
            fields: Vec::new(alloc),
        }
    }

    /// The number of fields so far.
    pub fn len(&self) -> usize
        ensures value { result ≡ length self.now.fields }
        ensures few { result ≤ max_fields }
    {
        self.fields.len()
    }

    /// The number of leaves of the whole type so far.
    pub fn leaves(&self) -> usize
        ensures value { result ≡ self.now.leaves }
        ensures few { result ≤ max_leaves }
    {
        self.leaves
    }

    /// How many levels of records may be nested in this one.
    pub fn levels(&self) -> usize
        ensures value { result ≡ self.now.levels }
        ensures few { result < max_depth }
    {
        self.levels
    }

    /// Whether another field may have this name. A name that is taken is `BadDescriptor`, and a
    /// 65th field is `TooLarge`.
    #[tactic(auto, unfolding(crate::specs::RecordBuilding::checked_name))]
    pub fn check_name(&self, name: &[u8]) -> Result<(), Refusal>
        ensures answers { Answers (λ _. tt) result (checked_name self.now name.now) }
        ensures new { IfOk result (λ _. is_taken self.now.fields name.now ≡ false) }
        ensures room { IfOk result (λ _. length self.now.fields < max_fields) }
    {
        if is_taken(self.fields.as_slice(), name) {
            return Err(Refusal::BadDescriptor);
        }
        if self.fields.len() >= MAX_FIELDS {
            return Err(Refusal::TooLarge);
        }
        Ok(())
    }

    /// Adds a field at the next multiple of its alignment. More than 2,048 leaves of the whole type, and
    /// an item of more than 65,536 bytes, are `TooLarge`. A refusal changes nothing.
    #[tactic(auto, unfolding(crate::specs::RecordBuilding::added))]
    pub fn add(&mut self, name: FieldName, alignment: usize, descr: Descr) -> Result<(), Refusal>
        requires legal { IsTrue (is_legal_name name) }
        requires new { is_taken self.old.fields name ≡ false }
        requires room { length self.old.fields < max_fields }
        requires aligned { (1 ≤ alignment) × (alignment ≤ 8) }
        requires shallow { IsShallow self.old.levels descr }
        ensures gives { Gives (λ _. self.new) result (added self.old name alignment descr) }
        ensures kept { OnErr result (self.new ≡ self.old) }
        ensures levels { self.new.levels ≡ self.old.levels }
    {
        let leaves = self.leaves + descr.leaf_count();
        let at = self.size.next_multiple_of(alignment);
        let size = at + descr.size();
        if leaves > MAX_LEAVES || size > MAX_ITEM_SIZE {
            return Err(Refusal::TooLarge);
        }
        self.fields.push(Field { name, at, descr })?;
        self.size = size;
        self.alignment = self.alignment.max(alignment);
        self.leaves = leaves;
        Ok(())
    }

    /// Adds padding. An item of more than 65,536 bytes is `TooLarge`, and changes nothing.
    #[tactic(auto, unfolding(crate::specs::RecordBuilding::widened))]
    pub fn pad(&mut self, count: usize) -> Result<(), Refusal>
        ensures answers { Answers (λ _. self.new) result (widened self.old count) }
        ensures kept { OnErr result (self.new ≡ self.old) }
        ensures levels { self.new.levels ≡ self.old.levels }
    {
        if count > MAX_ITEM_SIZE - self.size {
            return Err(Refusal::TooLarge);
        }
        self.size += count;
        Ok(())
    }

    /// The greatest alignment of the fields so far.
    pub fn alignment(&self) -> usize
        ensures value { result ≡ self.now.alignment }
        ensures within { (1 ≤ result) × (result ≤ 8) }
    {
        self.alignment
    }

    /// The size of the record if it ended now.
    fn closed_size(&self, is_aligned: bool) -> usize
        ensures value { result ≡ closed_size is_aligned self.now }
        ensures later { self.now.size ≤ result }
    {
        if !is_aligned {
            return self.size;
        }
        self.size.next_multiple_of(self.alignment)
    }

    /// The record; if it is to be aligned, its size is a multiple of its alignment. A record
    /// without a field is `DescriptorLeftOut`.
    #[tactic(auto, unfolding(crate::specs::RecordBuilding::closed_record))]
    pub fn close(self, alloc: Global, is_aligned: bool) -> Result<Record, Refusal>
        ensures gives { Gives (λ whole. whole) result (closed_record is_aligned self) }
        ensures shallow { IfOk result (λ whole. IsShallow (1 + self.levels) (Descr.Record whole)) }
    {
        if self.fields.is_empty() {
            return Err(Refusal::DescriptorLeftOut);
        }
        let size = self.closed_size(is_aligned);
        if size > MAX_ITEM_SIZE {
            return Err(Refusal::TooLarge);
        }
        Ok(Record::try_new(alloc, size, self.fields)?)
    }
}
