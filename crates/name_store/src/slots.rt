//! The slots of the buffers, by number.
ghost use Rattle.std.specs.Prelude.{◌≡◌, ◌≤◌, ◌<◌, ℕ, nat_eq, true, is_some, length, Some, None, if◌then◌else◌, vec_len, vec_capacity};
ghost use Rattle.name_store.specs.View.{slot_at};
ghost use Rattle.name_store.specs.inside.Held.{IsLowest, IsLowest-prop};

use crate::slot::Slot;
use std::alloc::{AllocError, Global};

/// The buffers by their numbers. No number below `lowest` is free.
#[derive(Drop)]
pub struct Slots {
    pub cells: Vec<Option<Slot>>,
    pub lowest: usize,
    ghost taken: { IsLowest cells.items lowest } by { IsLowest-prop cells.items lowest },
}

/// The first free slot from one of them on, or the one after the last.
fn first_free(cells: &[Option<Slot>], from: usize) -> usize
    requires { from ≤ length cells.now }
    ensures free { slot_at cells.now result ≡ None }
    ensures within { result ≤ length cells.now }
    ensures taken { (number : ℕ) → from ≤ number → number < result
        → is_some (slot_at cells.now number) ≡ true }
{
    for number in from..cells.len() {
        if cells[number].is_none() {
            return number;
        }
    }
    cells.len()
}

/// Puts a buffer in the slot with this number, which is an existing slot or the one after the last.
fn put_slot(cells: &mut Vec<Option<Slot>>, number: usize, slot: Slot)
    requires number { number ≤ vec_len cells.old }
    requires room { vec_len cells.old < vec_capacity cells.old }
    ensures { (other : ℕ) → slot_at cells.new.items other
        ≡ (if nat_eq other number then Some slot else slot_at cells.old.items other) }
{
    if number == cells.len() {
        cells.push(Some(slot)).unwrap();
    } else {
        cells[number] = Some(slot);
    }
}

impl Slots {
    ghost use Rattle.std.specs.Prelude.{◌≡◌, ◌≤◌, ◌<◌, ◌+◌, ℕ, [], true, IfOk, OnErr, Some, None, is_some, nat_lt, if◌then◌else◌};
    ghost use Rattle.name_store.specs.Words.{option_map};
    ghost use Rattle.name_store.specs.View.{slot_at};
    ghost use Rattle.name_store.specs.Invariants.{one_at, users_at};
    ghost use Rattle.name_store.specs.inside.Held.{Adds, stand};

    /// No buffer.
    pub(crate) fn new(alloc: Global) -> Slots
        ensures { result.cells.items ≡ [] }
    {
        Slots {
            cells: Vec::new(alloc),
            lowest: 0,
        }
    }

    /// Puts a buffer in the first free slot, and returns its number.
    pub(crate) fn add(&mut self, slot: Slot) -> Result<usize, AllocError>
        ensures adds { IfOk result
            (λ number. Adds self.old.cells.items slot number self.new.cells.items) }
        ensures kept { OnErr result (self.new.cells.items ≡ self.old.cells.items) }
    {
        self.cells.reserve(1)?;
        let number = first_free(self.cells.as_slice(), self.lowest);
        put_slot(&mut self.cells, number, slot);
        self.lowest = number + 1;
        Ok(number)
    }

    /// The buffer with this number.
    pub(crate) fn slot(&self, number: usize) -> &Slot
        requires { is_some (slot_at self.now.cells.items number) ≡ true }
        ensures { slot_at self.now.cells.items number ≡ Some result.now }
    {
        self.cells[number].as_ref().unwrap()
    }

    /// Counts one more user of the buffer with this number.
    pub(crate) fn share(&mut self, number: usize)
        requires there { 1 ≤ users_at self.old.cells.items number }
        requires few { users_at self.old.cells.items number < usize.MAX }
        ensures users { (other : ℕ) → users_at self.new.cells.items other
            ≡ users_at self.old.cells.items other + one_at other number }
        ensures stays { (other : ℕ) → option_map stand (slot_at self.new.cells.items other)
            ≡ option_map stand (slot_at self.old.cells.items other) }
    {
        let slot = self.cells[number].as_mut().unwrap();
        slot.users += 1;
    }

    /// Counts one user less of the buffer with this number. Without users the buffer is freed, and
    /// its slot is empty.
    pub(crate) fn release(&mut self, number: usize)
        requires { 1 ≤ users_at self.old.cells.items number }
        ensures users { (other : ℕ) → users_at self.new.cells.items other + one_at other number
            ≡ users_at self.old.cells.items other }
        ensures swept { (other : ℕ) → option_map stand (slot_at self.new.cells.items other)
            ≡ (if nat_lt 0 (users_at self.new.cells.items other)
            then option_map stand (slot_at self.old.cells.items other) else None) }
    {
        if self.slot(number).users == 1 {
            self.cells[number] = None;
            self.lowest = self.lowest.min(number);
        } else {
            let slot = self.cells[number].as_mut().unwrap();
            slot.users -= 1;
        }
    }
}
