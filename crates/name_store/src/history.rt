//! The changes that can be undone, and how they are kept.
ghost use Rattle.std.specs.Prelude.{IfOk, IsOk, None, OnOk, [], if◌then◌else◌, length, min, nat_lt, option_copied, slice_get, take, ℕ, ◌++◌, ◌+◌, ◌-◌, ◌<◌, ◌^◌, ◌∷◌, ◌≡◌, ◌≤◌};
ghost use Rattle.name_store.specs.Clauses.{all_pins, users_at, slot_at, buffer, keep_last, last_item, spare, stand, option_map};

use crate::bound::Entry;
use crate::change::Change;
use crate::slots::Slots;
use circular_buffer::HeapCircularBuffer;
use elem_descr::Name;
use indexmap::IndexMap;
use std::alloc::{AllocError, Global};
use std::marker::Model;

/// The changes that can be undone, oldest first, up to a limit. With limit 0, there is no buffer for
/// them.
#[derive(Drop)]
pub struct History {
    ring: Option<HeapCircularBuffer<Change>>,
}

impl Model for History {
    ghost use Rattle.std.specs.Prelude.{unwrap_or, []};
    ghost use Rattle.name_store.specs.Clauses.{Ring, buffer, Change};

    ghost Value = { Ring Change };

    ghost view = { λ h. unwrap_or h.ring (buffer [] 0) };
}

impl History {
    /// An empty history with this limit.
    pub(crate) fn try_new(alloc: Global, depth: usize) -> Result<History, AllocError>
        ensures empty { IfOk result (λ history. history ≡ buffer [] depth) }
        ensures no_memory { depth ≡ 0 → IsOk result }
    {
        if depth == 0 {
            return Ok(History { ring: None });
        }
        let ring = HeapCircularBuffer::with_capacity(alloc, depth)?;
        Ok(History { ring: Some(ring) })
    }

    /// The limit.
    pub(crate) fn capacity(&self) -> usize
        ensures capacity { result ≡ self.now.capacity }
        ensures within { (length self.now.items ≤ result) × (result < 2 ^ 63) }
    {
        self.ring.as_ref().map_or(0, |ring| ring.capacity())
    }

    /// How many changes are kept.
    pub(crate) fn len(&self) -> usize
        ensures len { result ≡ length self.now.items }
        ensures within { (result ≤ self.now.capacity) × (self.now.capacity < 2 ^ 63) }
    {
        self.ring.as_ref().map_or(0, |ring| ring.len())
    }

    /// The k-th change, counted from 0, oldest first.
    pub(crate) fn get(&self, k: usize) -> Option<&Change>
        ensures { option_copied result ≡ slice_get self.now.items k }
    {
        self.ring.as_ref()?.get(k)
    }

    /// Adds a change. If the history is full, its oldest change is removed and returned.
    pub(crate) fn push(&mut self, change: Change) -> Option<Change>
        ensures items { self.new
            ≡ buffer (keep_last self.old.capacity (self.old.items ++ change ∷ []))
            self.old.capacity }
        ensures value { result
            ≡ (if nat_lt (length self.old.items) self.old.capacity then None
            else slice_get (self.old.items ++ change ∷ []) 0) }
    {
        match &mut self.ring {
            None => Some(change),
            Some(ring) => ring.push_back(change),
        }
    }

    /// Removes and returns the last change.
    pub(crate) fn pop(&mut self) -> Option<Change>
        ensures value { result ≡ last_item self.old.items }
        ensures items { self.new
            ≡ buffer (take (length self.old.items - 1) self.old.items) self.old.capacity }
    {
        self.ring.as_mut()?.pop_back()
    }
}

/// Reserves room for the names that may come back if the whole history and one more change are
/// undone, and for `more` new ones.
pub(crate) fn make_room(
    names: &mut IndexMap<Name, Entry>,
    history: &History,
    more: usize,
) -> Result<(), AllocError>
    requires { more ≤ 1 }
    ensures entries { names.new.entries ≡ names.old.entries }
    ensures kept { spare names.old ≤ spare names.new }
    ensures room { OnOk result (min history.now.capacity (length history.now.items + 1) + more
        ≤ spare names.new) }
    ensures short { length history.now.items ≤ history.now.capacity }
    ensures small { history.now.capacity < 2 ^ 63 }
    ensures none { min history.now.capacity (length history.now.items + 1) + more ≡ 0
        → IsOk result }
{
    let changes = history.capacity().min(history.len() + 1);
    names.reserve(changes + more)
}

/// Adds a change. A full history forgets its oldest change, and the buffer that this change kept
/// alive loses a user.
pub(crate) fn keep(slots: &mut Slots, history: &mut History, change: Change)
    requires held { (q : ℕ) → all_pins q (history.old.items ++ change ∷ [])
        ≤ users_at slots.old.cells.items q }
    requires short { length history.old.items ≤ history.old.capacity }
    ensures history { history.new
        ≡ buffer (keep_last history.old.capacity (history.old.items ++ change ∷ []))
        history.old.capacity }
    ensures users { (q : ℕ)
        → users_at slots.new.cells.items q + all_pins q (history.old.items ++ change ∷ [])
        ≡ users_at slots.old.cells.items q + all_pins q history.new.items }
    ensures freed { (q : ℕ) → option_map stand (slot_at slots.new.cells.items q)
        ≡ (if nat_lt 0 (users_at slots.new.cells.items q)
        then option_map stand (slot_at slots.old.cells.items q) else None) }
{
    if let Some(gone) = history.push(change) {
        if let Change::Bind {
            earlier: Some(entry),
            ..
        }
        | Change::Unbind { entry, .. } = &gone
        {
            slots.release(entry.number);
        }
    }
}
