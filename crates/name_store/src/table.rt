//! Names, and the slots of their arrays.
ghost use Rattle.std.specs.Prelude.{◌≡◌};
ghost use Rattle.name_store.specs.Words.{item_size};
ghost use Rattle.name_store.specs.Invariants.{Holds};
ghost use Rattle.name_store.specs.Places.{IsElementType};
ghost use Rattle.name_store.specs.inside.HeldOnce.{Holds-prop};

use crate::bound::{Bound, Entry};
use crate::change::Change;
use crate::path::Path;
use crate::rewrite::put_back;
use crate::slot::Slot;
use crate::slots::Slots;
use crate::target::{Home, OldItems, Target};
use elem_descr::{Descr, Name};
use indexmap::IndexMap;
use std::alloc::{AllocError, Global};

/// Names and their arrays, in the order in which the names were first bound, and the buffers of the
/// arrays, by number.
#[derive(Drop)]
pub struct Table {
    pub names: IndexMap<Name, Entry>,
    pub slots: Slots,
    ghost holds: { Holds names.entries slots.cells.items } by { Holds-prop names.entries slots.cells.items },
}

/// The size of an item. The contract also says what the prover needs of the sizes and offsets of
/// fields.
fn legal_size(descr: &Descr) -> usize
    ensures value { result ≡ item_size descr.now }
    ensures legal { IsElementType descr.now }
{
    match descr {
        Descr::Scalar(scalar) => scalar.size(),
        Descr::Record(structure) => structure.size(),
    }
}

impl Table {
    ghost use Rattle.std.specs.Prelude.{◌≡◌, ◌≤◌, ◌<◌, ◌+◌, ℕ, [], true, IfOk, OnErr, Some, None};
    ghost use Rattle.name_store.specs.Words.{spare};
    ghost use Rattle.name_store.specs.Arrays.{has_room_for, is_bound};
    ghost use Rattle.name_store.specs.Invariants.{users_at};
    ghost use Rattle.name_store.specs.Tables.{table_state};
    ghost use Rattle.name_store.specs.Views.{MayBind};
    ghost use Rattle.name_store.specs.declared.change.Change.TheVariants.{Bind, Unbind, Write};
    ghost use Rattle.name_store.specs.inside.Homes.{IsHome};
    ghost use Rattle.name_store.specs.inside.Rebinds.{Lodges, Rebinds};
    ghost use Rattle.name_store.specs.inside.Undoes.{CanUndo, IsUndone};

    /// No name and no buffer.
    pub(crate) fn new(alloc: Global) -> Table
        ensures names { result.names.entries ≡ [] }
        ensures slots { result.slots.cells.items ≡ [] }
    {
        Table {
            names: IndexMap::new(alloc),
            slots: Slots::new(alloc),
        }
    }

    /// Where the array of a bound name is.
    pub(crate) fn home(&self, key: &Name) -> Home
        requires { is_bound (table_state self.now) key.now ≡ true }
        ensures { IsHome self.now.names.entries self.now.slots.cells.items key.now
            result.number result.width }
    {
        let entry = self.names.get(key).unwrap();
        let slot = self.slots.slot(entry.number);
        Home {
            number: entry.number,
            width: entry.path.descr_in(&slot.descr).size(),
        }
    }

    /// Makes an entry for what a name will be bound to, and counts one more user of its buffer. A
    /// new array gets a slot of its own: only this takes memory, before anything changes.
    fn lodge(&mut self, bound: Bound) -> Result<Entry, AllocError>
        requires may { MayBind (table_state self.old) bound }
        requires few { (q : ℕ) → users_at self.old.slots.cells.items q < usize.MAX }
        ensures lodges { IfOk result
            (λ entry. Lodges self.old.names.entries self.old.slots.cells.items bound entry
            self.new.slots.cells.items) }
        ensures names { self.new.names ≡ self.old.names }
        ensures kept { OnErr result (self.new.slots.cells.items ≡ self.old.slots.cells.items) }
    {
        match bound {
            Bound::Fresh(owned) => {
                let item = legal_size(&owned.descr);
                let slot = Slot {
                    descr: owned.descr,
                    items: owned.layout.shape.items(),
                    block: owned.block,
                    users: 1,
                };
                let number = self.slots.add(slot)?;
                Ok(Entry {
                    number,
                    path: Path::whole(),
                    layout: owned.layout,
                    item,
                    writable: true,
                })
            }
            Bound::View {
                number,
                path,
                layout,
                writable,
            } => {
                let number = number as usize;
                let item = self.slots.slot(number).descr.size();
                self.slots.share(number);
                Ok(Entry {
                    number,
                    path,
                    layout,
                    item,
                    writable,
                })
            }
        }
    }

    /// Binds a name, and returns what it was bound to before.
    pub(crate) fn bind(&mut self, key: Name, bound: Bound) -> Result<Option<Entry>, AllocError>
        requires room { has_room_for (table_state self.old) key ≡ true }
        requires spare { 0 < spare self.old.names }
        requires may { MayBind (table_state self.old) bound }
        requires few { (q : ℕ) → users_at self.old.slots.cells.items q < usize.MAX }
        ensures done { IfOk result
            (λ earlier.
            Rebinds self.old.names.entries self.old.slots.cells.items key bound
            earlier self.new.names.entries self.new.slots.cells.items) }
        ensures kept { OnErr result ((self.new.names.entries ≡ self.old.names.entries)
            × (self.new.slots.cells.items ≡ self.old.slots.cells.items)) }
        ensures spare { spare self.old.names ≤ spare self.new.names + 1 }
    {
        let entry = self.lodge(bound)?;
        Ok(self.names.insert(key, entry).unwrap())
    }

    /// Undoes a change, and frees a buffer that has no users left. It cannot fail for lack of
    /// memory: the room for a name that comes back was made by `make_room` before the change.
    pub(crate) fn undo(&mut self, change: Change)
        requires can { CanUndo self.old change }
        ensures { IsUndone self.old change self.new }
    {
        match change {
            Change::Bind { key, earlier } => match earlier {
                None => self.undo_first(key),
                Some(entry) => self.undo_rebinding(key, entry),
            },
            Change::Unbind { place, key, entry } => self.undo_unbinding(place, key, entry),
            Change::Write {
                number,
                target,
                items,
            } => self.undo_write(number, &target, &items),
        }
    }

    /// Unbinds a name that was not bound before.
    fn undo_first(&mut self, key: Name)
        requires can { CanUndo self.old (Bind key None) }
        ensures { IsUndone self.old (Bind key None) self.new }
    {
        if let Some(entry) = self.names.shift_remove(&key) {
            self.slots.release(entry.number);
        }
    }

    /// Binds a name to its earlier array.
    fn undo_rebinding(&mut self, key: Name, earlier: Entry)
        requires can { CanUndo self.old (Bind key (Some earlier)) }
        ensures { IsUndone self.old (Bind key (Some earlier)) self.new }
    {
        if let Some(entry) = self.names.insert(key, earlier).unwrap() {
            self.slots.release(entry.number);
        }
    }

    /// Binds a name again, at its earlier place among the names.
    fn undo_unbinding(&mut self, place: usize, key: Name, entry: Entry)
        requires can { CanUndo self.old (Unbind place key entry) }
        ensures { IsUndone self.old (Unbind place key entry) self.new }
    {
        self.names.shift_insert(place, key, entry).unwrap();
    }

    /// Writes the old items back.
    fn undo_write(&mut self, number: usize, target: &Target, items: &OldItems)
        requires can { CanUndo self.old (Write number target.now items.now) }
        ensures { IsUndone self.old (Write number target.now items.now) self.new }
    {
        let slot = self.slots.cells[number].as_mut().unwrap();
        put_back(&mut slot.block, target, items);
    }
}
