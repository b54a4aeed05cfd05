//! The bench.
ghost use Rattle.std.specs.Prelude.{◌≡◌, ◌≤◌, ◌<◌, length, [], Some, slice_get, IfOk, IsOk};
ghost use Rattle.name_store.specs.Clauses.{option_map};

use crate::bound::{ArrayRef, Bound};
use crate::change::Change;
use crate::history::{History, keep, make_room};
use crate::table::Table;
use crate::target::{Source, Target};
use crate::write::write_items;
use elem_descr::{Name, Refusal};
use overlap_copy::share_cell;
use std::alloc::{AllocError, Global};
use std::marker::Model;

/// The most names that can be bound at a time.
const MAX_NAMES: usize = 1024;

/// Named arrays and their buffers. A contract sees them as a state: the names in the order in which
/// they were first bound, the buffers by their numbers, and the kept states, each with the number
/// of bytes of old items that it takes.
#[derive(Drop)]
pub struct Bench {
    alloc: Global,
    table: Table,
    history: History,
}

impl Model for Bench {
    ghost use Rattle.name_store.specs.Clauses.{BenchValue, value_code};

    ghost Value = { BenchValue };

    ghost coded = { value_code };

    ghost use Rattle.name_store.specs.Clauses.{bench_value, IsSound, spare};

    ghost view = { λ f. bench_value f.table.names.entries f.table.slots.cells.items f.history };

    ghost invariant = { λ f. IsSound f.table.names.entries f.table.slots.cells.items f.history
        (spare f.table.names) };
}

impl Bench {
    ghost use Rattle.name_store.specs.Clauses.{start, find_array, has_room_for, AnswersBind, AnswersUnbind, AnswersUndo, AnswersWrite, AnswersShares, Counts, CountsUndo, CountsWrite, NeedsNoMemory, LieInTwo, Finds, IsAim, MayBind};

    /// A bench without names that keeps `depth` earlier states. With depth 0, it cannot fail.
    pub fn try_new(alloc: Global, depth: usize) -> Result<Bench, AllocError>
        requires { depth ≤ 64 }
        ensures empty { IfOk result (λ bench. bench.state ≡ start depth) }
        ensures patches { IfOk result (λ bench. bench.patches ≡ []) }
        ensures no_memory { depth ≡ 0 → IsOk result }
    {
        Ok(Bench {
            alloc,
            table: Table::new(alloc),
            history: History::try_new(alloc, depth)?,
        })
    }

    /// The array of a name, if it is bound.
    pub fn get(&self, name: &Name) -> Option<ArrayRef<'_>>
        ensures { Finds self.now.state (find_array self.now.state.names name.now) result }
    {
        let entry = self.table.names.get(name)?;
        let slot = self.table.slots.slot(entry.number);
        Some(ArrayRef {
            block: &slot.block,
            descr: entry.path.descr_in(&slot.descr),
            layout: &entry.layout,
            path: &entry.path,
            number: entry.number as u64,
            writable: entry.writable,
        })
    }

    /// Whether a name can be bound: it is bound already, or fewer than 1,024 names are.
    pub fn has_room_for(&self, name: &Name) -> bool
        ensures { result ≡ has_room_for self.now.state name.now }
    {
        self.table.names.len() < MAX_NAMES || self.table.names.contains_key(name)
    }

    /// Binds a name. If it was bound before, it keeps its place among the names. A view may be of
    /// the array that the name was bound to.
    pub fn bind(&mut self, name: &Name, bound: Bound) -> Result<(), Refusal>
        requires { MayBind self.old.state bound }
        ensures answers { AnswersBind self.old.state name.now bound result self.new.state }
        ensures patches { Counts 0 self.old result self.new }
    {
        let key = Name::copy(self.alloc, name);
        if !self.has_room_for(name) {
            return Err(Refusal::TooManyNames);
        }
        make_room(&mut self.table.names, &self.history, 1)?;
        let earlier = self.table.bind(Name::copy(self.alloc, name), bound)?;
        let change = Change::Bind { key, earlier };
        keep(&mut self.table.slots, &mut self.history, change);
        Ok(())
    }

    /// Writes items to places of a name's array, and returns how many. All memory is allocated
    /// before the first change.
    pub fn write_items(
        &mut self,
        name: &Name,
        target: Target,
        source: Source,
    ) -> Result<usize, Refusal>
        requires aim { IsAim self.old.state name.now target source }
        ensures answers { AnswersWrite self.old.state name.now target source result self.new.state }
        ensures patches { CountsWrite self.old name.now target result self.new }
        ensures no_memory { NeedsNoMemory self.old.state name.now target source → IsOk result }
    {
        let home = self.table.home(name);
        let count = target.count();
        let keeps = self.history.capacity() > 0;
        make_room(&mut self.table.names, &self.history, 0)?;
        let cells = &mut self.table.slots.cells;
        if let Some(over) = write_items(cells, home, target, source, keeps)? {
            let change = Change::Write {
                number: home.number,
                target: over.target,
                items: over.items,
            };
            keep(&mut self.table.slots, &mut self.history, change);
        }
        Ok(count)
    }

    /// Unbinds a name. It can fail for lack of memory only if states are kept.
    pub fn unbind(&mut self, name: &Name) -> Result<(), Refusal>
        ensures answers { AnswersUnbind self.old.state name.now result self.new.state }
        ensures patches { Counts 0 self.old result self.new }
    {
        let key = Name::copy(self.alloc, name);
        if !self.table.names.contains_key(&key) {
            return Err(Refusal::UnknownName);
        }
        make_room(&mut self.table.names, &self.history, 0)?;
        let (place, _key, entry) = self.table.names.shift_remove_full(&key).unwrap();
        let change = Change::Unbind { place, key, entry };
        keep(&mut self.table.slots, &mut self.history, change);
        Ok(())
    }

    /// Goes back to the last state that was kept. It cannot fail for lack of memory.
    pub fn undo(&mut self) -> Result<(), Refusal>
        ensures answers { AnswersUndo self.old.state result self.new.state }
        ensures patches { CountsUndo self.old result self.new }
    {
        match self.history.pop() {
            None => Err(Refusal::NothingToUndo),
            Some(change) => {
                self.table.undo(change);
                Ok(())
            }
        }
    }

    /// How many bytes of old items are kept for the k-th kept state, counted from 0, oldest first.
    /// No command asks this: it is for programs that bound the memory of a bench.
    pub fn patch_bytes(&self, k: usize) -> Option<usize>
        ensures { result ≡ slice_get self.now.patches k }
    {
        match self.history.get(k)? {
            Change::Write { items, .. } => Some(items.block.len()),
            _ => Some(0),
        }
    }

    /// Whether the arrays of two names share cells. Unknown names are refused before any memory is
    /// allocated.
    pub fn shares(&self, left: &Name, right: &Name) -> Result<bool, Refusal>
        ensures answers { AnswersShares self.now.state left.now right.now result }
        ensures no_memory { LieInTwo self.now.state left.now right.now → IsOk result }
    {
        let Some(first) = self.get(left) else {
            return Err(Refusal::UnknownName);
        };
        let Some(second) = self.get(right) else {
            return Err(Refusal::UnknownName);
        };
        if first.number != second.number {
            return Ok(false);
        }
        let has_common = share_cell(
            self.alloc,
            first.layout,
            first.descr.size(),
            second.layout,
            second.descr.size(),
        )?;
        Ok(has_common)
    }

    /// How many names are bound.
    pub fn len(&self) -> usize
        ensures len { result ≡ length self.now.state.names }
        ensures few { result ≤ 1024 }
    {
        self.table.names.len()
    }

    /// The k-th name in the order in which they were first bound, counted from 0.
    pub fn name_at(&self, k: usize) -> &[u8]
        requires { k < length self.now.state.names }
        ensures { option_map (λ entry. entry.0) (slice_get self.now.state.names k)
            ≡ Some result.now }
    {
        self.table.names.get_index(k).unwrap().0.as_slice()
    }
}
