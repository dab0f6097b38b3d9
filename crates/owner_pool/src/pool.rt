// What an owner keeps of its calls.
ghost use Rattle.std.specs.Prelude.{◌≡◌, ◌≢◌, ℕ, ◌+◌, ◌-◌, ◌<◌, ◌≤◌, ◌^◌, List, [], ◌∷◌, ◌++◌, filter, length, slice_index, slice_set, vec_capacity, IfOk, IsTrue, ◌↔◌, MatchOption};
ghost use mathlib.Core.Option.{some};
ghost use lib.ListN.{get_elem?};
ghost use Rattle.step_cells.specs.declared.cell.Cell.{Cell as CellValue};
ghost use Rattle.owner_pool.specs.declared.pool.Name.{Name as NameValue};
ghost use Rattle.owner_pool.specs.Counted.{AreCounts, times};
ghost use Rattle.owner_pool.specs.Noting.{Call as CallValue, Size, EachSlot, IsUnnamed, OfHandle, calls, cell_names, cell_slots, named_by, room_for, slots_of, waits_still};

use crate::counts::SlotCounts;
use std::alloc::{AllocError, Global};
use step_cells::Cell;

/// A call that was not seen done names a slot: the call's instance, and its number there, from 1.
#[derive(Clone, Copy)]
pub struct Name {
    pub instance: u32,
    pub number: u64,
    pub slot: u32,
}

impl Name {
    /// Whether it is left once so many calls of an instance were seen done.
    pub fn waits_still(&self, instance: u32, done: u64) -> bool
        ensures { result ≡ waits_still instance done self.now }
    {
        self.instance != instance || self.number > done
    }
}

/// The counts of each slot, its last generation, how many calls of each instance were seen done, and the names of the calls that were not, in the order of offering. A call's own slot comes first, and then those of its inputs.
#[derive(Drop)]
pub struct Pool {
    counts: SlotCounts,
    last: Vec<u32>,
    seen: Vec<u64>,
    waiting: Vec<Name>,
    room: usize,
    ghost roomy: { room ≤ vec_capacity waiting },
}

impl Pool {
    ghost use Rattle.owner_pool.specs.Holding.{Holds, CanOffer, told_in, called_in, named_in, last_in, seen_in, slot_count};

    /// No call was offered, and nothing is told. There is room for so many names.
    pub fn new(alloc: Global, slots: u32, instances: usize, room: usize) -> Result<Pool, AllocError>
        ensures holds { IfOk result (λ p. (sizes : List Size) → length sizes ≡ instances → room_for sizes ≤ room → Holds sizes p []) }
        ensures slots { IfOk result (λ p. slot_count p ≡ slots) }
        ensures untold { IfOk result (λ p. (z : ℕ) → told_in p z ≡ 0) }
    {
        let counts = SlotCounts::new(alloc, slots)?;
        let last = vec![in alloc; 0u32; slots as usize]?;
        let seen = vec![in alloc; 0u64; instances]?;
        let waiting = Vec::with_capacity(alloc, room)?;
        Ok(Pool {
            counts,
            last,
            seen,
            waiting,
            room,
        })
    }

    /// The caller's cell changes. The new handle is named before the old one is not, so that no slot is without a name in between.
    pub fn change(&mut self, old: Cell, new: Cell)
        requires holds { (sizes : List Size) × (book : List CallValue) × Holds sizes self.old book }
        requires old { OfHandle (λ h. (h.slot < slot_count self.old) × (0 < told_in self.old h.slot) × (h.generation ≡ last_in self.old h.slot)) old }
        requires new { OfHandle (λ h. (h.slot < slot_count self.old) × (0 < named_in self.old h.slot) × (told_in self.old h.slot < 2 ^ 32 - 1) × (h.generation ≡ last_in self.old h.slot)) new }
        ensures holds { (sizes : List Size) (book : List CallValue) → Holds sizes self.old book → Holds sizes self.new book }
        ensures told { (z : ℕ) → told_in self.new z ≡ (told_in self.old z + cell_names z new) - cell_names z old }
        ensures called { (z : ℕ) → called_in self.new z ≡ called_in self.old z }
        ensures rest { (self.new.last ≡ self.old.last) × (self.new.seen ≡ self.old.seen) × (slot_count self.new ≡ slot_count self.old) }
    {
        if let Cell::Held(handle) = new {
            self.counts.raise(handle.slot);
        }
        if let Cell::Held(handle) = old {
            self.counts.lower(handle.slot);
        }
    }

    /// A look showed that so many calls of an instance are done.
    pub fn see_done(&mut self, instance: u32, done: u64)
        requires { (sizes : List Size) × (book : List CallValue) × Holds sizes self.old book × (instance < length sizes) × (seen_in self.old instance ≤ done) × (done ≤ length (calls instance book)) }
        ensures holds { (sizes : List Size) (book : List CallValue) → Holds sizes self.old book → instance < length sizes → done ≤ length (calls instance book) → Holds sizes self.new book }
        ensures seen { self.new.seen.items ≡ slice_set self.old.seen.items instance done }
        ensures rest { (self.new.counts.told.items ≡ self.old.counts.told.items) × (self.new.last ≡ self.old.last) }
    {
        self.unname_done(instance, done);
        self.waiting.retain(|name| name.waits_still(instance, done));
        self.seen[instance as usize] = done;
    }

    // The names of the calls that are done are counted no more.
    fn unname_done(&mut self, instance: u32, done: u64)
        requires counts { AreCounts self.old.counts.told.items self.old.counts.called.items self.old.counts.order.items self.old.counts.place.items self.old.counts.unnamed }
        requires called { (z : ℕ) → called_in self.old z ≡ times z (slots_of self.old.waiting.items) }
        ensures counts { AreCounts self.new.counts.told.items self.new.counts.called.items self.new.counts.order.items self.new.counts.place.items self.new.counts.unnamed }
        ensures called { (z : ℕ) → called_in self.new z ≡ times z (slots_of (filter (waits_still instance done) self.old.waiting.items)) }
        ensures rest { (self.new.counts.told.items ≡ self.old.counts.told.items) × (self.new.last ≡ self.old.last) × (self.new.seen ≡ self.old.seen) × (self.new.waiting ≡ self.old.waiting) × (self.new.room ≡ self.old.room) }
    {
        for at in 0..self.waiting.len() {
            let name = self.waiting[at];
            if !name.waits_still(instance, done) {
                self.counts.unname(name.slot);
            }
        }
    }

    /// The call with this number of an instance is offered, with its slot and its inputs.
    pub fn offer(&mut self, instance: u32, number: u64, slot: u32, input: &[Cell])
        requires { (sizes : List Size) × (book : List CallValue) × Holds sizes self.old book × CanOffer sizes self.old book instance number slot input.now }
        ensures holds { (sizes : List Size) (book : List CallValue) → Holds sizes self.old book → CanOffer sizes self.old book instance number slot input.now → Holds sizes self.new (book ++ record { instance = instance; slot = slot; inputs = cell_slots input.now } ∷ []) }
        ensures called { (z : ℕ) → called_in self.new z ≡ called_in self.old z + times z (slot ∷ cell_slots input.now) }
        ensures last { self.new.last.items ≡ slice_set self.old.last.items slot (slice_index self.old.last.items slot + 1) }
        ensures rest { (self.new.counts.told.items ≡ self.old.counts.told.items) × (self.new.seen ≡ self.old.seen) }
    {
        self.push_names(instance, number, slot, input);
        self.last[slot as usize] += 1;
    }

    // The names of a call: its own slot, and those of the futures among its inputs.
    fn push_names(&mut self, instance: u32, number: u64, slot: u32, input: &[Cell])
        requires counts { AreCounts self.old.counts.told.items self.old.counts.called.items self.old.counts.order.items self.old.counts.place.items self.old.counts.unnamed }
        requires called { (z : ℕ) → called_in self.old z ≡ times z (slots_of self.old.waiting.items) }
        requires near { (slot < slot_count self.old) × EachSlot input.now (λ s. s < slot_count self.old) }
        requires room { length self.old.waiting.items + (1 + length (cell_slots input.now)) ≤ self.old.room }
        ensures counts { AreCounts self.new.counts.told.items self.new.counts.called.items self.new.counts.order.items self.new.counts.place.items self.new.counts.unnamed }
        ensures called { (z : ℕ) → called_in self.new z ≡ times z (slots_of self.new.waiting.items) }
        ensures waiting { self.new.waiting.items ≡ self.old.waiting.items ++ named_by instance number (slot ∷ cell_slots input.now) }
        ensures rest { (self.new.counts.told.items ≡ self.old.counts.told.items) × (self.new.last ≡ self.old.last) × (self.new.seen ≡ self.old.seen) × (self.new.room ≡ self.old.room) }
    {
        self.push_name(instance, number, slot);
        for cell in input {
            match *cell {
                Cell::Value(_) => {}
                Cell::Ready(_) => {}
                Cell::Held(handle) => self.push_name(instance, number, handle.slot),
            }
        }
    }

    fn push_name(&mut self, instance: u32, number: u64, slot: u32)
        requires counts { AreCounts self.old.counts.told.items self.old.counts.called.items self.old.counts.order.items self.old.counts.place.items self.old.counts.unnamed }
        requires called { (z : ℕ) → called_in self.old z ≡ times z (slots_of self.old.waiting.items) }
        requires near { slot < slot_count self.old }
        requires room { length self.old.waiting.items < self.old.room }
        ensures counts { AreCounts self.new.counts.told.items self.new.counts.called.items self.new.counts.order.items self.new.counts.place.items self.new.counts.unnamed }
        ensures called { (z : ℕ) → called_in self.new z ≡ times z (slots_of self.new.waiting.items) }
        ensures waiting { self.new.waiting.items ≡ self.old.waiting.items ++ record { instance = instance; number = number; slot = slot } ∷ [] }
        ensures rest { (self.new.counts.told.items ≡ self.old.counts.told.items) × (self.new.last ≡ self.old.last) × (self.new.seen ≡ self.old.seen) × (self.new.room ≡ self.old.room) }
    {
        self.counts.name(slot);
        let name = Name {
            instance,
            number,
            slot,
        };
        match self.waiting.push(name) {
            Ok(()) => {}
            Err(_) => unreachable!(),
        }
    }

    /// Whether there is a slot that is not named.
    pub fn has_free(&self) -> bool
        requires { (sizes : List Size) × (book : List CallValue) × Holds sizes self.now book }
        ensures { IsTrue result ↔ ((z : ℕ) × (z < slot_count self.now) × (named_in self.now z ≡ 0)) }
    {
        self.counts.has_free()
    }

    /// A slot that is not named. Where the told counts say how often the caller's cells name each slot, none of these names it, and no call that was not seen done does.
    pub fn free(&self) -> u32
        requires holds { (sizes : List Size) × (book : List CallValue) × Holds sizes self.now book }
        requires free { (z : ℕ) × (z < slot_count self.now) × (named_in self.now z ≡ 0) }
        ensures near { result < slot_count self.now }
        ensures unnamed { named_in self.now result ≡ 0 }
        ensures unfinished { (sizes : List Size) (book : List CallValue) → Holds sizes self.now book → IsUnnamed self.now.seen.items book result }
        ensures cells { (cells : List CellValue) → ((z : ℕ) → told_in self.now z ≡ times z (cell_slots cells)) → times result (cell_slots cells) ≡ 0 }
    {
        self.counts.free()
    }

    /// The last generation of a slot, 0 where it was never given.
    pub fn last(&self, slot: u32) -> u32
        requires holds { (sizes : List Size) × (book : List CallValue) × Holds sizes self.now book }
        requires near { slot < slot_count self.now }
        ensures { result ≡ last_in self.now slot }
    {
        self.last[slot as usize]
    }

    /// How often the caller told a slot.
    pub fn told(&self, slot: u32) -> u32
        requires { slot < slot_count self.now }
        ensures { result ≡ told_in self.now slot }
    {
        self.counts.told(slot)
    }

    /// How often the calls that were not seen done name a slot.
    pub fn called(&self, slot: u32) -> u64
        requires holds { (sizes : List Size) × (book : List CallValue) × Holds sizes self.now book }
        requires near { slot < slot_count self.now }
        ensures { result ≡ called_in self.now slot }
    {
        self.counts.called(slot)
    }

    /// How many calls of an instance were seen done.
    pub fn seen(&self, instance: u32) -> u64
        requires { (sizes : List Size) × (book : List CallValue) × Holds sizes self.now book × (instance < length sizes) }
        ensures { result ≡ seen_in self.now instance }
    {
        self.seen[instance as usize]
    }

    /// The oldest call that was not seen done: its instance, and its number there.
    pub fn oldest(&self) -> Option<(u32, u64)>
        ensures { MatchOption result (self.now.waiting.items ≡ []) (λ o. (name : NameValue) × (get_elem? self.now.waiting.items 0 ≡ some name) × (o ≡ (name.instance, name.number))) }
    {
        if self.waiting.is_empty() {
            return None;
        }
        let name = self.waiting[0];
        Some((name.instance, name.number))
    }
}
