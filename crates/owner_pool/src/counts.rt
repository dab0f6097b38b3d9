// How often each slot is named, and the slots that are not.
ghost use Rattle.std.specs.Prelude.{◌≡◌, ◌≢◌, ℕ, ◌+◌, ◌-◌, ◌<◌, ◌≤◌, ◌^◌, ◌==◌, length, replicate, slice_index, IfOk, IsTrue, ◌↔◌};
ghost use Rattle.owner_pool.specs.Counted.{AreCounts, IsOrder, IsSplit, Exchanged, one_if};

use std::alloc::{AllocError, Global};

/// Per slot how often the caller told it, and how often calls that were not seen done name it. The first `unnamed` slots of `order` are those with no name; `place` says where each slot stands in it.
#[derive(Drop)]
pub struct SlotCounts {
    told: Vec<u32>,
    called: Vec<u64>,
    order: Vec<u32>,
    place: Vec<u32>,
    unnamed: usize,
}

impl SlotCounts {
    /// No slot is named.
    pub fn new(alloc: Global, slots: u32) -> Result<SlotCounts, AllocError>
        ensures counts { IfOk result (λ p. AreCounts p.told.items p.called.items p.order.items p.place.items p.unnamed) }
        ensures told { IfOk result (λ p. p.told.items ≡ replicate slots 0) }
        ensures called { IfOk result (λ p. p.called.items ≡ replicate slots 0) }
    {
        let told = vec![in alloc; 0u32; slots as usize]?;
        let called = vec![in alloc; 0u64; slots as usize]?;
        let mut order = Vec::new(alloc);
        let mut place = Vec::new(alloc);
        for slot in 0..slots {
            order.push(slot)?;
            place.push(slot)?;
        }
        Ok(SlotCounts {
            told,
            called,
            order,
            place,
            unnamed: slots as usize,
        })
    }

    /// How often the caller told a slot.
    pub fn told(&self, slot: u32) -> u32
        requires { slot < length self.now.told.items }
        ensures { result ≡ slice_index self.now.told.items slot }
    {
        self.told[slot as usize]
    }

    /// How often calls that were not seen done name a slot.
    pub fn called(&self, slot: u32) -> u64
        requires { slot < length self.now.called.items }
        ensures { result ≡ slice_index self.now.called.items slot }
    {
        self.called[slot as usize]
    }

    /// A slot that is told once more.
    pub fn raise(&mut self, slot: u32)
        requires counts { AreCounts self.old.told.items self.old.called.items self.old.order.items self.old.place.items self.old.unnamed }
        requires near { slot < length self.old.told.items }
        requires named { 0 < slice_index self.old.told.items slot + slice_index self.old.called.items slot }
        requires few { slice_index self.old.told.items slot < 2 ^ 32 - 1 }
        ensures counts { AreCounts self.new.told.items self.new.called.items self.new.order.items self.new.place.items self.new.unnamed }
        ensures told { (z : ℕ) → slice_index self.new.told.items z ≡ slice_index self.old.told.items z + one_if (slot == z) }
        ensures called { self.new.called.items ≡ self.old.called.items }
        ensures slots { length self.new.told.items ≡ length self.old.told.items }
    {
        self.told[slot as usize] += 1;
    }

    /// A slot is told once less.
    pub fn lower(&mut self, slot: u32)
        requires counts { AreCounts self.old.told.items self.old.called.items self.old.order.items self.old.place.items self.old.unnamed }
        requires near { slot < length self.old.told.items }
        requires told { 0 < slice_index self.old.told.items slot }
        ensures counts { AreCounts self.new.told.items self.new.called.items self.new.order.items self.new.place.items self.new.unnamed }
        ensures told { (z : ℕ) → slice_index self.new.told.items z ≡ slice_index self.old.told.items z - one_if (slot == z) }
        ensures called { self.new.called.items ≡ self.old.called.items }
        ensures slots { length self.new.told.items ≡ length self.old.told.items }
    {
        let at = slot as usize;
        self.told[at] -= 1;
        if self.told[at] == 0 && self.called[at] == 0 {
            self.show(slot);
        }
    }

    /// A slot that one more call names.
    pub fn name(&mut self, slot: u32)
        requires counts { AreCounts self.old.told.items self.old.called.items self.old.order.items self.old.place.items self.old.unnamed }
        requires near { slot < length self.old.told.items }
        requires few { slice_index self.old.called.items slot < 2 ^ 64 - 1 }
        ensures counts { AreCounts self.new.told.items self.new.called.items self.new.order.items self.new.place.items self.new.unnamed }
        ensures called { (z : ℕ) → slice_index self.new.called.items z ≡ slice_index self.old.called.items z + one_if (slot == z) }
        ensures told { self.new.told.items ≡ self.old.told.items }
    {
        let at = slot as usize;
        self.called[at] += 1;
        if self.told[at] == 0 && self.called[at] == 1 {
            self.hide(slot);
        }
    }

    /// A slot that one call less names.
    pub fn unname(&mut self, slot: u32)
        requires counts { AreCounts self.old.told.items self.old.called.items self.old.order.items self.old.place.items self.old.unnamed }
        requires near { slot < length self.old.told.items }
        requires called { 0 < slice_index self.old.called.items slot }
        ensures counts { AreCounts self.new.told.items self.new.called.items self.new.order.items self.new.place.items self.new.unnamed }
        ensures called { (z : ℕ) → slice_index self.new.called.items z ≡ slice_index self.old.called.items z - one_if (slot == z) }
        ensures told { self.new.told.items ≡ self.old.told.items }
    {
        let at = slot as usize;
        self.called[at] -= 1;
        if self.told[at] == 0 && self.called[at] == 0 {
            self.show(slot);
        }
    }

    /// Whether there is a slot that is not named.
    pub fn has_free(&self) -> bool
        requires { AreCounts self.now.told.items self.now.called.items self.now.order.items self.now.place.items self.now.unnamed }
        ensures { IsTrue result ↔ ((z : ℕ) × (z < length self.now.told.items) × (slice_index self.now.told.items z + slice_index self.now.called.items z ≡ 0)) }
    {
        self.unnamed > 0
    }

    /// A slot that is not named.
    pub fn free(&self) -> u32
        requires counts { AreCounts self.now.told.items self.now.called.items self.now.order.items self.now.place.items self.now.unnamed }
        requires free { (z : ℕ) × (z < length self.now.told.items) × (slice_index self.now.told.items z + slice_index self.now.called.items z ≡ 0) }
        ensures near { result < length self.now.told.items }
        ensures unnamed { slice_index self.now.told.items result + slice_index self.now.called.items result ≡ 0 }
    {
        self.order[self.unnamed - 1]
    }

    // A slot that is named no more joins those with no name.
    fn show(&mut self, slot: u32)
        requires order { IsOrder (length self.old.told.items) self.old.order.items self.old.place.items }
        requires near { (slot < length self.old.told.items) × (self.old.unnamed < length self.old.told.items) × (length self.old.told.items < 2 ^ 32) }
        ensures order { IsOrder (length self.old.told.items) self.new.order.items self.new.place.items }
        ensures split { (f g : ℕ → ℕ) → IsSplit (length self.old.told.items) f self.old.place.items self.old.unnamed → 0 < f slot → g slot ≡ 0 → ((z : ℕ) → z ≢ slot → g z ≡ f z) → IsSplit (length self.old.told.items) g self.new.place.items self.new.unnamed }
        ensures same { (self.new.told ≡ self.old.told) × (self.new.called ≡ self.old.called) }
    {
        self.swap_places(slot, self.unnamed);
        self.unnamed += 1;
    }

    // A slot that is named from now on leaves those with no name.
    fn hide(&mut self, slot: u32)
        requires order { IsOrder (length self.old.told.items) self.old.order.items self.old.place.items }
        requires near { (slot < length self.old.told.items) × (0 < self.old.unnamed) × (self.old.unnamed ≤ length self.old.told.items) × (length self.old.told.items < 2 ^ 32) }
        ensures order { IsOrder (length self.old.told.items) self.new.order.items self.new.place.items }
        ensures split { (f g : ℕ → ℕ) → IsSplit (length self.old.told.items) f self.old.place.items self.old.unnamed → f slot ≡ 0 → 0 < g slot → ((z : ℕ) → z ≢ slot → g z ≡ f z) → IsSplit (length self.old.told.items) g self.new.place.items self.new.unnamed }
        ensures same { (self.new.told ≡ self.old.told) × (self.new.called ≡ self.old.called) }
    {
        self.unnamed -= 1;
        self.swap_places(slot, self.unnamed);
    }

    // The slot and the one at a place change places.
    fn swap_places(&mut self, slot: u32, to: usize)
        requires order { IsOrder (length self.old.told.items) self.old.order.items self.old.place.items }
        requires near { (slot < length self.old.told.items) × (to < length self.old.told.items) × (length self.old.told.items < 2 ^ 32) }
        ensures order { IsOrder (length self.old.told.items) self.new.order.items self.new.place.items }
        ensures places { Exchanged self.old.order.items self.old.place.items self.new.place.items slot to }
        ensures same { (self.new.told ≡ self.old.told) × (self.new.called ≡ self.old.called) × (self.new.unnamed ≡ self.old.unnamed) }
    {
        let other = self.order[to];
        let at = self.place[slot as usize];
        self.order[at as usize] = other;
        self.place[other as usize] = at;
        self.order[to] = slot;
        self.place[slot as usize] = to as u32;
    }
}
