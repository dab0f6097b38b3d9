// The slots of an owner's pool: the caller tells which handles its cells hold, and asks for a slot that nothing names.
ghost use Rattle.std.specs.Prelude.{◌≡◌, ℕ, ◌+◌, ◌-◌, ◌<◌, ◌^◌, List};
ghost use Rattle.step_cells.specs.declared.cell.Cell.{Cell as CellValue};
ghost use Rattle.owner_pool.specs.Counted.{times};
ghost use Rattle.owner_pool.specs.Noting.{OfHandle, cell_names, cell_slots};
ghost use Rattle.owner_pool.specs.Holding.{told_in, called_in, named_in, last_in, slot_count};
ghost use Rattle.station_rule.specs.declared.view.View.{View as ViewValue};
ghost use Rattle.station_rule.specs.Book.{IsUnnamed};
ghost use Rattle.station_rule.specs.Pools.{IsPoolOf};

use station_rule::{Cell, Pool, Slot};

/// A slot that no count names, with its next generation. No call that the owner has not seen done names it, and none of the cells whose handles were told.
pub fn free_slot(pool: &Pool) -> Slot
    requires pool { (v : ViewValue) × IsPoolOf v pool.now }
    requires free { (z : ℕ) × (z < slot_count pool.now) × (named_in pool.now z ≡ 0) }
    requires generations { (z : ℕ) → z < slot_count pool.now → named_in pool.now z ≡ 0 → last_in pool.now z < 2 ^ 32 - 1 }
    ensures near { result.slot < slot_count pool.now }
    ensures unnamed { named_in pool.now result.slot ≡ 0 }
    ensures next { result.generation ≡ last_in pool.now result.slot + 1 }
    ensures unfinished { (v : ViewValue) → IsPoolOf v pool.now → IsUnnamed v.book v.seen result.slot }
    ensures cells { (cells : List CellValue) → ((z : ℕ) → told_in pool.now z ≡ times z (cell_slots cells)) → times result.slot (cell_slots cells) ≡ 0 }
{
    let slot = pool.free();
    let generation = pool.last(slot) + 1;
    Slot { slot, generation }
}

/// A cell of the caller changes: the told count of the slot of the old handle falls by one, and that of the new one rises.
pub fn change(pool: &mut Pool, old: Cell, new: Cell)
    requires pool { (v : ViewValue) × IsPoolOf v pool.old }
    requires old { OfHandle (λ h. (h.slot < slot_count pool.old) × (0 < told_in pool.old h.slot) × (h.generation ≡ last_in pool.old h.slot)) old }
    requires new { OfHandle (λ h. (h.slot < slot_count pool.old) × (0 < named_in pool.old h.slot) × (told_in pool.old h.slot < 2 ^ 32 - 1) × (h.generation ≡ last_in pool.old h.slot)) new }
    ensures pool { (v : ViewValue) → IsPoolOf v pool.old → IsPoolOf v pool.new }
    ensures told { (z : ℕ) → told_in pool.new z ≡ (told_in pool.old z + cell_names z new) - cell_names z old }
    ensures called { (z : ℕ) → called_in pool.new z ≡ called_in pool.old z }
    ensures rest { (pool.new.last ≡ pool.old.last) × (pool.new.seen ≡ pool.old.seen) × (slot_count pool.new ≡ slot_count pool.old) }
{
    pool.change(old, new);
}
