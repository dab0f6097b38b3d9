// The owner's side.
ghost use Rattle.std.specs.Prelude.{◌≡◌, ◌≤◌, ℕ, ◌*◌, ◌+◌, ◌-◌, ◌^◌, ◌<◌, [], length, None, IfSome};
ghost use Rattle.owner_pool.specs.Holding.{told_in, last_in, named_in, slot_count};
ghost use Rattle.station_rule.specs.Cells.{EachHeld};
ghost use Rattle.station_rule.specs.Seats.{IsSeatOf, IsSameSeat, IsOwner, book};
ghost use Rattle.station_example.specs.Open.{IsOpen, IsKept, TakesOne};

use crate::worker::{SumOwner, Sums, TURNS};
use future_slots::{change, free_slot};
use input_queue::{Offer, try_offer};
use station_rule::{Cell, Handle, Pool};
use std::thread;

/// Offers a call with one input and a slot that nothing names. Answers the handle of its output, or nothing if the queue is full or each slot is named.
pub fn offer_once(
    station: &Sums,
    owner: &mut SumOwner,
    pool: &mut Pool,
    instance: u32,
    input: &[Cell],
) -> Option<Handle>
    requires owner { IsOpen station.now owner.old.seat pool.old × (length (book owner.old.seat) < 2 ^ 32 - 1) }
    requires instance { TakesOne station.now.layout instance }
    requires input { (length input.now ≡ 1) × EachHeld input.now (λ h. IsKept pool.old h × (h.component < station.now.layout.components)) }
    ensures owner { IsSameSeat owner.old.seat owner.new.seat × IsOpen station.now owner.new.seat pool.new }
    ensures told { (z : ℕ) → told_in pool.new z ≡ told_in pool.old z }
    ensures kept { (z : ℕ) → 0 < told_in pool.old z → last_in pool.new z ≡ last_in pool.old z }
    ensures offered { IfSome result (λ h. (length (book owner.new.seat) ≡ length (book owner.old.seat) + 1) × (h.component ≡ 0) × (0 < h.generation) × (h.generation ≡ last_in pool.new h.slot) × (h.slot < slot_count pool.new) × (0 < named_in pool.new h.slot)) }
    ensures refused { result ≡ None → book owner.new.seat ≡ book owner.old.seat }
{
    if !pool.has_free() {
        return None;
    }
    let slot = free_slot(pool);
    match try_offer(station, owner, pool, instance, false, input, slot) {
        Offer::Offered(handle) => Some(handle),
        Offer::Full => None,
    }
}

/// Offers a call with one input until there is room. Answers the handle of its output, or nothing if there is none for too long.
pub fn offer(
    station: &Sums,
    owner: &mut SumOwner,
    pool: &mut Pool,
    instance: u32,
    input: &[Cell],
) -> Option<Handle>
    requires owner { IsOpen station.now owner.old.seat pool.old × (length (book owner.old.seat) < 2 ^ 32 - 1) }
    requires instance { TakesOne station.now.layout instance }
    requires input { (length input.now ≡ 1) × EachHeld input.now (λ h. IsKept pool.old h × (h.component < station.now.layout.components)) }
    ensures owner { IsSameSeat owner.old.seat owner.new.seat × IsOpen station.now owner.new.seat pool.new }
    ensures told { (z : ℕ) → told_in pool.new z ≡ told_in pool.old z }
    ensures kept { (z : ℕ) → 0 < told_in pool.old z → last_in pool.new z ≡ last_in pool.old z }
    ensures offered { IfSome result (λ h. (length (book owner.new.seat) ≡ length (book owner.old.seat) + 1) × (h.component ≡ 0) × (0 < h.generation) × (h.generation ≡ last_in pool.new h.slot) × (h.slot < slot_count pool.new) × (0 < named_in pool.new h.slot)) }
{
    for _ in 0..TURNS {
        if let Some(handle) = offer_once(station, owner, pool, instance, input) {
            return Some(handle);
        }
        thread::yield_now();
    }
    None
}

/// Offers `count` calls of instance 0, each on its own number. Answers how many were offered.
pub fn offer_plain(station: &Sums, owner: &mut SumOwner, pool: &mut Pool, count: u32) -> u32
    requires owner { IsOpen station.now owner.old.seat pool.old × (book owner.old.seat ≡ []) }
    requires instance { TakesOne station.now.layout 0 }
    ensures owner { IsSameSeat owner.old.seat owner.new.seat × IsOpen station.now owner.new.seat pool.new }
{
    for number in 0..count {
        if offer(station, owner, pool, 0, &[Cell::Value(number)]).is_none() {
            return number;
        }
    }
    count
}

/// Offers a pair of calls: one of instance 0 on a number, and one of instance 1 on its future, which is told until the second call is offered. Answers how many calls were offered.
pub fn offer_pair(station: &Sums, owner: &mut SumOwner, pool: &mut Pool, number: u32) -> u32
    requires owner { IsOpen station.now owner.old.seat pool.old × (length (book owner.old.seat) < 2 ^ 32 - 2) }
    requires untold { (z : ℕ) → told_in pool.old z ≡ 0 }
    requires instances { TakesOne station.now.layout 0 × TakesOne station.now.layout 1 × (0 < station.now.layout.components) }
    ensures owner { IsSameSeat owner.old.seat owner.new.seat × IsOpen station.now owner.new.seat pool.new }
    ensures untold { (z : ℕ) → told_in pool.new z ≡ 0 }
    ensures offered { result ≡ 2 → length (book owner.new.seat) ≡ length (book owner.old.seat) + 2 }
    ensures few { result ≤ 2 }
{
    let Some(future) = offer(station, owner, pool, 0, &[Cell::Value(number)]) else {
        return 0;
    };
    let told = Cell::Held(future);
    change(pool, Cell::Value(0), told);
    let second = offer(station, owner, pool, 1, &[told]);
    change(pool, told, Cell::Value(0));
    if second.is_none() { 1 } else { 2 }
}

/// Offers `count` pairs of calls. Answers how many calls were offered.
pub fn offer_pairs(station: &Sums, owner: &mut SumOwner, pool: &mut Pool, count: u32) -> u32
    requires owner { IsOpen station.now owner.old.seat pool.old × (book owner.old.seat ≡ []) }
    requires untold { (z : ℕ) → told_in pool.old z ≡ 0 }
    requires instances { TakesOne station.now.layout 0 × TakesOne station.now.layout 1 × (0 < station.now.layout.components) }
    requires count { count < 2 ^ 30 }
    ensures owner { IsSameSeat owner.old.seat owner.new.seat × IsOpen station.now owner.new.seat pool.new }
{
    for number in 0..count {
        let offered = offer_pair(station, owner, pool, number);
        if offered != 2 {
            return 2 * number + offered;
        }
    }
    2 * count
}
