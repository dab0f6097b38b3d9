// A worker.
ghost use Rattle.std.specs.Prelude.{◌≡◌, ◌+◌, ◌*◌, ◌^◌, ◌<◌, ◌≤◌, ◌/◌, ◌%◌, ◌∷◌, ◌++◌, [], length, slice_index};
ghost use Rattle.station_rule.specs.Steps.{job_of, rest_jobs};
ghost use mathlib.Core.Option.{some};
ghost use lib.ListN.{get_elem?};
ghost use Rattle.station_rule.specs.Book.{sents, slot_of, gen_of};
ghost use Rattle.station_rule.specs.Cells.{input_of, EachHeld, IsInput};
ghost use Rattle.step_cells.specs.declared.cell.Cell.TheVariants.{Held};
ghost use Rattle.atomic_table.specs.Table.{rest};
ghost use Rattle.station_example.specs.Total.{StandsFor, outputs};
ghost use Rattle.station_rule.specs.Seats.{IsSeatOf, IsSameSeat, IsServer, IsIdle, IsTaken, HasInstance};
ghost use Rattle.station_example.specs.Open.{TakesOne};

use crate::{Adds, Sum};
use future_slots::{Got, fill, try_get};
use input_queue::{Take, finish, try_take};
use station_rule::{Cell, Handle, Job, Owner, Server, Station};
use std::alloc::Global;
use std::sync::Wait;
use std::thread;

pub type Sums = Station<Sum, Adds, Global>;

pub type SumOwner = Owner<Sum>;

pub type SumServer = Server<Sum>;

/// The most turns that a loop makes.
pub const TURNS: u64 = 50_000_000;

// The value of a future of the job's input. A call that was taken has to be done, so this waits as long as it takes.
fn future_value<R: Wait>(rt: &R, station: &Sums, server: &mut SumServer, handle: Handle) -> u64
    requires server { IsSeatOf station.now server.old.seat × IsServer server.old.seat × (server.old.seat.me.0.jobs ≡ job_of server.old.seat.me.0 ∷ rest_jobs server.old.seat.me.0.jobs) × HasInstance station.now (job_of server.old.seat.me.0).call.instance }
    requires handle { (get_elem? (input_of (job_of server.old.seat.me.0).call) 0 ≡ some (Held handle)) × (handle.slot < station.now.layout.slots) × (handle.component < station.now.layout.components) }
    ensures seat { IsSameSeat server.old.seat server.new.seat × (server.new.seat.me.0.jobs ≡ server.old.seat.me.0.jobs) × (server.new.seat.me.0.role ≡ server.old.seat.me.0.role) × (server.new.seat.me.0.layout ≡ server.old.seat.me.0.layout) × (server.new.seat.me.0.closed ≡ server.old.seat.me.0.closed) × (server.new.seat.me.1 ≡ server.old.seat.me.1) }
    ensures value { result ≡ slice_index (job_of server.old.seat.me.0).call.sent.values 0 }
{
    for _ in rt.forever() {
        match try_get(station, server, handle) {
            Got::Ready(value) => return value as u64,
            Got::NotYet => thread::yield_now(),
        }
    }
    unreachable!()
}

// The value of the job's input, which may be a future.
fn input_value<R: Wait>(rt: &R, station: &Sums, server: &mut SumServer) -> u64
    requires server { IsSeatOf station.now server.old.seat × IsServer server.old.seat × (server.old.seat.me.0.jobs ≡ job_of server.old.seat.me.0 ∷ rest_jobs server.old.seat.me.0.jobs) × HasInstance station.now (job_of server.old.seat.me.0).call.instance }
    requires input { (length server.old.cells.items ≡ 1) × (input_of (job_of server.old.seat.me.0).call ≡ server.old.cells.items) × IsInput server.old.cells.items (job_of server.old.seat.me.0).call.sent × EachHeld server.old.cells.items (λ h. (h.slot < station.now.layout.slots) × (h.component < station.now.layout.components)) }
    ensures seat { IsSameSeat server.old.seat server.new.seat × (server.new.seat.me.0.jobs ≡ server.old.seat.me.0.jobs) × (server.new.seat.me.0.role ≡ server.old.seat.me.0.role) × (server.new.seat.me.0.layout ≡ server.old.seat.me.0.layout) × (server.new.seat.me.0.closed ≡ server.old.seat.me.0.closed) × (server.new.seat.me.1 ≡ server.old.seat.me.1) }
    ensures value { result ≡ slice_index (job_of server.old.seat.me.0).call.sent.values 0 }
{
    match server.input()[0] {
        Cell::Value(value) => value as u64,
        Cell::Ready(value) => value as u64,
        Cell::Held(handle) => future_value(rt, station, server, handle),
    }
}

/// Does a call that was taken: reads its input, adds it up, fills the output and finishes.
pub fn complete<R: Wait>(rt: &R, station: &Sums, server: &mut SumServer, mut job: Job<Sum>)
    requires server { IsSeatOf station.now server.old.seat × IsServer server.old.seat × IsTaken server.old.seat job.instance job.number × HasInstance station.now job.instance × (0 < station.now.layout.components) }
    requires slot { (job.slot.slot ≡ slot_of (job_of server.old.seat.me.0).call.words) × (job.slot.generation ≡ gen_of (job_of server.old.seat.me.0).call.words) × (job.slot.slot < station.now.layout.slots) × ((job_of server.old.seat.me.0).filled ≡ []) }
    requires input { (length server.old.cells.items ≡ 1) × (input_of (job_of server.old.seat.me.0).call ≡ server.old.cells.items) × IsInput server.old.cells.items (job_of server.old.seat.me.0).call.sent × EachHeld server.old.cells.items (λ h. (h.slot < station.now.layout.slots) × (h.component < station.now.layout.components)) }
    requires memory { StandsFor job.instance job.memory (sents (job_of server.old.seat.me.0).before) × ((job_of server.old.seat.me.0).call.outs ≡ outputs job.instance (sents (job_of server.old.seat.me.0).before ++ (job_of server.old.seat.me.0).call.sent ∷ [])) }
    ensures { IsSameSeat server.old.seat server.new.seat × IsSeatOf station.now server.new.seat × IsServer server.new.seat × (server.new.seat.me.0.closed ≡ server.old.seat.me.0.closed) × (server.new.seat.me.0.jobs ≡ rest_jobs server.old.seat.me.0.jobs) × (server.new.seat.me.1 ≡ rest server.old.seat.me.1) }
{
    let value = input_value(rt, station, server);
    let memory = job.memory();
    memory.step(value);
    let total = memory.total();
    fill(station, server, &job, 0, total);
    finish(station, server, job);
}

/// Tries to take a call of an instance, and does it. Answers whether one was done.
pub fn do_one<R: Wait>(rt: &R, station: &Sums, server: &mut SumServer, instance: u32) -> bool
    requires server { IsSeatOf station.now server.old.seat × IsServer server.old.seat × IsIdle server.old.seat }
    requires instance { TakesOne station.now.layout instance × (0 < station.now.layout.components) }
    ensures { IsSameSeat server.old.seat server.new.seat × IsSeatOf station.now server.new.seat × IsServer server.new.seat × IsIdle server.new.seat × (server.new.seat.me.0.closed ≡ server.old.seat.me.0.closed) }
{
    match try_take(station, server, instance) {
        Take::Taken(job) => {
            complete(rt, station, server, job);
            true
        }
        Take::Empty => false,
        Take::Busy => false,
    }
}

/// A standing worker of both instances: each call of instance 1 has a future of one of instance 0, so it takes no more of these than it did of those (it would wait for itself), and it ends when the station is closed and it finds none.
pub fn stand<R: Wait>(rt: &R, station: &Sums, mut server: SumServer) -> SumServer
    requires server { IsSeatOf station.now server.seat × IsServer server.seat × IsIdle server.seat }
    requires instances { TakesOne station.now.layout 0 × TakesOne station.now.layout 1 × (0 < station.now.layout.components) }
    ensures { (result.seat.table_id ≡ server.seat.table_id) × (result.seat.me.0.layout ≡ server.seat.me.0.layout) × IsServer result.seat × IsIdle result.seat × (result.seat.me.0.closed ≡ 1) }
{
    let mut ahead: u64 = 0;
    for _ in rt.forever() {
        let closed = station.closed(&mut server);
        let first = do_one(rt, station, &mut server, 0);
        if first {
            ahead = ahead.saturating_add(1);
        }
        let second = ahead > 0 && do_one(rt, station, &mut server, 1);
        if second {
            ahead -= 1;
        }
        if !first && !second {
            if closed {
                return server;
            }
            thread::yield_now();
        }
    }
    unreachable!()
}

/// A worker of instance 0 alone, for at most `TURNS` turns. Answers how many calls it did.
pub fn work<R: Wait>(rt: &R, station: &Sums, server: &mut SumServer) -> u64
    requires server { IsSeatOf station.now server.old.seat × IsServer server.old.seat × IsIdle server.old.seat }
    requires instance { TakesOne station.now.layout 0 × (0 < station.now.layout.components) }
    ensures { IsSameSeat server.old.seat server.new.seat × IsSeatOf station.now server.new.seat × IsServer server.new.seat × IsIdle server.new.seat }
{
    let mut done = 0;
    for _ in 0..TURNS {
        let closed = station.closed(server);
        if do_one(rt, station, server, 0) {
            done += 1;
        } else if closed {
            return done;
        } else {
            thread::yield_now();
        }
    }
    done
}
