// An owner and workers at a queue of one place.
ghost use Rattle.std.specs.Prelude.{◌≡◌, ◌^◌, ◌<◌, ◌≤◌, [], length};
ghost use Rattle.station_example.specs.Open.{IsOpen, TakesOne};
ghost use Rattle.station_rule.specs.Seats.{IsSeatOf, IsSameSeat, IsOwner, IsServer, IsIdle, book};

use crate::owner::{offer_once, offer_plain};
use crate::worker::{SumOwner, SumServer, Sums, complete, do_one, work};
use input_queue::{Take, room, try_take};
use station_rule::{Cell, Pool};
use std::sync::Wait;
use std::thread;
use std::thread::Threads;

/// One call at a queue of one place, with two servers. Answers whether each call answered as it should.
pub fn one_place<R: Wait>(
    rt: &R,
    station: &Sums,
    owner: &mut SumOwner,
    pool: &mut Pool,
    first: &mut SumServer,
    second: &mut SumServer,
) -> bool
    requires owner { IsOpen station.now owner.old.seat pool.old × (book owner.old.seat ≡ []) }
    requires first { IsSeatOf station.now first.old.seat × IsServer first.old.seat × IsIdle first.old.seat }
    requires second { IsSeatOf station.now second.old.seat × IsServer second.old.seat × IsIdle second.old.seat }
    requires instance { TakesOne station.now.layout 0 × (0 < station.now.layout.components) }
{
    let empty_queue = room(station, owner, pool, 0);
    if offer_once(station, owner, pool, 0, &[Cell::Value(5)]).is_none() {
        return false;
    }
    let full_queue = !room(station, owner, pool, 0);
    let refused = offer_once(station, owner, pool, 0, &[Cell::Value(6)]).is_none();
    let job = match try_take(station, first, 0) {
        Take::Taken(job) => job,
        Take::Empty => return false,
        Take::Busy => return false,
    };
    let first_call = job.number() == 1 && !job.reset();
    let busy = is_busy(rt, station, second);
    complete(rt, station, first, job);
    let none_waits = !do_one(rt, station, second, 0);
    empty_queue
        && full_queue
        && refused
        && first_call
        && busy
        && none_waits
        && room(station, owner, pool, 0)
}

fn is_busy<R: Wait>(rt: &R, station: &Sums, server: &mut SumServer) -> bool
    requires server { IsSeatOf station.now server.old.seat × IsServer server.old.seat × IsIdle server.old.seat }
    requires instance { TakesOne station.now.layout 0 × (0 < station.now.layout.components) }
    ensures { IsSameSeat server.old.seat server.new.seat × IsSeatOf station.now server.new.seat × IsServer server.new.seat × IsIdle server.new.seat }
{
    match try_take(station, server, 0) {
        Take::Taken(job) => {
            complete(rt, station, server, job);
            false
        }
        Take::Empty => false,
        Take::Busy => true,
    }
}

fn offer_and_close(station: &Sums, owner: &mut SumOwner, pool: &mut Pool, count: u32) -> u32
    requires owner { IsOpen station.now owner.old.seat pool.old × (book owner.old.seat ≡ []) }
    requires instance { TakesOne station.now.layout 0 }
    ensures { IsSameSeat owner.old.seat owner.new.seat × IsSeatOf station.now owner.new.seat × IsOwner owner.new.seat }
{
    let offered = offer_plain(station, owner, pool, count);
    station.close(owner);
    offered
}

/// Answers how many calls were offered, and how many the worker did. The worker's seat is given up.
pub fn run<R: Threads + Wait + Sync>(
    rt: &R,
    station: &Sums,
    owner: SumOwner,
    pool: Pool,
    server: SumServer,
    count: u32,
) -> (u32, u64)
    requires owner { IsOpen station.now owner.seat pool × (book owner.seat ≡ []) }
    requires server { IsSeatOf station.now server.seat × IsServer server.seat × IsIdle server.seat }
    requires instance { TakesOne station.now.layout 0 × (0 < station.now.layout.components) }
{
    let mut owner = owner;
    let mut pool = pool;
    let mut server = server;
    thread::join(
        rt,
        move ||
            requires { IsOpen station.now owner.seat pool × (book owner.seat ≡ []) × TakesOne station.now.layout 0 }
        { offer_and_close(station, &mut owner, &mut pool, count) },
        move ||
            requires { IsSeatOf station.now server.seat × IsServer server.seat × IsIdle server.seat × TakesOne station.now.layout 0 × (0 < station.now.layout.components) }
        { work(rt, station, &mut server) },
    )
}
