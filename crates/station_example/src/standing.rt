// A scope that starts a standing worker in a thread of its own.
ghost use Rattle.std.specs.Prelude.{◌≡◌, ℕ, ◌*◌, ◌^◌, ◌<◌, ◌≤◌, [], length};
ghost use Rattle.owner_pool.specs.Holding.{told_in};
ghost use Rattle.station_example.specs.Open.{IsOpen, TakesOne};
ghost use Rattle.station_rule.specs.Seats.{IsSeatOf, IsOwner, IsServer, IsIdle, book};

use crate::owner::offer_pairs;
use crate::worker::{SumOwner, SumServer, Sums, stand};
use station_rule::Pool;
use std::snapshot::Snapshot;
use std::sync::Wait;
use std::thread;
use std::thread::{Promise, Threads};

/// What a worker's thread gives back: its server, with no job.
#[derive(Drop)]
pub struct ServerBack(Snapshot<SumServer>);

impl Promise<SumServer> for ServerBack {
    ghost use Rattle.std.specs.Prelude.{◌≡◌};
    ghost use Rattle.station_rule.specs.Seats.{IsServer, IsIdle};

    ghost kept_by = { λ p r. (r.seat.table_id ≡ p.0.value.seat.table_id) × (r.seat.me.0.layout ≡ p.0.value.seat.me.0.layout) × IsServer r.seat × IsIdle r.seat × (r.seat.me.0.closed ≡ 1) };
}

/// Offers `count` pairs while a worker does them in a thread of its own, and gives the worker's seat up.
pub fn with_worker<R: Threads + Wait + Sync>(
    rt: &R,
    station: &Sums,
    owner: SumOwner,
    pool: Pool,
    server: SumServer,
    count: u32,
) -> (SumOwner, u32)
    requires owner { IsOpen station.now owner.seat pool × (book owner.seat ≡ []) }
    requires untold { (z : ℕ) → told_in pool z ≡ 0 }
    requires server { IsSeatOf station.now server.seat × IsServer server.seat × IsIdle server.seat }
    requires instances { TakesOne station.now.layout 0 × TakesOne station.now.layout 1 × (0 < station.now.layout.components) }
    requires count { count < 2 ^ 30 }
    ensures { (result.0.seat.table_id ≡ owner.seat.table_id) × (result.0.seat.me.0.layout ≡ owner.seat.me.0.layout) × IsOwner result.0.seat × (result.0.seat.me.0.closed ≡ 1) }
{
    thread::scope(
        thread::scope_env(),
        rt,
        move |scope| -> (SumOwner, u32)
            requires { IsOpen station.now owner.seat pool × (book owner.seat ≡ []) × ((z : ℕ) → told_in pool z ≡ 0) × IsSeatOf station.now server.seat × IsServer server.seat × IsIdle server.seat × TakesOne station.now.layout 0 × TakesOne station.now.layout 1 × (0 < station.now.layout.components) × (count < 2 ^ 30) }
            ensures { (result.0.seat.table_id ≡ owner.seat.table_id) × (result.0.seat.me.0.layout ≡ owner.seat.me.0.layout) × IsOwner result.0.seat × (result.0.seat.me.0.closed ≡ 1) }
        {
            let mut owner = owner;
            let mut pool = pool;
            let promise = ServerBack(Snapshot::of(&server));
            let worker = scope.spawn_with(
                promise,
                move || -> SumServer
                    requires { IsSeatOf station.now server.seat × IsServer server.seat × IsIdle server.seat × TakesOne station.now.layout 0 × TakesOne station.now.layout 1 × (0 < station.now.layout.components) }
                    ensures { (result.seat.table_id ≡ server.seat.table_id) × (result.seat.me.0.layout ≡ server.seat.me.0.layout) × IsServer result.seat × IsIdle result.seat × (result.seat.me.0.closed ≡ 1) }
                { stand(rt, station, server) },
            );
            let offered = offer_pairs(station, &mut owner, &mut pool, count);
            station.close(&mut owner);
            if let Ok(worker) = worker {
                let back = worker.join(rt);
                station.join(&mut owner, back);
            }
            (owner, offered)
        },
    )
}
