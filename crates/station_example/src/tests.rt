use super::*;
use station_rule::{Layout, Station};
use std::test::Fail;

#[test]
fn one_place_queue(rt: HostRuntime) -> Result<(), Fail> {
    let mut layout = Layout::new(rt.alloc(), 8, 1);
    layout.push(1, 1, None)?;
    let memories = vec![in rt.alloc(); Some(Sum::new())]?;
    let (station, mut owner, mut pool, mut servers) = Station::new(
        rt.alloc(),
        rt.alloc(),
        layout,
        memories,
        2,
    )?;
    if let (Some(mut first), Some(mut second)) = (servers.pop(), servers.pop()) {
        assert!(rt;
            one_place(
                &rt,
                &station,
                &mut owner,
                &mut pool,
                &mut first,
                &mut second
            )
        );
    }
    Ok(())
}

#[test]
fn a_thousand_calls(rt: HostRuntime) -> Result<(), Fail> {
    let mut layout = Layout::new(rt.alloc(), 8, 1);
    layout.push(1, 1, None)?;
    let memories = vec![in rt.alloc(); Some(Sum::new())]?;
    let (station, owner, pool, mut servers) = Station::new(
        rt.alloc(),
        rt.alloc(),
        layout,
        memories,
        1,
    )?;
    if let Some(server) = servers.pop() {
        let (offered, done) = run(&rt, &station, owner, pool, server, 1000);
        assert!(rt; offered == 1000 && done == 1000);
    }
    Ok(())
}

#[test]
fn a_standing_worker(rt: HostRuntime) -> Result<(), Fail> {
    let mut layout = Layout::new(rt.alloc(), 16, 1);
    layout.push(1, 1, None)?;
    layout.push(3, 1, None)?;
    let memories = vec![in rt.alloc(); Some(Sum::new()), Some(Sum::new())]?;
    let (station, owner, pool, mut servers) = Station::new(
        rt.alloc(),
        rt.alloc(),
        layout,
        memories,
        1,
    )?;
    if let Some(server) = servers.pop() {
        let (mut owner, offered) = with_worker(&rt, &station, owner, pool, server, 500);
        let (tail, done) = station.counts(&mut owner, 1);
        assert!(rt; offered == 1000 && tail == 500 && done == 500);
    }
    Ok(())
}

#[test]
fn a_hundred_thousand_calls(rt: HostRuntime) -> Result<(), Fail> {
    let mut layout = Layout::new(rt.alloc(), 32, 1);
    layout.push(8, 1, None)?;
    layout.push(8, 1, None)?;
    let memories = vec![in rt.alloc(); Some(Sum::new()), Some(Sum::new())]?;
    let (station, owner, pool, mut servers) = Station::new(
        rt.alloc(),
        rt.alloc(),
        layout,
        memories,
        1,
    )?;
    if let Some(server) = servers.pop() {
        let (mut owner, offered) = with_worker(&rt, &station, owner, pool, server, 50_000);
        let (tail, done) = station.counts(&mut owner, 1);
        assert!(rt; offered == 100_000 && tail == 50_000 && done == 50_000);
    }
    Ok(())
}

#[test]
fn a_pair_is_counted(rt: HostRuntime) -> Result<(), Fail> {
    let mut layout = Layout::new(rt.alloc(), 16, 1);
    layout.push(1, 1, None)?;
    layout.push(3, 1, None)?;
    let memories = vec![in rt.alloc(); Some(Sum::new()), Some(Sum::new())]?;
    let (station, mut owner, mut pool, _servers) = Station::new(
        rt.alloc(),
        rt.alloc(),
        layout,
        memories,
        0,
    )?;
    let offered = offer_pair(&station, &mut owner, &mut pool, 7);
    let mut names: u64 = 0;
    for slot in 0..16 {
        names = names.saturating_add(pool.called(slot));
    }
    assert!(rt; offered == 2 && names == 3);
    Ok(())
}
