//! The end of a hub, by the passes of its sessions.
ghost use Rattle.std.specs.Prelude.{◌≡◌, IfSome};
ghost use Rattle.shared_engine.specs.Named.{AreOf};

use collation::Job;
use hub::{Hub, HubSession};
use session_acts::data_of;
use shared_engine::InnerPass;
use std::alloc::Global;
use std::sync::Arc;
use std::test::*;

// A session of the job of this number. Nobody else is at work.
fn begun(alloc: Global, hub: &Arc<Hub, Global>, number: u64) -> Option<HubSession>
    ensures { IfSome result (λ session. session.table ≡ hub.now.value.board.table) }
{
    let job = Job::new(number).ok()?;
    match Hub::open(hub, alloc, job) {
        Ok(Ok(session)) => Some(session),
        _ => None,
    }
}

// Writes a unit.
fn writes(alloc: Global, session: &mut HubSession) -> bool
    ensures { session.new.table ≡ session.old.table }
{
    let Some(command) = data_of(alloc, "1 SET ^A(1)=5") else {
        return false;
    };
    if session.tlevel() != 0 {
        drop(command);
        return false;
    }
    match session.lone(command) {
        Ok(done) => done.is_ok(),
        Err(back) => {
            drop(back);
            false
        }
    }
}

// The pass of a session that ends.
fn passed(session: HubSession) -> Option<InnerPass>
    ensures { IfSome result (λ pass. pass.table ≡ session.table) }
{
    match session.halt() {
        Ok(Ok(pass)) => Some(pass),
        _ => None,
    }
}

// That of one that wrote a unit.
fn pass(alloc: Global, hub: &Arc<Hub, Global>, number: u64) -> Option<InnerPass>
    ensures { IfSome result (λ pass. pass.table ≡ hub.now.value.board.table) }
{
    let mut session = begun(alloc, hub, number)?;
    if !writes(alloc, &mut session) {
        return None;
    }
    passed(session)
}

// Those of two.
fn two_passes(alloc: Global, hub: &Arc<Hub, Global>) -> Option<Vec<InnerPass>>
    ensures { IfSome result (λ passes. AreOf hub.now.value.board.table passes.items) }
{
    let mut passes = Vec::with_capacity(alloc, 2).ok()?;
    let first = pass(alloc, hub, 1)?;
    passes.push_reserved(first);
    let second = pass(alloc, hub, 2)?;
    passes.push_reserved(second);
    Some(passes)
}

// How many sessions there were, and how many units, once the hub is closed.
fn closed(hub: Arc<Hub, Global>, passes: Vec<InnerPass>) -> Option<[u64; 2]>
    requires { AreOf hub.value.board.table passes.items }
{
    match Hub::finish(hub, passes) {
        Ok(end) => Some([end.sessions, end.core.now()]),
        Err(_) => None,
    }
}

// Two sessions write and end, and the hub is closed.
fn closed_by_passes(alloc: Global) -> Option<[u64; 2]> {
    let hub = Hub::new(alloc).ok()?;
    let passes = two_passes(alloc, &hub)?;
    closed(hub, passes)
}

#[test]
fn passes_close_a_hub(rt: HostRuntime) -> Result<(), Fail> {
    assert_eq!(rt; closed_by_passes(rt.alloc()), Some([2, 4]));
    Ok(())
}

// While a session is left, and while somebody shares, the hub comes back with its passes. It is closed then.
fn closed_at_last(alloc: Global) -> Option<[u64; 2]> {
    let hub = Hub::new(alloc).ok()?;
    let passes = two_passes(alloc, &hub)?;
    let left = begun(alloc, &hub, 3)?;
    let Err((hub, passes)) = Hub::finish(hub, passes) else {
        return None;
    };
    drop(left);
    let share = hub.share()?;
    let Err((hub, passes)) = Hub::finish(hub, passes) else {
        return None;
    };
    drop(share);
    closed(hub, passes)
}

#[test]
fn a_hub_that_somebody_has_comes_back(rt: HostRuntime) -> Result<(), Fail> {
    assert_eq!(rt; closed_at_last(rt.alloc()), Some([3, 4]));
    Ok(())
}
