//! A gate is shared by many, or one has its value alone. Nobody waits.
ghost use Rattle.std.specs.Prelude.{◌≡◌, ◌≤◌, IfOk};

use counted_slot::Fits;
use gate::ArcGate;
use std::alloc::{AllocError, Global};
use std::sync::Arc;
use std::test::*;

// What is shared: a count that is at most the gate's tag.
#[derive(Drop)]
struct Count {
    n: u64,
}

impl Fits for Count {
    type Tag = u64;

    ghost fits = { λ most c. c.n ≤ most };
}

// A gate of counts up to 100, and one of them.
fn made(alloc: Global) -> Result<(ArcGate<Count>, Arc<Count, Global>), AllocError>
    ensures { IfOk result (λ r. (r.0.slot ≡ 100) × (r.1.value.n ≤ 100)) }
{
    let count = Arc::new(alloc, Count { n: 7 })?;
    Ok((ArcGate::new(&100), count))
}

// What is read by who shares; 101 where nobody may.
fn shared(gate: &ArcGate<Count>) -> u64
    requires { gate.now.slot ≡ 100 }
{
    match gate.share() {
        Some(count) => count.n,
        None => 101,
    }
}

// What is read after a change by who has it alone; 101 where others share it, 102 where it is out, 103 where it doesn't
// go in again.
fn changed(gate: &ArcGate<Count>, n: u64) -> u64
    requires { gate.now.slot ≡ 100 }
{
    let Some(mut count) = gate.take() else {
        return 102;
    };
    let inside = shared(gate);
    let set = match Arc::get_mut(&mut count) {
        Some(alone) => {
            alone.n = n % 100;
            inside
        }
        None => 100,
    };
    match gate.put(count) {
        Ok(()) => set,
        Err(_) => 103,
    }
}

// What a gate answers while its value is out, once it is in, and once a second was put in too.
fn through(gate: &ArcGate<Count>, count: Arc<Count, Global>, more: Arc<Count, Global>) -> [u64; 4]
    requires { (gate.now.slot ≡ 100) × ((count.value.n ≤ 100) × (more.value.n ≤ 100)) }
{
    let out = shared(gate);
    let _ = gate.put(count);
    let within = shared(gate);
    let back = match gate.put(more) {
        Ok(()) => 103,
        Err(more) => more.n,
    };
    [out, within, back, shared(gate)]
}

// What a change answers while so many share the value, and what is read then.
fn beside(gate: &ArcGate<Count>) -> [u64; 2]
    requires { gate.now.slot ≡ 100 }
{
    let one = gate.share();
    let two = gate.share();
    let done = changed(gate, 50);
    let read = match (&one, &two) {
        (Some(one), Some(two)) => one.n + two.n,
        _ => 101,
    };
    [done, read]
}

#[test]
fn a_gate_is_shared_or_has_its_value_out(rt: HostRuntime) -> Result<(), Fail> {
    let (gate, count) = made(rt.alloc())?;
    let more = Arc::new(rt.alloc(), Count { n: 9 })?;
    assert_eq!(rt; through(&gate, count, more), [101, 7, 9, 7]);
    assert_eq!(rt; beside(&gate), [100, 14]);
    assert_eq!(rt; (changed(&gate, 8), shared(&gate)), (101, 8));
    Ok(())
}
