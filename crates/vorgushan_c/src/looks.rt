//! What C calls to look at the database of a moment, without a command of a job, and to begin a view. Each of them is
//! declared in `include/vorgushan.h`, with its meaning for a C programmer.
ghost use Rattle.std.specs.Prelude.{◌≡◌, ⊤};
ghost use Rattle.embedded.specs.Looks.{IsDataAt, IsLookAt, IsWalkCall};
ghost use Rattle.embedded.specs.Names.{IsNameAt};
ghost use Rattle.typed_calls.specs.Looks.{IsChildrenLook, IsOrderLook, IsQueryLook, IsViewBegun};
ghost use Rattle.vorgushan_c.specs.Exports.{IsCalled};
ghost use Rattle.vorgushan_c.specs.Keys as spec;
ghost use Rattle.vorgushan_c.specs.Keys.{IsKeyCalled, IsMoved};

use crate::handle::VgEngine;
use crate::key_handle::VgKey;
use crate::typed::direction_of;
use embedded::Outcome;
use std::alloc::Global;
use typed_calls::{begin_view, look_children, look_order, look_query};

/// Begins a view for a job that has no open transaction: from then on its number is a moment for looks, until TROLLBACK.
///
/// Outcomes: as of `typed_calls::begin_view`; `NoEngine`, and nothing has changed.
#[unsafe(no_mangle)]
pub extern "C" fn vorgushan_view_begin(alloc: Global, engine: &mut VgEngine, job: u64) -> u32
    ensures { IsCalled engine.old.inside engine.new.inside result ⊤ (λ before after outcome. IsViewBegun job before after outcome) }
{
    let Some(mut there) = engine.take(alloc) else {
        return Outcome::NoEngine.number();
    };
    let outcome = begin_view(&mut there, job);
    engine.put(there);
    outcome.number()
}

/// Copies the value that a key's reference has in the database of a moment, and tells how long it is.
///
/// Outcomes: as of `Embedded::look`; `NoEngine`, `NoKey`.
#[unsafe(no_mangle)]
pub extern "C" fn vorgushan_look(
    alloc: Global,
    engine: &mut VgEngine,
    moment: u64,
    key: &mut VgKey,
    value: &mut [u8],
    wanted: &mut usize,
) -> u32
    ensures called { IsKeyCalled engine.old.inside engine.new.inside key.old.inside result ((value.new ≡ value.old) × (wanted.new ≡ wanted.old)) (λ reference before after outcome.
        (after ≡ before) × IsLookAt moment before.core.machine reference outcome value.old value.new wanted.new) }
    ensures key { key.new.inside ≡ key.old.inside }
{
    let Some(there) = engine.take(alloc) else {
        return Outcome::NoEngine.number();
    };
    let Some(at) = key.take(alloc) else {
        engine.put(there);
        return Outcome::NoKey.number();
    };
    let outcome = there.look(moment, &at, value, wanted);
    key.put(at);
    engine.put(there);
    outcome.number()
}

/// Tells 1 where a key's reference has a value in the database of a moment, and 10 more where a descendant has one.
///
/// Outcomes: as of `Embedded::look_data`; `NoEngine`, `NoKey`.
#[unsafe(no_mangle)]
pub extern "C" fn vorgushan_look_data(
    alloc: Global,
    engine: &mut VgEngine,
    moment: u64,
    key: &mut VgKey,
    number: &mut u64,
) -> u32
    ensures called { IsKeyCalled engine.old.inside engine.new.inside key.old.inside result (number.new ≡ number.old) (λ reference before after outcome.
        (after ≡ before) × IsDataAt moment before.core.machine reference outcome number.new) }
    ensures key { key.new.inside ≡ key.old.inside }
{
    let Some(there) = engine.take(alloc) else {
        return Outcome::NoEngine.number();
    };
    let Some(at) = key.take(alloc) else {
        engine.put(there);
        return Outcome::NoKey.number();
    };
    let outcome = there.look_data(moment, &at, number);
    key.put(at);
    engine.put(there);
    outcome.number()
}

/// Copies the bytes of the subscript one level below a key that comes next to `start` in the database of a moment, none
/// where there is none. Backward where `backward` isn't 0.
///
/// Outcomes: as of `typed_calls::look_order`; `NoEngine`, `NoKey`.
#[unsafe(no_mangle)]
pub extern "C" fn vorgushan_look_order(
    alloc: Global,
    engine: &mut VgEngine,
    moment: u64,
    key: &mut VgKey,
    start: &[u8],
    backward: u32,
    subscript: &mut [u8],
    wanted: &mut usize,
) -> u32
    ensures called { IsKeyCalled engine.old.inside engine.new.inside key.old.inside result ((subscript.new ≡ subscript.old) × (wanted.new ≡ wanted.old)) (λ reference before after outcome.
        (after ≡ before) × IsOrderLook moment before.core.machine reference start.now (spec.direction_of backward) outcome subscript.old subscript.new wanted.new) }
    ensures key { key.new.inside ≡ key.old.inside }
{
    let Some(there) = engine.take(alloc) else {
        return Outcome::NoEngine.number();
    };
    let Some(at) = key.take(alloc) else {
        engine.put(there);
        return Outcome::NoKey.number();
    };
    let direction = direction_of(backward);
    let outcome = look_order(
        &there, alloc, moment, &at, start, direction, subscript, wanted,
    );
    key.put(at);
    engine.put(there);
    outcome.number()
}

/// Moves a key to the nearest node with a value in the same name, in the database of a moment. Backward where
/// `backward` isn't 0; where `is_open` isn't 0 an empty subscript follows the key, as of `vorgushan_query`.
///
/// Outcomes: as of `typed_calls::look_query`; `NoEngine`, `NoKey`.
#[unsafe(no_mangle)]
pub extern "C" fn vorgushan_look_query(
    alloc: Global,
    engine: &mut VgEngine,
    moment: u64,
    key: &mut VgKey,
    is_open: u32,
    backward: u32,
) -> u32
    ensures { IsKeyCalled engine.old.inside engine.new.inside key.old.inside result (key.new.inside ≡ key.old.inside) (λ reference before after outcome.
        IsMoved key.new.inside (λ found. (after ≡ before) × IsQueryLook moment before.core.machine reference (spec.is_not_0 is_open) (spec.direction_of backward) found outcome)) }
{
    let Some(there) = engine.take(alloc) else {
        return Outcome::NoEngine.number();
    };
    let Some(mut at) = key.take(alloc) else {
        engine.put(there);
        return Outcome::NoKey.number();
    };
    let direction = direction_of(backward);
    let outcome = look_query(&there, moment, &mut at, is_open != 0, direction);
    key.put(at);
    engine.put(there);
    outcome.number()
}

/// Copies the next nodes of a walk over the database of a moment, as many as the buffer has room for, and tells how
/// long their records are together: of what is at and under `root`, or of all where no key is there, from behind
/// `place` on, or from the first where no key is there; and `place` moves to the last node copied.
///
/// Outcomes: as of `Embedded::copy_nodes`; `NoEngine`.
#[unsafe(no_mangle)]
pub extern "C" fn vorgushan_walk(
    alloc: Global,
    engine: &mut VgEngine,
    moment: u64,
    root: &mut VgKey,
    place: &mut VgKey,
    nodes: &mut [u8],
    wanted: &mut usize,
) -> u32
    ensures called { IsCalled engine.old.inside engine.new.inside result ((nodes.new ≡ nodes.old) × (wanted.new ≡ wanted.old) × (place.new.inside ≡ place.old.inside)) (λ before after outcome.
        IsWalkCall moment root.old.inside place.old.inside place.new.inside before after outcome nodes.old nodes.new wanted.new) }
    ensures root { root.new.inside ≡ root.old.inside }
{
    let Some(mut there) = engine.take(alloc) else {
        return Outcome::NoEngine.number();
    };
    let within = root.take(alloc);
    let mut behind = place.take(alloc);
    let outcome = there.copy_nodes(alloc, moment, &within, &mut behind, nodes, wanted);
    root.put_back(within);
    place.put_back(behind);
    engine.put(there);
    outcome.number()
}

/// Copies the next name after `start`, or backward the one before it, that a node has in the database of a moment.
/// Backward where `backward` isn't 0.
///
/// Outcomes: as of `Embedded::look_name`; `NoEngine`.
#[unsafe(no_mangle)]
pub extern "C" fn vorgushan_look_name(
    alloc: Global,
    engine: &mut VgEngine,
    moment: u64,
    start: &[u8],
    backward: u32,
    name: &mut [u8],
    wanted: &mut usize,
) -> u32
    ensures { IsCalled engine.old.inside engine.new.inside result ((name.new ≡ name.old) × (wanted.new ≡ wanted.old)) (λ before after outcome.
        (after ≡ before) × IsNameAt moment before.core.machine start.now (spec.direction_of backward) outcome name.old name.new wanted.new) }
{
    let Some(there) = engine.take(alloc) else {
        return Outcome::NoEngine.number();
    };
    let direction = direction_of(backward);
    let outcome = there.look_name(alloc, moment, start, direction, name, wanted);
    engine.put(there);
    outcome.number()
}

/// Copies the children of a key that come after `start`, in the database of a moment, as many as the buffer has room for,
/// and tells how long their records are together.
///
/// Outcomes: as of `typed_calls::look_children`; `NoEngine`, `NoKey`.
#[unsafe(no_mangle)]
pub extern "C" fn vorgushan_look_children(
    alloc: Global,
    engine: &mut VgEngine,
    moment: u64,
    key: &mut VgKey,
    start: &[u8],
    children: &mut [u8],
    wanted: &mut usize,
) -> u32
    ensures called { IsKeyCalled engine.old.inside engine.new.inside key.old.inside result ((children.new ≡ children.old) × (wanted.new ≡ wanted.old)) (λ reference before after outcome.
        IsChildrenLook moment reference start.now before after outcome children.old children.new wanted.new) }
    ensures key { key.new.inside ≡ key.old.inside }
{
    let Some(mut there) = engine.take(alloc) else {
        return Outcome::NoEngine.number();
    };
    let Some(at) = key.take(alloc) else {
        engine.put(there);
        return Outcome::NoKey.number();
    };
    let outcome = look_children(&mut there, alloc, moment, &at, start, children, wanted);
    key.put(at);
    engine.put(there);
    outcome.number()
}
