//! The thread that reads: what it reads goes into the ring.
ghost use Rattle.std.specs.Prelude.{◌≡◌, ◌++◌, [], true, IfSome, OnOk};
ghost use Rattle.rtrb.specs.Ring.{sent, SameProducer};
ghost use Rattle.live_server.specs.Relays.{IsFrontOf, HasSent};

use crate::hall::Hall;
use rtrb::Producer;
use script_run::PIECE_BYTES;
use std::alloc::Global;
use std::io::Read;
use std::snapshot::Snapshot;
use std::sync::Wait;
use std::thread::{Promise, PromisedHandle, Scope};
use std::time::Clock;

/// What the thread that reads leaves: its end of the ring, and whether all was read and put in.
#[derive(Drop)]
pub(crate) struct Sent {
    pub(crate) ring: Producer<u8, Global>,
    pub(crate) is_all: bool,
}

/// What it promises, of this end of the ring and this reader as they were given to it.
#[derive(Drop)]
pub(crate) struct Sends<I> {
    pub(crate) ring: Snapshot<Producer<u8, Global>>,
    pub(crate) reader: Snapshot<I>,
}

impl<I: Read> Promise<Sent> for Sends<I> {
    ghost use Rattle.live_server.specs.Relays.{HasSent};

    ghost kept_by = { λ p r. HasSent (I.remaining p.reader.value) p.ring.value r };
}

// Not all was read, or put in.
#[derive(Clone, Copy, Debug, PartialEq, Eq)]
struct Stopped;

// Puts bytes in, all of them, and sleeps while there is no room; or a front of them, where no more are taken.
fn push_all<R: Wait + Clock>(
    rt: &R,
    hall: &Hall,
    ring: &mut Producer<u8, Global>,
    bytes: &[u8],
) -> Result<(), Stopped>
    ensures ring { SameProducer ring.old ring.new }
    ensures all { OnOk result (sent ring.new ≡ sent ring.old ++ bytes.now) }
    ensures front { IsFrontOf (sent ring.new) (sent ring.old ++ bytes.now) }
{
    let mut rest = bytes;
    'rounds: for _ in rt.forever() {
        let (_, left) = ring.push_partial_slice(rest);
        rest = left;
        hall.note_items(rt);
        if hall.is_closed() {
            return Err(Stopped);
        }
        if rest.is_empty() {
            return Ok(());
        }
        hall.wait_for_room(rt);
    }
    unreachable!()
}

// Reads to the end, and puts in what is read, until no more is taken or a call of the reader fails.
fn read_all<R: Wait + Clock, I: Read>(
    rt: &R,
    hall: &Hall,
    ring: &mut Producer<u8, Global>,
    reader: &mut I,
) -> Result<(), Stopped>
    requires none { sent ring.old ≡ [] }
    ensures ring { SameProducer ring.old ring.new }
    ensures all { OnOk result (IfSome (I.remaining reader.old) (λ bytes. sent ring.new ≡ bytes)) }
    ensures front { IfSome (I.remaining reader.old) (IsFrontOf (sent ring.new)) }
{
    let mut buffer = [0u8; PIECE_BYTES];
    'pieces: for _ in rt.forever() {
        let Ok(count) = reader.read(&mut buffer) else {
            return Err(Stopped);
        };
        if count == 0 {
            return Ok(());
        }
        push_all(rt, hall, ring, &buffer[..count])?;
    }
    unreachable!()
}

// So, and tells that no more comes.
fn read_and_end<R: Wait + Clock, I: Read + Drop>(
    rt: &R,
    hall: &Hall,
    reader: I,
    ring: Producer<u8, Global>,
) -> Sent
    requires none { sent ring ≡ [] }
    ensures { HasSent (I.remaining reader) ring result }
{
    let mut ring = ring;
    let mut reader = reader;
    let is_all = read_all(rt, hall, &mut ring, &mut reader).is_ok();
    hall.end(rt, is_all);
    Sent { ring, is_all }
}

/// Starts the thread. None where there can be none.
pub(crate) fn start_reading<'s, E, R: Wait + Clock + Sync, I: Read + Send + Drop + 's>(
    scope: &Scope<'s, E>,
    rt: &'s R,
    hall: &'s Hall,
    reader: I,
    ring: Producer<u8, Global>,
) -> Option<PromisedHandle<Sent, Sends<I>>>
    requires none { sent ring ≡ [] }
    ensures { IfSome result (λ reading. (reading.promise.reader.value ≡ reader) × (reading.promise.ring.value ≡ ring)) }
{
    let promise = Sends {
        ring: Snapshot::of(&ring),
        reader: Snapshot::of(&reader),
    };
    let started = scope.spawn_with(
        promise,
        move || -> Sent
            requires { sent ring ≡ [] }
            ensures { HasSent (I.remaining reader) ring result }
        { read_and_end(rt, hall, reader, ring) },
    );
    match started {
        Ok(reading) => Some(reading),
        Err(_) => None,
    }
}
