//! One thread reads, another runs live: bytes go through a ring from the one to the other.
ghost use Rattle.std.specs.Prelude.{◌≡◌, ◌⊎◌, [], true, Ok, Err, IfOk, IfSome, OnErr, IsErrOf};
ghost use Rattle.rtrb.specs.Ring.{received, sent, IsPair};
ghost use Rattle.live_server.specs.Runs.{IsNew};
ghost use Rattle.script_run.specs.Lines.{lines_of};
ghost use Rattle.script_run.specs.declared.outcome.Outcome.{Outcome as OutcomeShown};
ghost use Rattle.live_server.specs.Live.{Wrote, IsBegun, HasAnswered, HasRead};
ghost use Rattle.live_server.specs.Relays.{HasBegun, HasReadFront, HasAnsweredFront, IsFrontOf};

use crate::arrived::{Arrived, Begun};
use crate::hall::Hall;
use crate::live::Live;
use crate::reading::{Sent, start_reading};
use crate::{Bell, LiveFault, run_live};
use collation::Job;
use listing::Counted;
use rtrb::{Consumer, Producer, RingBuffer};
use script_run::{Outcome, RunLog};
use std::alloc::{AllocError, Global};
use std::io::{Read, Write};
use std::snapshot::Snapshot;
use std::sync::Wait;
use std::thread;
use std::thread::{Scope, Threads, sleep};
use std::time::Clock;

// How many bytes are read before the run takes them, at most.
const RING_BYTES: usize = 262144;

/// Told where a run can't go on.
pub trait Teller {
    /// The job waits in this line for names that no job will free: those of this holder, where it is known that there
    /// is just one.
    fn tell_waits(&self, job: Job, line: &[u8], holder: Option<Job>);

    /// Of all open jobs this was told, or of those that wait for each other in a circle: they have waited for a second.
    /// Input hasn't ended, and the run goes on.
    fn tell_standstill(&self);

    /// Memory was refused where no reply could say so: no line is done any more, and the run ends once the call of the
    /// reader comes back in which its thread may be.
    fn tell_memory(&self);
}

struct Watch<'a, R, T> {
    rt: &'a R,
    begun: Begun,
    teller: &'a T,
}

impl<'a, R, T> Drop for Watch<'a, R, T> {
    fn drop(self) {
        let Watch {
            rt: _,
            begun: _,
            teller: _,
        } = self;
    }
}

impl<'a, R: Wait + Clock, T: Teller> Bell for Watch<'a, R, T> {
    fn now(&self) -> u64 {
        self.begun.passed(self.rt)
    }

    fn sleep(&self, until: u64) {
        sleep(self.rt, self.begun.left_until(self.rt, until));
    }

    fn waits(&self, job: Job, line: &[u8], holder: Option<Job>) {
        self.teller.tell_waits(job, line, holder);
    }

    fn stands_still(&self) {
        self.teller.tell_standstill();
    }
}

/// A live run that has ended, well or not.
#[derive(Drop)]
pub struct Lived<W> {
    /// What it left.
    pub live: Live,
    /// The writer.
    pub writer: Counted<W>,
    /// How it went.
    pub outcome: Result<Outcome, LiveFault>,
}

// Runs on what comes out of this end of the ring, which comes back.
fn run_on_ring<R: Wait + Clock, W: Write, T: Teller>(
    rt: &R,
    alloc: Global,
    listed: bool,
    hall: &Hall,
    ring: Consumer<u8, Global>,
    other: Snapshot<Producer<u8, Global>>,
    live: &mut Live,
    writer: &mut Counted<W>,
    teller: &T,
    log: &mut impl RunLog,
) -> (Result<Outcome, LiveFault>, Consumer<u8, Global>)
    requires new { IsNew live.old }
    requires none { received ring ≡ [] }
    requires pair { IsPair other.value ring }
    ensures pair { IsPair other.value result.1 }
    ensures output { IfOk result.0 (λ outcome. Wrote live.old.script.core.machine listed (received result.1) outcome (W.contents writer.old.inner) (W.contents writer.new.inner)) }
    ensures begun { OnErr result.0 (IsBegun live.old.script.core.machine listed (received result.1) (W.contents writer.old.inner) (W.contents writer.new.inner)) }
    ensures read { IsErrOf result.0 LiveFault.Read → HasRead live.old.script.core.machine live.new.script.core.machine live.new.desks (received result.1) (W.contents writer.old.inner) (W.contents writer.new.inner) }
    ensures stuck { IsErrOf result.0 LiveFault.Stuck → HasAnswered live.old.script.core.machine live.new.script.core.machine live.new.desks (lines_of (received result.1)) (W.contents writer.old.inner) (W.contents writer.new.inner) }
{
    let begun = Begun::now(rt);
    let watch = Watch { rt, begun, teller };
    let mut arrived = Arrived {
        rt,
        hall,
        ring,
        begun,
        other,
    };
    let outcome = run_live(alloc, listed, live, &mut arrived, writer, &watch, log);
    if let Err(LiveFault::Memory) = &outcome {
        teller.tell_memory();
    }
    hall.close(rt);
    (outcome, arrived.into_ring())
}

// Both threads are over. A run is a whole one where all was read and all of that was taken.
fn joined(
    outcome: Result<Outcome, LiveFault>,
    ring: Consumer<u8, Global>,
    put: Sent,
) -> Result<Outcome, LiveFault>
    requires pair { IsPair put.ring ring }
    ensures all { IfOk result (λ o. (outcome ≡ Ok o) × (put.is_all ≡ true) × (received ring ≡ sent put.ring)) }
    ensures front { IsFrontOf (received ring) (sent put.ring) }
    ensures read { IsErrOf result LiveFault.Read → (outcome ≡ Err LiveFault.Read) ⊎ ((o : OutcomeShown) × (outcome ≡ Ok o)) }
    ensures stuck { IsErrOf result LiveFault.Stuck → outcome ≡ Err LiveFault.Stuck }
{
    let mut ring = ring;
    let mut put = put;
    let left = ring.slots_beside(&mut put.ring);
    let outcome = outcome?;
    if !put.is_all {
        return Err(LiveFault::Read);
    }
    if left > 0 {
        return Err(LiveFault::Read);
    }
    Ok(outcome)
}

// Runs in this thread on what another reads.
fn run_beside<
    's,
    E,
    P: Threads + Wait + Clock + Sync,
    I: Read + Send + Drop + 's,
    W: Write + Drop,
    T: Teller,
    L: RunLog + Drop,
>(
    scope: &Scope<'s, E>,
    rt: &'s P,
    hall: &'s Hall,
    alloc: Global,
    listed: bool,
    live: Live,
    reader: I,
    producer: Producer<u8, Global>,
    consumer: Consumer<u8, Global>,
    writer: Counted<W>,
    teller: &T,
    log: L,
) -> Lived<W>
    requires new { IsNew live }
    requires pair { IsPair producer consumer }
    requires none { (sent producer ≡ []) × (received consumer ≡ []) }
    ensures output { IfOk result.outcome (λ outcome. IfSome (I.remaining reader)
        (λ bytes. Wrote live.script.core.machine listed bytes outcome (W.contents writer.inner) (W.contents result.writer.inner))) }
    ensures begun { OnErr result.outcome (IfSome (I.remaining reader)
        (λ bytes. HasBegun live.script.core.machine listed bytes (W.contents writer.inner) (W.contents result.writer.inner))) }
    ensures read { IsErrOf result.outcome LiveFault.Read → IfSome (I.remaining reader)
        (λ bytes. HasReadFront live.script.core.machine result.live.script.core.machine result.live.desks listed bytes (W.contents writer.inner) (W.contents result.writer.inner)) }
    ensures stuck { IsErrOf result.outcome LiveFault.Stuck → IfSome (I.remaining reader)
        (λ bytes. HasAnsweredFront live.script.core.machine result.live.script.core.machine result.live.desks bytes (W.contents writer.inner) (W.contents result.writer.inner)) }
{
    let other = Snapshot::of(&producer);
    let Some(reading) = start_reading(scope, rt, hall, reader, producer) else {
        return Lived {
            live,
            writer,
            outcome: Err(LiveFault::Memory),
        };
    };
    let mut live = live;
    let mut writer = writer;
    let mut log = log;
    let (outcome, ring) = run_on_ring(
        rt,
        alloc,
        listed,
        hall,
        consumer,
        other,
        &mut live,
        &mut writer,
        teller,
        &mut log,
    );
    let outcome = joined(outcome, ring, reading.join(rt));
    Lived {
        live,
        writer,
        outcome,
    }
}

// So, with the ring at hand.
fn run_with_ring<
    P: Threads + Wait + Clock + Sync,
    I: Read + Send + Drop,
    W: Write + Drop,
    T: Teller,
    L: RunLog + Drop,
>(
    rt: &P,
    hall: &Hall,
    alloc: Global,
    listed: bool,
    live: Live,
    reader: I,
    producer: Producer<u8, Global>,
    consumer: Consumer<u8, Global>,
    writer: Counted<W>,
    teller: &T,
    log: L,
) -> Lived<W>
    requires new { IsNew live }
    requires pair { IsPair producer consumer }
    requires none { (sent producer ≡ []) × (received consumer ≡ []) }
    ensures output { IfOk result.outcome (λ outcome. IfSome (I.remaining reader)
        (λ bytes. Wrote live.script.core.machine listed bytes outcome (W.contents writer.inner) (W.contents result.writer.inner))) }
    ensures begun { OnErr result.outcome (IfSome (I.remaining reader)
        (λ bytes. HasBegun live.script.core.machine listed bytes (W.contents writer.inner) (W.contents result.writer.inner))) }
    ensures read { IsErrOf result.outcome LiveFault.Read → IfSome (I.remaining reader)
        (λ bytes. HasReadFront live.script.core.machine result.live.script.core.machine result.live.desks listed bytes (W.contents writer.inner) (W.contents result.writer.inner)) }
    ensures stuck { IsErrOf result.outcome LiveFault.Stuck → IfSome (I.remaining reader)
        (λ bytes. HasAnsweredFront live.script.core.machine result.live.script.core.machine result.live.desks bytes (W.contents writer.inner) (W.contents result.writer.inner)) }
{
    thread::scope(
        thread::scope_env(),
        rt,
        move |scope| -> Lived<W>
            requires { IsNew live × IsPair producer consumer × (sent producer ≡ []) × (received consumer ≡ []) }
            ensures output { IfOk result.outcome (λ outcome. IfSome (I.remaining reader)
                (λ bytes. Wrote live.script.core.machine listed bytes outcome (W.contents writer.inner) (W.contents result.writer.inner))) }
            ensures begun { OnErr result.outcome (IfSome (I.remaining reader)
                (λ bytes. HasBegun live.script.core.machine listed bytes (W.contents writer.inner) (W.contents result.writer.inner))) }
            ensures read { IsErrOf result.outcome LiveFault.Read → IfSome (I.remaining reader)
                (λ bytes. HasReadFront live.script.core.machine result.live.script.core.machine result.live.desks listed bytes (W.contents writer.inner) (W.contents result.writer.inner)) }
            ensures stuck { IsErrOf result.outcome LiveFault.Stuck → IfSome (I.remaining reader)
                (λ bytes. HasAnsweredFront live.script.core.machine result.live.script.core.machine result.live.desks bytes (W.contents writer.inner) (W.contents result.writer.inner)) }
        {
            run_beside(
                scope, rt, hall, alloc, listed, live, reader, producer, consumer, writer, teller,
                log,
            )
        },
    )
}

/// Runs live in this thread on the bytes of a reader that another thread reads.
///
/// A run that ends well has written what `IsLive` says of all bytes that the reader had; after a fault a beginning of
/// such replies, to a front of them, and after `Read` and `Stuck` whole ones, as `run_live` says. Refusals: `Read`, a call
/// of the reader failed; those of `run_live`; `Memory` also where the ring finds none, or no thread can be started, and
/// then nothing was read. After a fault the call comes back once the reader does: at more input, or its end.
pub fn relay_live<
    P: Threads + Wait + Clock + Sync,
    I: Read + Send + Drop,
    W: Write + Drop,
    T: Teller,
    L: RunLog + Drop,
>(
    rt: &P,
    alloc: Global,
    listed: bool,
    live: Live,
    reader: I,
    writer: Counted<W>,
    teller: &T,
    log: L,
) -> Lived<W>
    requires new { IsNew live }
    ensures output { IfOk result.outcome (λ outcome. IfSome (I.remaining reader)
        (λ bytes. Wrote live.script.core.machine listed bytes outcome (W.contents writer.inner) (W.contents result.writer.inner))) }
    ensures begun { OnErr result.outcome (IfSome (I.remaining reader)
        (λ bytes. HasBegun live.script.core.machine listed bytes (W.contents writer.inner) (W.contents result.writer.inner))) }
    ensures read { IsErrOf result.outcome LiveFault.Read → IfSome (I.remaining reader)
        (λ bytes. HasReadFront live.script.core.machine result.live.script.core.machine result.live.desks listed bytes (W.contents writer.inner) (W.contents result.writer.inner)) }
    ensures stuck { IsErrOf result.outcome LiveFault.Stuck → IfSome (I.remaining reader)
        (λ bytes. HasAnsweredFront live.script.core.machine result.live.script.core.machine result.live.desks bytes (W.contents writer.inner) (W.contents result.writer.inner)) }
{
    match RingBuffer::new(alloc, RING_BYTES) {
        Ok((producer, consumer)) => {
            let hall = Hall::new();
            run_with_ring(
                rt, &hall, alloc, listed, live, reader, producer, consumer, writer, teller, log,
            )
        }
        Err(AllocError) => Lived {
            live,
            writer,
            outcome: Err(LiveFault::Memory),
        },
    }
}
