//! The bytes that another thread reads, as they come out of the ring, and the time.
ghost use Rattle.std.specs.Prelude.{◌≡◌};
ghost use Rattle.rtrb.specs.Ring.{received, IsPair};

use crate::Arrivals;
use crate::hall::{Hall, Input};
use listing::ReadFault;
use rtrb::{Consumer, Producer};
use std::alloc::Global;
use std::snapshot::Snapshot;
use std::sync::Wait;
use std::time::{Clock, Duration, Instant};

/// When a run began, where there is a clock.
#[derive(Clone, Copy, Debug)]
pub(crate) struct Begun(Option<Instant>);

impl Begun {
    pub(crate) fn now<R: Clock>(rt: &R) -> Begun {
        Begun(Instant::now(rt).ok())
    }

    fn passed_since<R: Clock>(self, rt: &R) -> Option<u64> {
        let passed = self.0?.elapsed(rt).ok()?;
        u64::try_from(passed.as_millis()).ok()
    }

    /// How many milliseconds have passed since then. Without a clock it is as if all time had.
    pub(crate) fn passed<R: Clock>(self, rt: &R) -> u64 {
        self.passed_since(rt).unwrap_or(u64::MAX)
    }

    /// How long it is until so many have.
    pub(crate) fn left_until<R: Clock>(self, rt: &R, until: u64) -> Duration {
        Duration::from_millis(until.saturating_sub(self.passed(rt)))
    }
}

// Whether there is a time, and it is over.
fn is_over(left: Option<Duration>) -> bool {
    match left {
        Some(left) => left.is_zero(),
        None => false,
    }
}

/// The end of the ring from which the run takes.
pub(crate) struct Arrived<'a, R> {
    pub(crate) rt: &'a R,
    pub(crate) hall: &'a Hall,
    pub(crate) ring: Consumer<u8, Global>,
    pub(crate) begun: Begun,
    // The other end, as it was at first.
    pub(crate) other: Snapshot<Producer<u8, Global>>,
    ghost pair: { IsPair other.value ring },
}

impl<'a, R> Drop for Arrived<'a, R> {
    fn drop(self) {
        let Arrived {
            rt: _,
            hall: _,
            ring,
            begun: _,
            other: _,
        } = self;
        drop(ring);
    }
}

impl<'a, R: Wait + Clock> Arrived<'a, R> {
    ghost use Rattle.std.specs.Prelude.{◌≡◌};
    ghost use Rattle.rtrb.specs.Ring.{received, IsPair};

    /// The end of the ring.
    pub(crate) fn into_ring(self) -> Consumer<u8, Global>
        ensures taken { received result ≡ received self.entry.ring }
        ensures pair { IsPair self.entry.other.value result }
    {
        let Arrived {
            rt: _,
            hall: _,
            ring,
            begun: _,
            other: _,
        } = self;
        ring
    }

    // Whether there are bytes, or there will be none any more.
    fn has_something(&mut self) -> bool
        ensures taken { received self.new.ring ≡ received self.old.ring }
        ensures other { self.new.other ≡ self.old.other }
    {
        self.ring.slots() > 0 || self.hall.input() != Input::Open
    }
}

impl<'a, R: Wait + Clock> Arrivals for Arrived<'a, R> {
    ghost use Rattle.rtrb.specs.Ring.{received};

    type Origin = Snapshot<Producer<u8, Global>>;

    ghost taken = { λ a. received a.ring };

    ghost origin = { λ a. a.other };

    fn wait(&mut self, until: Option<u64>) -> bool {
        'looks: for _ in self.rt.forever() {
            let left = match until {
                Some(until) => Some(self.begun.left_until(self.rt, until)),
                None => None,
            };
            if is_over(left) {
                return false;
            }
            if self.has_something() {
                return true;
            }
            self.hall.wait_for_items(self.rt, left);
        }
        unreachable!()
    }

    fn take(&mut self, piece: &mut [u8]) -> Result<usize, ReadFault> {
        'takes: for _ in self.rt.forever() {
            let input = self.hall.input();
            let count = self.ring.pop_partial_slice(piece);
            if count > 0 {
                self.hall.note_room(self.rt);
                return Ok(count);
            }
            match input {
                Input::Open => self.hall.wait_for_items(self.rt, None),
                Input::Ended => return Ok(0),
                Input::Failed => return Err(ReadFault),
            }
        }
        unreachable!()
    }
}
