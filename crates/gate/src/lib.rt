//! A value that many may share or one may have alone, tried and never waited for. What lies in it fits the gate's tag: so
//! what comes out of a gate is known to belong to what the gate was made for.
//!
//! Its word is that of a `Counted`: PRESENT with so many readers, each for the moment in which it takes an owner of its
//! own; TAKEN for the moment in which somebody takes the value out or puts it in; FREE while it is out. Who shares has an
//! `Arc`, which may be kept over calls and move between threads. Who has the value alone takes it out, and asks
//! `Arc::get_mut` whether owners are left: meanwhile no new ones come.
//!
//! Not promised: that a try succeeds, or that what was taken out comes back.
#![tactic(auto)]

ghost use Rattle.std.specs.Prelude.{◌≡◌, ◌≢◌, ◌<◌, ◌%◌, IfSome, IfErr};
ghost use Rattle.counted_slot.specs.Counting.{readers};

use counted_slot::{Claim, Counted, FREE, Fits, MOST_READERS, ONE_READER, PRESENT, TAKEN};
use std::alloc::Global;
use std::hint::spin_loop;
use std::sync::Arc;

// How often a call looks at a word that other calls change.
const TRIES: u32 = 256;

/// What lies in the gate, for `Fits`.
#[derive(Drop)]
pub struct Owned<T> {
    pub value: Arc<T, Global>,
}

impl<T: Fits> Fits for Owned<T> {
    type Tag = T::Tag;

    ghost fits = { λ tag x. T.fits tag x.value.value };
}

/// The gate. A clause names its tag as `slot`.
#[derive(Drop)]
pub struct ArcGate<T: Fits> {
    pub slot: Counted<Option<Owned<T>>>,
}

// The low two bits.
fn state_of(word: u64) -> u64
    ensures { result ≡ word % 4 }
{
    word % 4
}

// How many have the right to read.
fn reader_count(word: u64) -> u64
    ensures { result ≡ readers word }
{
    word % 0x1_0000_0000 / 4
}

// An owner more of what is shared.
fn cloned<'a, T: Fits + Drop>(hand: &Claim<'a, Option<Owned<T>>>) -> Option<Arc<T, Global>>
    requires reads { hand.now.right ≡ 1 }
    ensures fits { IfSome result (λ a. T.fits hand.now.tag a.value) }
{
    match hand.get() {
        Some(inside) => match Arc::try_clone(&inside.value) {
            Ok(clone) => Some(clone),
            Err(_) => None,
        },
        None => None,
    }
}

impl<T: Fits + Drop> ArcGate<T> {
    /// A gate whose value is out. Takes no memory.
    pub fn new(tag: &T::Tag) -> ArcGate<T>
        ensures { result.slot ≡ tag.now }
    {
        ArcGate {
            slot: Counted::new(None, tag),
        }
    }

    /// An owner more of the value. Takes no memory, and never waits.
    ///
    /// None where the value is out, or others changed the word at each of 256 looks.
    pub fn share(&self) -> Option<Arc<T, Global>>
        ensures fits { IfSome result (λ a. T.fits self.now.slot a.value) }
    {
        for _ in 0..TRIES {
            let seen = self.slot.load();
            if state_of(seen) != PRESENT || reader_count(seen) == MOST_READERS {
                return None;
            }
            let (found, hand) = self.slot.turn(seen, seen + ONE_READER);
            if found == seen {
                let clone = cloned(&hand);
                hand.leave();
                return clone;
            }
            hand.done();
        }
        None
    }

    /// Takes the value out: until it is put in again nobody else gets it. Those who share it may have owners left. Takes
    /// no memory, and never waits.
    ///
    /// None where the value is out already, or others were about to share it at each of 256 looks.
    pub fn take(&self) -> Option<Arc<T, Global>>
        ensures fits { IfSome result (λ a. T.fits self.now.slot a.value) }
    {
        for _ in 0..TRIES {
            let (found, hand) = self.slot.turn(PRESENT, TAKEN);
            if found == PRESENT {
                let Some(inside) = hand.put(None, FREE) else {
                    return None;
                };
                return Some(inside.value);
            }
            hand.done();
            if state_of(found) != PRESENT {
                return None;
            }
            spin_loop();
        }
        None
    }

    /// Puts a value in. Takes no memory, and never waits.
    ///
    /// It comes back where one is in, or somebody is about to put one in or to take it out.
    pub fn put(&self, value: Arc<T, Global>) -> Result<(), Arc<T, Global>>
        requires fits { T.fits self.now.slot value.value }
        ensures back { IfErr result (λ a. a.value ≡ value.value) }
    {
        let (found, hand) = self.slot.turn(FREE, TAKEN);
        if found != FREE {
            hand.done();
            return Err(value);
        }
        drop(hand.put(Some(Owned { value }), PRESENT));
        Ok(())
    }
}
