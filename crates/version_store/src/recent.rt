//! Since when references can't have been written, told by a few bytes of their keys.
//!
//! A commit asks of each reference that it read whether it was written since the transaction began. Mostly none was, and
//! that is known here without a look-up: a write notes its stamp at one of 256 places, which its key tells. What stands at
//! a place is said of all references that share it, so the answer may be that one was written which wasn't. Writes at the
//! cut aren't noted, since nobody began before them.
ghost use Rattle.std.specs.Prelude.{◌≡◌, ◌≤◌, ◌<◌, ◌-◌, false, length, get_or, max};
ghost use Rattle.collation.specs.Reference.{Reference};
ghost use Rattle.key_codec.specs.Key.{key_of};
ghost use Rattle.version_store.specs.Noted.{place_of as place_of_spec, noted_at};

use key_codec::Key;

// How many places there are.
const PLACES: usize = 256;

/// The greatest stamp that was noted at each place.
#[derive(Drop)]
pub(crate) struct Recent {
    pub(crate) stamps: [u64; 256],
}

// The byte so many before the end, or the first where there are fewer; 0 where there is none.
fn byte_before_end(bytes: &[u8], back: usize) -> usize
    ensures byte { result ≡ get_or bytes.now (length bytes.now - back) 0 }
    ensures small { result < 256 }
{
    match bytes.get(bytes.len().saturating_sub(back)) {
        Some(byte) => *byte as usize,
        None => 0,
    }
}

// The place of a key's reference.
fn place_of(key: &Key) -> usize
    ensures place { result ≡ place_of_spec (key_of key.now) }
    ensures within { result < 256 }
{
    let bytes = key.as_slice();
    (byte_before_end(bytes, 1) + 16 * byte_before_end(bytes, 2) + 5 * byte_before_end(bytes, 3))
        % PLACES
}

impl Recent {
    /// The stamp is noted for all references.
    pub(crate) fn new(stamp: u64) -> Recent
        ensures { (r : Reference) → noted_at result.stamps r ≡ stamp }
    {
        Recent {
            stamps: [stamp; 256],
        }
    }

    /// A reference is written at a stamp, where the cut is there or before it.
    #[inline(always)]
    pub(crate) fn note(&mut self, key: &Key, stamp: u64, cut: u64)
        ensures grows { (r : Reference) → noted_at self.old.stamps r ≤ noted_at self.new.stamps r }
        ensures noted { stamp ≤ max cut (noted_at self.new.stamps key.now) }
    {
        if cut < stamp {
            let place = place_of(key);
            self.stamps[place] = self.stamps[place].max(stamp);
        }
    }

    /// Whether a write of the reference may have been noted after the stamp.
    pub(crate) fn is_after(&self, key: &Key, stamp: u64) -> bool
        ensures { result ≡ false → noted_at self.now.stamps key.now ≤ stamp }
    {
        self.stamps[place_of(key)] > stamp
    }
}
