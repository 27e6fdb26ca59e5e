//! Places: where $ORDER and $QUERY start.
ghost use Rattle.std.specs.Prelude.{◌≡◌, ◌≤◌, length, IfOk, IfSome, IsOk, true};
ghost use Rattle.collation.specs.Levels.{below, child_of, parent_of};
ghost use Rattle.key_codec.specs.Key as spec;
ghost use Rattle.key_codec.specs.Key.{IsFaultless};

use crate::read::split_at_end;
use crate::shown::{first_child, last_key};
use crate::{END, Key};
use collation::Text;
use std::alloc::{AllocError, Global};
use std::marker::Model;

/// A reference whose last subscript may be empty. It is open where that is so.
#[derive(Clone, Debug, Drop)]
pub struct Place {
    key: Key,
    is_open: bool,
}

impl Model for Place {
    ghost use Rattle.collation.specs.Reference.{Spot};

    ghost Value = { Spot };

    ghost view = { λ p. record { reference = p.key; is_open = p.is_open } };
}

impl PartialEq for Place {
    ghost use Rattle.collation.specs.Order.{spot_eq};
    ghost use Rattle.collation.specs.laws.Order.{spot_eq_laws};
    ghost use Rattle.std.specs.Cmp.{partial_equiv_from_equiv};

    ghost eq = { spot_eq };

    ghost laws = { partial_equiv_from_equiv spot_eq_laws };

    fn eq(&self, other: &Place) -> bool {
        self.key() == other.key() && self.is_open() == other.is_open()
    }
}

impl Eq for Place {
    ghost use Rattle.collation.specs.laws.Order.{spot_eq_laws};

    ghost laws = { spot_eq_laws };
}

impl Place {
    /// The place of this key, open or not.
    pub fn new(key: Key, is_open: bool) -> Place
        ensures { result ≡ record { reference = key; is_open = is_open } }
    {
        Place { key, is_open }
    }

    /// The key of the reference without an empty last subscript.
    pub fn key(&self) -> &Key
        ensures { result.now ≡ self.now.reference }
    {
        &self.key
    }

    /// Whether an empty subscript follows.
    pub fn is_open(&self) -> bool
        ensures { result ≡ self.now.is_open }
    {
        self.is_open
    }

    // The key bytes of the level of the last subscript: one level up, or where it is open the reference itself.
    fn level(&self) -> &[u8]
        ensures value { result.now ≡ spec.key_of (parent_of self.now) }
        ensures form { IsFaultless (parent_of self.now) }
    {
        let bytes = self.key.as_slice();
        if self.is_open {
            return bytes;
        }
        match split_at_end(bytes, END) {
            Some((_, keys)) => &bytes[..bytes.len() - last_key(keys).len()],
            None => unreachable!(),
        }
    }

    /// The key of the level of the last subscript: one level up, or where it is open the place's own. Takes memory only past
    /// 38 bytes.
    pub fn level_key(&self, alloc: Global) -> Result<Key, AllocError>
        ensures key { IfOk result (λ key. key ≡ parent_of self.now) }
        ensures short { length (spec.key_of (parent_of self.now)) ≤ 38 → IsOk result }
    {
        Key::from_slice(alloc, self.level())
    }

    /// The subscript at the level of the place's last one on the way to this key; none where it isn't below that level.
    pub fn child_toward(&self, alloc: Global, key: &Key) -> Result<Option<Text>, AllocError>
        ensures child { IfOk result (λ child. child ≡ child_of (parent_of self.now) key.now) }
        ensures fits { IfOk result (λ child. IfSome child (λ s. IsFaultless (below (parent_of self.now) s))) }
    {
        match key.as_slice().strip_prefix(self.level()) {
            Some(rest) => first_child(alloc, rest),
            None => Ok(None),
        }
    }
}
