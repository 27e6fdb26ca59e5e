//! What C keeps of a key.
ghost use Rattle.std.specs.Prelude.{◌≡◌, ⊤, Option, Some, None};
ghost use Rattle.std.specs.Option.{MatchOption};
ghost use Rattle.std.specs.Coded.{coded_option};
ghost use Rattle.collation.specs.Reference.{Reference};
ghost use Rattle.key_codec.specs.contracts.key.Key.{the_row};

use crate::loose::Loose;
use key_codec::Key;
use std::alloc::Global;
use std::marker::Model;
use std::mem;
use std::ptr::null_mut;

/// A key in memory of C's, which sets it to zero before the first call: then there is none. One pointer large.
#[repr(C)]
#[derive(Drop)]
pub struct VgKey {
    at: *mut u8,
    alloc: Global,
    pub ghost inside: { Option Reference } by { coded_option the_row.coded },
}

impl Model for VgKey {
    ghost use Rattle.key_codec.specs.contracts.key.Key.{the_row};
    ghost use Rattle.vorgushan_c.specs.Held.{held};

    ghost also_owns = { λ k. held the_row k.alloc k.at k.inside };
}

// C may move it to another thread, one call at a time.
unsafe impl Send for VgKey {}

impl VgKey {
    fn none(alloc: Global) -> VgKey
        ensures { result.inside ≡ None }
    {
        VgKey {
            at: null_mut(),
            alloc,
        }
    }

    fn of(loose: Loose<Key, Global>) -> VgKey
        ensures { result.inside ≡ Some loose.value }
    {
        let Loose { at, alloc } = loose;
        VgKey {
            at: at as *mut u8,
            alloc,
        }
    }

    fn into_loose(self) -> Option<Loose<Key, Global>>
        ensures { MatchOption result (self.inside ≡ None) (λ loose. self.inside ≡ Some loose.value) }
    {
        let VgKey { at, alloc } = self;
        if at.is_null() {
            None
        } else {
            Some(Loose {
                at: at as *mut Key,
                alloc,
            })
        }
    }

    // Takes the key out, where one is there.
    pub(crate) fn take(&mut self, alloc: Global) -> Option<Box<Key>>
        ensures taken { MatchOption result (self.old.inside ≡ None) (λ b. self.old.inside ≡ Some b.value) }
        ensures left { self.new.inside ≡ None }
    {
        match mem::replace(self, VgKey::none(alloc)).into_loose() {
            Some(loose) => Some(loose.into_box()),
            None => None,
        }
    }

    // Puts a key where none is.
    pub(crate) fn put(&mut self, key: Box<Key>)
        requires { self.old.inside ≡ None }
        ensures { self.new.inside ≡ Some key.value }
    {
        *self = VgKey::of(Loose::of(key));
    }

    // Puts a key, where there is one.
    pub(crate) fn put_back(&mut self, key: Option<Box<Key>>)
        requires { MatchOption key ⊤ (λ _. self.old.inside ≡ None) }
        ensures { MatchOption key (self.new.inside ≡ self.old.inside) (λ b. self.new.inside ≡ Some b.value) }
    {
        if let Some(there) = key {
            self.put(there);
        }
    }
}
