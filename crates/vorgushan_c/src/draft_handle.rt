//! What C keeps of a draft, in which keys are spelled.
ghost use Rattle.std.specs.Prelude.{◌≡◌, Option, Some, None};
ghost use Rattle.std.specs.Option.{MatchOption};
ghost use Rattle.std.specs.Coded.{coded_option};
ghost use Rattle.key_codec.specs.contracts.draft.KeyDraft.{the_row};
ghost use Rattle.key_codec.specs.declared.draft.KeyDraft.{KeyDraft};

use crate::loose::Loose;
use key_codec::KeyDraft;
use std::alloc::Global;
use std::marker::Model;
use std::mem;
use std::ptr::null_mut;

/// A draft in memory of C's, behind the key that is spelled in it; zero before the first call. One pointer large.
#[repr(C)]
#[derive(Drop)]
pub struct VgDraft {
    at: *mut u8,
    alloc: Global,
    pub ghost inside: { Option KeyDraft } by { coded_option the_row.coded },
}

impl Model for VgDraft {
    ghost use Rattle.key_codec.specs.contracts.draft.KeyDraft.{the_row};
    ghost use Rattle.vorgushan_c.specs.Held.{held};

    ghost also_owns = { λ d. held the_row d.alloc d.at d.inside };
}

// C may move it to another thread with its key.
unsafe impl Send for VgDraft {}

impl VgDraft {
    fn none(alloc: Global) -> VgDraft
        ensures { result.inside ≡ None }
    {
        VgDraft {
            at: null_mut(),
            alloc,
        }
    }

    fn of(loose: Loose<KeyDraft, Global>) -> VgDraft
        ensures { result.inside ≡ Some loose.value }
    {
        let Loose { at, alloc } = loose;
        VgDraft {
            at: at as *mut u8,
            alloc,
        }
    }

    fn into_loose(self) -> Option<Loose<KeyDraft, Global>>
        ensures { MatchOption result (self.inside ≡ None) (λ loose. self.inside ≡ Some loose.value) }
    {
        let VgDraft { at, alloc } = self;
        if at.is_null() {
            None
        } else {
            Some(Loose {
                at: at as *mut KeyDraft,
                alloc,
            })
        }
    }

    // Takes the draft out, where one is there.
    pub(crate) fn take(&mut self, alloc: Global) -> Option<Box<KeyDraft>>
        ensures taken { MatchOption result (self.old.inside ≡ None) (λ b. self.old.inside ≡ Some b.value) }
        ensures left { self.new.inside ≡ None }
    {
        match mem::replace(self, VgDraft::none(alloc)).into_loose() {
            Some(loose) => Some(loose.into_box()),
            None => None,
        }
    }

    // Puts a draft where none is.
    pub(crate) fn put(&mut self, spelled: Box<KeyDraft>)
        requires { self.old.inside ≡ None }
        ensures { self.new.inside ≡ Some spelled.value }
    {
        *self = VgDraft::of(Loose::of(spelled));
    }
}
