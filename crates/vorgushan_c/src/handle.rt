//! What C keeps of an engine.
ghost use Rattle.std.specs.Prelude.{◌≡◌, Option, Some, None};
ghost use Rattle.std.specs.Option.{MatchOption};
ghost use Rattle.std.specs.Coded.{coded_option};
ghost use Rattle.embedded.specs.contracts.engine.Embedded.{the_row};
ghost use Rattle.embedded.specs.declared.engine.Embedded.{Embedded};

use crate::loose::Loose;
use embedded::Embedded;
use std::alloc::Global;
use std::marker::Model;
use std::mem;
use std::ptr::null_mut;

/// An engine in memory of C's, which sets it to zero before the first call: then there is none. One pointer large.
#[repr(C)]
#[derive(Drop)]
pub struct VgEngine {
    at: *mut u8,
    alloc: Global,
    pub ghost inside: { Option Embedded } by { coded_option the_row.coded },
}

impl Model for VgEngine {
    ghost use Rattle.embedded.specs.contracts.engine.Embedded.{the_row};
    ghost use Rattle.vorgushan_c.specs.Held.{held};

    ghost also_owns = { λ e. held the_row e.alloc e.at e.inside };
}

impl VgEngine {
    fn none(alloc: Global) -> VgEngine
        ensures { result.inside ≡ None }
    {
        VgEngine {
            at: null_mut(),
            alloc,
        }
    }

    fn of(loose: Loose<Embedded, Global>) -> VgEngine
        ensures { result.inside ≡ Some loose.value }
    {
        let Loose { at, alloc } = loose;
        VgEngine {
            at: at as *mut u8,
            alloc,
        }
    }

    fn into_loose(self) -> Option<Loose<Embedded, Global>>
        ensures { MatchOption result (self.inside ≡ None) (λ loose. self.inside ≡ Some loose.value) }
    {
        let VgEngine { at, alloc } = self;
        if at.is_null() {
            None
        } else {
            Some(Loose {
                at: at as *mut Embedded,
                alloc,
            })
        }
    }

    // Takes the engine out, where one is there.
    pub(crate) fn take(&mut self, alloc: Global) -> Option<Box<Embedded>>
        ensures taken { MatchOption result (self.old.inside ≡ None) (λ b. self.old.inside ≡ Some b.value) }
        ensures left { self.new.inside ≡ None }
    {
        match mem::replace(self, VgEngine::none(alloc)).into_loose() {
            Some(loose) => Some(loose.into_box()),
            None => None,
        }
    }

    // Puts an engine where none is.
    pub(crate) fn put(&mut self, embedded: Box<Embedded>)
        requires { self.old.inside ≡ None }
        ensures { self.new.inside ≡ Some embedded.value }
    {
        *self = VgEngine::of(Loose::of(embedded));
    }
}
