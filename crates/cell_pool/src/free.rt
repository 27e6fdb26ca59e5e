//! The free cells, each linked to the next.
ghost use Rattle.std.specs.Prelude.{◌≡◌, List, [], ◌∷◌};
ghost use denote.RawPtr.{Ptr};
ghost use Rattle.cell_pool.specs.Ownership.{spares, CellPlace, FitIn};

use crate::cell::{Room, Slot};
use std::marker::Model;

/// The list of free cells. With none, `head` means nothing. Its drop only forgets the cells.
#[derive(Drop)]
pub struct Free<T> {
    pub(crate) head: *mut Slot<T>,
    ghost spots: { List CellPlace },
}

impl<T> Model for Free<T> {
    ghost also_owns = { λ f. spares T.row f.head f.spots };
}

impl<T> Free<T> {
    /// No cells.
    pub(crate) fn new() -> Free<T>
        ensures { result.spots ≡ [] }
    {
        Free {
            head: std::ptr::null_mut(),
        }
    }

    /// One cell more, in front.
    pub(crate) fn push(self, room: Room<T>) -> Free<T>
        ensures { (result.spots ≡ (room.ptr, room.page) ∷ self.spots) × FitIn result.spots }
    {
        let Free { head } = self;
        let Room { ptr } = room;
        unsafe { (*ptr).next = head };
        Free { head: ptr }
    }

    /// The cell in front, and the others.
    pub(crate) fn pop(self) -> (Room<T>, Free<T>)
        requires { ¬ (self.spots ≡ []) }
        ensures { self.spots ≡ (result.0.ptr, result.0.page) ∷ result.1.spots }
    {
        let Free { head } = self;
        let next = unsafe { (*head).next };
        (Room { ptr: head }, Free { head: next })
    }
}

// It owns no value. A `&` to it holds a share of what it owns.
unsafe impl<T> Send for Free<T> {}

unsafe impl<T> Sync for Free<T> {}
