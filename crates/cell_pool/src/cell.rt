//! One cell: its memory while nothing lies there, and with its value.
ghost use Rattle.std.specs.Prelude.{◌≡◌};
ghost use denote.RawPtr.{Ptr};
ghost use denote.Struct.Lending.{lent_at};
ghost use Rattle.cell_pool.specs.Ownership.{room_owns, cell_owns, value_place};

use std::marker::Model;

/// A cell's memory in its page. A free cell has a `next` and no value, one that is out a value and no `next`.
pub struct Slot<T> {
    pub(crate) next: *mut Slot<T>,
    pub(crate) value: T,
}

/// A cell that is out and in which nothing lies. It has no drop: it ends by `fill` alone.
pub struct Room<T> {
    pub(crate) ptr: *mut Slot<T>,
    pub ghost page: { Ptr },
}

impl<T> Model for Room<T> {
    ghost also_owns = { λ r. room_owns T.row r.page r.ptr };
}

/// A cell that is out, with its value. It has no drop: it ends by `take`, or by `Pool::give`.
pub struct Cell<T> {
    pub(crate) ptr: *mut Slot<T>,
    pub ghost page: { Ptr },
    pub ghost value: { T },
}

impl<T> Model for Cell<T> {
    ghost also_owns = { λ c. cell_owns T.row c.page c.ptr c.value };

    ghost also_shares = { λ c _ κ. lent_at T.row (value_place T.row c.ptr) c.value κ };
}

impl<T> Room<T> {
    /// The cell at the same place, with the value. Takes no memory.
    pub fn fill(self, value: T) -> Cell<T>
        ensures { (result.ptr ≡ self.ptr) × (result.page ≡ self.page) × (result.value ≡ value) }
    {
        let Room { ptr } = self;
        unsafe { (&raw mut (*ptr).value).write(value) };
        Cell { ptr }
    }
}

impl<T> Cell<T> {
    /// The value, and the cell without it at the same place, which is still out. Takes no memory.
    pub fn take(self) -> (T, Room<T>)
        ensures { (result.0 ≡ self.value) × (result.1.ptr ≡ self.ptr) × (result.1.page ≡ self.page) }
    {
        let Cell { ptr } = self;
        unsafe {
            let value = (&raw const (*ptr).value).read();
            (value, Room { ptr })
        }
    }

    /// The value.
    pub fn get(&self) -> &T
        ensures { result.now ≡ self.now.value }
    {
        unsafe { &(*self.ptr).value }
    }
}

// Of what it owns, the value alone could name a thread.
unsafe impl<T: Send> Send for Cell<T> {}

unsafe impl<T: Sync> Sync for Cell<T> {}
