//! A value that only clauses read, as `std::snapshot::Snapshot`, in a type that has the lemmas by which whatever holds it
//! may cross threads.
ghost use Rattle.std.specs.Prelude.{◌≡◌};
ghost use Rattle.std.specs.Borrow.{ftrue};

use std::marker::{Model, PhantomData};

/// A `T` as clauses see it. It has no bytes and owns nothing.
#[derive(Drop)]
pub(crate) struct Before<T> {
    marker: PhantomData<T>,
    pub ghost value: { T },
}

impl<T> Model for Before<T> {
    ghost also_owns = { λ _. ftrue };
}

impl<T> Before<T> {
    /// What `x` refers to.
    pub(crate) fn of(x: &T) -> Before<T>
        ensures { result.value ≡ x.now }
    {
        let _ = x;
        Before {
            marker: PhantomData,
        }
    }
}

// It owns nothing.
unsafe impl<T> Send for Before<T> {}

unsafe impl<T> Sync for Before<T> {}
