//! A page of cells, as the allocator gives it and gets it back.
ghost use Rattle.std.specs.Prelude.{◌≡◌, ℕ, ◌+◌, ◌*◌, ◌^◌, ◌<◌, List, [], ◌∷◌, ◌++◌, length, IfOk, IsTrue};
ghost use denote.RawPtr.{Ptr};
ghost use Rattle.cell_pool.specs.Ownership.{cell_size, fresh_owns, page_type, stock, AllIn};

use crate::cell::{Room, Slot};
use crate::free::Free;
use std::alloc::{AllocError, Allocator};
use std::marker::{Model, PhantomData};
use std::mem::{align_of, size_of};

/// The right to give the page at `ptr` back to the allocator.
pub(crate) struct Lease<T, A: Allocator> {
    ptr: *mut Slot<T>,
    by: PhantomData<A>,
    ghost alloc: { A },
}

impl<T, A: Allocator> Model for Lease<T, A> {
    ghost also_owns = { λ l. A.dealloc_token l.alloc (page_type T.row) l.ptr };
}

/// The cells of a page that were never used.
pub(crate) struct Fresh<T> {
    ptr: *mut Slot<T>,
    ghost page: { Ptr },
    ghost count: { ℕ },
}

impl<T> Model for Fresh<T> {
    ghost also_owns = { λ f. fresh_owns T.row f.page f.count f.ptr };
}

/// Whole pages in which nothing lies.
pub(crate) struct Stock<T> {
    by: PhantomData<*mut Slot<T>>,
    ghost pages: { List Ptr },
}

impl<T> Model for Stock<T> {
    ghost also_owns = { λ s. stock T.row s.pages };
}

/// Whether 64 cells of this type may lie side by side.
pub(crate) fn is_small<T>() -> bool
    ensures { IsTrue result → cell_size T.row < 2 ^ 57 }
{
    size_of::<Slot<T>>() < 0x0200_0000_0000_0000
}

impl<T> Fresh<T> {
    /// A new page, and the right to give it back.
    pub(crate) fn new<A: Allocator>(alloc: &A) -> Result<(Fresh<T>, Lease<T, A>), AllocError>
        requires { cell_size T.row < 2 ^ 57 }
        ensures { IfOk result (λ r. (r.0.count ≡ 64) × (r.0.page ≡ r.1.ptr) × (r.1.alloc ≡ alloc.now)) }
    {
        match alloc.allocate(64 * size_of::<Slot<T>>(), align_of::<Slot<T>>()) {
            Ok(block) => {
                let ptr = block as *mut Slot<T>;
                let by = PhantomData;
                Ok((Fresh { ptr }, Lease { ptr, by }))
            }
            Err(error) => Err(error),
        }
    }

    /// Its first cell, and the rest.
    pub(crate) fn carve(self) -> (Room<T>, Fresh<T>)
        requires { 0 < self.count }
        ensures { (result.0.page ≡ self.page) × (result.1.page ≡ self.page) × (result.1.count + 1 ≡ self.count) }
    {
        let Fresh { ptr } = self;
        let next = unsafe { ptr.add(1) };
        (Room { ptr }, Fresh { ptr: next })
    }

    /// Ends a page of which each cell was used.
    pub(crate) fn end(self)
        requires { self.count ≡ 0 }
    {
        let Fresh { ptr: _ } = self;
    }
}

impl<T> Stock<T> {
    ghost use Rattle.cell_pool.specs.Pages.{pages_of};

    /// All cells of the pages.
    pub(crate) fn gather<A: Allocator>(free: Free<T>, leases: &Vec<Lease<T, A>>) -> Stock<T>
        requires all { length free.spots ≡ 64 * length leases.now.items }
        requires theirs { AllIn (pages_of leases.now.items) free.spots }
        ensures { result.pages ≡ pages_of leases.now.items }
    {
        let Free { head: _ } = free;
        Stock { by: PhantomData }
    }

    /// A page of which no cell was ever used.
    pub(crate) fn whole(fresh: Fresh<T>) -> Stock<T>
        requires { fresh.count ≡ 64 }
        ensures { result.pages ≡ fresh.page ∷ [] }
    {
        let Fresh { ptr: _ } = fresh;
        Stock { by: PhantomData }
    }

    /// Ends an empty stock.
    pub(crate) fn end(self)
        requires { self.pages ≡ [] }
    {
        let Stock { by: _ } = self;
    }

    /// Gives the last page back.
    pub(crate) fn free_last<A: Allocator>(self, lease: Lease<T, A>, alloc: &A) -> Stock<T>
        requires last { (before : List Ptr) × (self.pages ≡ before ++ lease.ptr ∷ []) }
        requires same { lease.alloc ≡ alloc.now }
        ensures { self.pages ≡ result.pages ++ lease.ptr ∷ [] }
    {
        let Stock { by } = self;
        let Lease { ptr, by: _ } = lease;
        unsafe {
            alloc.deallocate(
                ptr as *mut u8,
                64 * size_of::<Slot<T>>(),
                align_of::<Slot<T>>(),
            )
        };
        Stock { by }
    }
}

// It owns the right to give the page back, which is the allocator's to send; a `&` to it holds a share of that.
unsafe impl<T, A: Allocator + Send> Send for Lease<T, A> {}

unsafe impl<T, A: Allocator + Send> Sync for Lease<T, A> {}

// It owns no value.
unsafe impl<T> Send for Stock<T> {}

unsafe impl<T> Sync for Stock<T> {}
