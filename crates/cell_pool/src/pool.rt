//! The pool: free cells, counts, and the pages that they lie in.
ghost use Rattle.std.specs.Prelude.{◌≡◌, ◌+◌, ◌^◌, ◌<◌, ◌≤◌, max, [], IfOk, OnErr, MatchResult};
ghost use Rattle.cell_pool.specs.Ownership.{IsIn};
ghost use Rattle.cell_pool.specs.Pool.{PoolState, Within, Filled};

use crate::cell::Cell;
use crate::free::Free;
use crate::page::{Fresh, Lease, Stock, is_small};
use std::alloc::{AllocError, Global};
use std::marker::Model;
use std::mem::replace;

// So many that their cells can be counted.
const MAX_PAGES: usize = 0x3_ffff_ffff_fffe;

/// Pages of 64 cells for values of a type. It has no drop: it ends by `end` alone.
pub struct Pool<T> {
    free: Free<T>,
    spare: usize,
    out: usize,
    leases: Vec<Lease<T, Global>>,
    alloc: Global,
}

impl<T> Model for Pool<T> {
    ghost use Rattle.std.specs.Prelude.{◌∷◌};
    ghost use Rattle.cell_pool.specs.Pool.{PoolState, IsPool};
    ghost use Rattle.cell_pool.specs.Pages.{pages_of};

    ghost Value = { PoolState };

    ghost view = { λ a. record { spare = a.spare; out = a.out; pages = pages_of a.leases.items } };

    ghost invariant = { λ a. IsPool a.free.spots a.spare a.out (pages_of a.leases.items) };
}

impl<T> Pool<T> {
    /// A pool without pages. Takes no memory.
    pub fn new(alloc: Global) -> Pool<T>
        ensures { result ≡ record { spare = 0; out = 0; pages = [] } }
    {
        Pool {
            free: Free::new(),
            spare: 0,
            out: 0,
            leases: Vec::new(alloc),
            alloc,
        }
    }

    /// How many cells can be taken without memory.
    pub fn spare(&self) -> usize
        ensures { result ≡ self.now.spare }
    {
        self.spare
    }

    /// How many cells are out.
    pub fn out(&self) -> usize
        ensures out { result ≡ self.now.out }
        ensures few { result < 2 ^ 56 }
    {
        self.out
    }

    /// A cell with the value.
    ///
    /// Refusals: where no cell is spare the value comes back, and nothing has changed. Takes no memory.
    pub fn take(&mut self, value: T) -> Result<Cell<T>, T>
        ensures { MatchResult result (λ c. (c.value ≡ value) × IsIn self.new.pages c.page × (self.new.pages ≡ self.old.pages) × (self.new.spare + 1 ≡ self.old.spare) × (self.new.out ≡ self.old.out + 1)) (λ v. (v ≡ value) × (self.old.spare ≡ 0) × (self.new ≡ self.old)) }
    {
        if self.spare == 0 {
            return Err(value);
        }
        let free = replace(&mut self.free, Free::new());
        let (room, rest) = free.pop();
        self.free = rest;
        self.spare -= 1;
        self.out += 1;
        Ok(room.fill(value))
    }

    /// The value of a cell of this pool; the cell is spare again. Takes no memory.
    pub fn give(&mut self, cell: Cell<T>) -> T
        requires { IsIn self.old.pages cell.page }
        ensures { (result ≡ cell.value) × (self.new.pages ≡ self.old.pages) × (self.new.spare ≡ self.old.spare + 1) × (self.new.out + 1 ≡ self.old.out) }
    {
        let (value, room) = cell.take();
        let free = replace(&mut self.free, Free::new());
        self.free = free.push(room);
        self.spare += 1;
        self.out -= 1;
        value
    }

    /// Makes at least `n` cells spare, in whole pages, and no page more than that takes. Cells that are out stay where they
    /// are.
    ///
    /// Refusals: `AllocError` where fewer than `n` were spare and there is no memory for so many, nor for `n` cells at
    /// all: at most 2^50 pages, of cells smaller than 2^57 bytes. Pages that were added before it stay.
    pub fn reserve(&mut self, n: usize) -> Result<(), AllocError>
        ensures out { self.new.out ≡ self.old.out }
        ensures pages { Within self.old.pages self.new.pages }
        ensures spare { self.old.spare ≤ self.new.spare }
        ensures room { IfOk result (λ _. n ≤ self.new.spare) }
        ensures most { self.new.spare ≤ max self.old.spare (n + 63) }
        ensures full { OnErr result (self.old.spare < n) }
    {
        while self.spare < n {
            self.add_page()?;
        }
        Ok(())
    }

    // One page more.
    fn add_page(&mut self) -> Result<(), AllocError>
        ensures out { self.new.out ≡ self.old.out }
        ensures pages { Within self.old.pages self.new.pages }
        ensures spare { self.old.spare ≤ self.new.spare }
        ensures room { IfOk result (λ _. self.new.spare ≡ self.old.spare + 64) }
        ensures err { OnErr result (self.new ≡ self.old) }
    {
        if self.leases.len() >= MAX_PAGES || !is_small::<T>() {
            return Err(AllocError);
        }
        let (fresh, lease) = Fresh::new(&self.alloc)?;
        match self.leases.push(lease) {
            Ok(()) => {}
            Err(refused) => {
                Stock::whole(fresh)
                    .free_last(refused.value, &self.alloc)
                    .end();
                return Err(AllocError);
            }
        }
        let free = replace(&mut self.free, Free::new());
        self.free = fill(free, fresh);
        self.spare += 64;
        Ok(())
    }

    /// Gives the pages back to the allocator.
    pub fn end(self)
        requires { self.out ≡ 0 }
    {
        let Pool {
            free,
            spare: _,
            out: _,
            leases,
            alloc,
        } = self;
        let mut leases = leases;
        let mut stock = Stock::gather(free, &leases);
        while let Some(lease) = leases.pop() {
            stock = stock.free_last(lease, &alloc);
        }
        leases.destroy_empty();
        stock.end();
    }
}

// Puts the 64 cells of a page in front.
fn fill<T>(free: Free<T>, fresh: Fresh<T>) -> Free<T>
    requires { fresh.count ≡ 64 }
    ensures { Filled free.spots fresh.page result.spots }
{
    let mut free = free;
    let mut fresh = fresh;
    for _ in 0..64usize {
        let (room, rest) = fresh.carve();
        free = free.push(room);
        fresh = rest;
    }
    fresh.end();
    free
}
