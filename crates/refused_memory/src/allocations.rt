//! What standard input asks for, and allocations that are taken and given back, so that the one that is refused is the
//! nth of the run itself.
//!
//! Standard input is empty, or a number of at most eight digits: the last five say how many allocations are taken
//! before the run, those before them which part of the run is done, from 1 on.
use std::alloc::{AllocError, Global};

// More allocations than are ever asked for.
const MOST: u64 = 100_000;

/// What standard input asks for.
#[derive(Clone, Copy, Debug, PartialEq, Eq)]
pub struct Asked {
    /// The part of the run that is done alone, or 0: all of it.
    pub part: u64,
    /// How many allocations are taken before it.
    pub taken: u64,
}

/// What these bytes ask for; bytes that are no digits count for nothing.
pub fn asked_by(digits: &[u8; 8]) -> Asked {
    let mut number: u64 = 0;
    for digit in digits {
        if digit.is_ascii_digit() {
            number = number.wrapping_mul(10).wrapping_add((*digit - b'0') as u64);
        }
    }
    Asked {
        part: number / MOST,
        taken: number % MOST,
    }
}

/// Takes so many allocations, and gives each back.
pub fn take(alloc: Global, count: u64) -> Result<(), AllocError> {
    for _ in 0..count {
        drop(Box::new(alloc, count)?);
    }
    Ok(())
}

/// How many allocations are granted before the next one that is refused; or none where none is.
pub fn granted(alloc: Global) -> Option<u64> {
    for count in 0..MOST {
        match Box::new(alloc, count) {
            Ok(taken) => drop(taken),
            Err(_) => return Some(count),
        }
    }
    None
}
