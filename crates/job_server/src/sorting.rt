//! Lines by job, by several threads.
ghost use Rattle.std.specs.Prelude.{◌≡◌, ◌≤◌, ◌^◌, map, IfOk};
ghost use Rattle.std.specs.Thread.{IsSync};
ghost use Rattle.job_scripts.specs.Groups.{groups_in, shown};

use job_scripts::{Script, halves_of, joined, scripts_of};
use std::alloc::{AllocError, Global};
use std::thread;
use std::thread::Threads;

// The length below which no text is cut: there a thread costs more than it does.
pub(crate) const LEAST_BYTES: usize = 65536;

// How often a text is cut in halves for so many workers: there are at most as many parts, and at most eight.
pub(crate) fn halvings_for(workers: usize) -> u32
    ensures parts { 1 ≤ workers → 2 ^ result ≤ workers }
    ensures few { result ≤ 3 }
{
    match workers {
        0 | 1 => 0,
        2 | 3 => 1,
        4..=7 => 2,
        _ => 3,
    }
}

/// The lines of a text by job, as of `job_scripts::scripts_of`. A text of at least so many bytes is cut in halves, and
/// each half, in a thread of its own where one can be made, in halves once less often; the scripts of both are put
/// together.
///
/// `AllocError` where memory is refused.
#[cycle(halvings)]
pub fn scripts_by_halves<'t, R: Threads + Sync>(
    rt: &R,
    alloc: Global,
    text: &'t [u8],
    halvings: u32,
    least: usize,
) -> Result<Vec<Script<'t>>, AllocError>
    ensures { IfOk result (λ scripts. map shown scripts.items ≡ groups_in text.now) }
{
    if halvings == 0 || text.len() < least {
        return scripts_of(alloc, text);
    }
    let fewer = halvings - 1;
    let (front, back) = halves_of(text);
    let sort_front = move || -> Result<Vec<Script<'_>>, AllocError>
        requires { IsSync R.row }
        ensures { IfOk result (λ scripts. map shown scripts.items ≡ groups_in front.entry.now) }
    { scripts_by_halves(rt, alloc, front, fewer, least) };
    let sort_back = move || -> Result<Vec<Script<'_>>, AllocError>
        requires { IsSync R.row }
        ensures { IfOk result (λ scripts. map shown scripts.items ≡ groups_in back.entry.now) }
    { scripts_by_halves(rt, alloc, back, fewer, least) };
    let (first, second) = thread::join(rt, sort_front, sort_back);
    joined(alloc, first?, second?)
}
