//! The lines of a text by job.
ghost use Rattle.std.specs.Prelude.{◌≡◌, ◌<◌, ◌∷◌, [], List, ℕ, map, unwrap_or, length, get_or, OnOk, IfOk};
ghost use Rattle.job_scripts.specs.Groups.{groups_in, group_of, job_at, shown, numbers_in, nonempty};
ghost use Rattle.job_scripts.specs.SoFar.{extended, AreSoFar, HaveGroup, IsPlaceOf, ArePlaces};

use crate::Script;
use bstr::ByteSlice;
use collation::Job;
use script::job_of_line;
use std::alloc::{AllocError, Global};

// One more than the greatest number of a job.
const JOB_PLACES: usize = 4097;

// The scripts so far, in order of their first lines, and for each number one more than the place of its script, or 0.
#[derive(Drop)]
pub(crate) struct Groups<'t> {
    pub(crate) places: Vec<usize>,
    pub(crate) scripts: Vec<Script<'t>>,
}

// No script yet.
pub(crate) fn no_groups<'t>(alloc: Global) -> Result<Groups<'t>, AllocError>
    ensures places { IfOk result (λ groups. ArePlaces groups.places.items (numbers_in (map shown groups.scripts.items))) }
    ensures none { IfOk result (λ groups. groups.scripts.items ≡ []) }
{
    let places = Vec::from_elem(alloc, 0, JOB_PLACES)?;
    Ok(Groups {
        places,
        scripts: Vec::new(alloc),
    })
}

// A job's number, or 0 for none.
#[tactic(auto, using(crate::specs::laws::Numbered::job_of_number))]
pub(crate) fn number_of(job: &Option<Job>) -> usize
    ensures value { result ≡ unwrap_or job.now 0 }
    ensures job { job.now ≡ job_at result }
    ensures few { result < 4097 }
{
    match job {
        Some(job) => job.number() as usize,
        None => 0,
    }
}

// A script of no line more, for this job. Answers its place.
#[inline(never)]
fn begin_script(
    alloc: Global,
    groups: &mut Groups<'_>,
    job: Option<Job>,
    number: usize,
) -> Result<usize, AllocError>
    requires places { ArePlaces groups.old.places.items (numbers_in (map shown groups.old.scripts.items)) }
    requires number { number ≡ unwrap_or job 0 }
    requires job { job ≡ job_at number }
    requires few { number < 4097 }
    requires none { get_or groups.old.places.items number 0 ≡ 0 }
    ensures places { OnOk result (ArePlaces groups.new.places.items (numbers_in (map shown groups.new.scripts.items))) }
    ensures scripts { OnOk result (HaveGroup number (map shown groups.old.scripts.items) (map shown groups.new.scripts.items)) }
    ensures place { IfOk result (IsPlaceOf number (numbers_in (map shown groups.new.scripts.items))) }
{
    let place = groups.scripts.len();
    groups.scripts.push(Script {
        job,
        lines: Vec::new(alloc),
    })?;
    groups.places[number] = place + 1;
    Ok(place)
}

// The script of a line's job, which has no line yet where it is new. Answers its place.
fn script_at(alloc: Global, groups: &mut Groups<'_>, line: &[u8]) -> Result<usize, AllocError>
    requires { ArePlaces groups.old.places.items (numbers_in (map shown groups.old.scripts.items)) }
    ensures places { OnOk result (ArePlaces groups.new.places.items (numbers_in (map shown groups.new.scripts.items))) }
    ensures scripts { OnOk result (HaveGroup (group_of line.now) (map shown groups.old.scripts.items) (map shown groups.new.scripts.items)) }
    ensures place { IfOk result (IsPlaceOf (group_of line.now) (numbers_in (map shown groups.new.scripts.items))) }
{
    let job = job_of_line(line);
    let number = number_of(&job);
    let place = groups.places[number];
    if place == 0 {
        begin_script(alloc, groups, job, number)
    } else {
        Ok(place - 1)
    }
}

// A line more, of the script at this place.
fn push_at<'t>(
    scripts: &mut Vec<Script<'t>>,
    place: usize,
    line: &'t [u8],
) -> Result<(), AllocError>
    requires { place < length scripts.old.items }
    ensures { OnOk result (map shown scripts.new.items ≡ extended place (line.entry.now ∷ []) (map shown scripts.old.items)) }
{
    scripts[place].lines.push(line)?;
    Ok(())
}

// A line, under its job.
fn add_line<'t>(alloc: Global, groups: &mut Groups<'t>, line: &'t [u8]) -> Result<(), AllocError>
    requires { ArePlaces groups.old.places.items (numbers_in (map shown groups.old.scripts.items)) }
    ensures places { OnOk result (ArePlaces groups.new.places.items (numbers_in (map shown groups.new.scripts.items))) }
    ensures scripts { OnOk result ((all rest : List (List ℕ)) → AreSoFar all (line.entry.now ∷ rest) groups.old.scripts.items → AreSoFar all rest groups.new.scripts.items) }
{
    let place = script_at(alloc, groups, line)?;
    push_at(&mut groups.scripts, place, line)
}

// A line, where it isn't empty, under its job.
fn take_line<'t>(alloc: Global, groups: &mut Groups<'t>, line: &'t [u8]) -> Result<(), AllocError>
    requires { ArePlaces groups.old.places.items (numbers_in (map shown groups.old.scripts.items)) }
    ensures places { OnOk result (ArePlaces groups.new.places.items (numbers_in (map shown groups.new.scripts.items))) }
    ensures scripts { OnOk result ((all rest : List (List ℕ)) → AreSoFar all (nonempty (line.entry.now ∷ rest)) groups.old.scripts.items → AreSoFar all (nonempty rest) groups.new.scripts.items) }
{
    match line {
        [] => Ok(()),
        [_, ..] => add_line(alloc, groups, line),
    }
}

/// The lines of a text by job: a script for each job that a line has, and one for the lines without a job, in order of
/// their first lines. Empty lines are passed over. No line is copied.
///
/// `AllocError` where memory is refused.
pub fn scripts_of(alloc: Global, text: &[u8]) -> Result<Vec<Script<'_>>, AllocError>
    ensures { IfOk result (λ scripts. map shown scripts.items ≡ groups_in text.now) }
{
    let mut groups = no_groups(alloc)?;
    'lines: for line in text.lines() {
        take_line(alloc, &mut groups, line)?;
    }
    Ok(groups.scripts)
}
