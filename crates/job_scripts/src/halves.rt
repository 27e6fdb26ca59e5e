//! A text in halves, and the scripts of both.
ghost use Rattle.std.specs.Prelude.{◌≡◌, ◌<◌, ◌++◌, length, map, OnOk, IfOk};
ghost use Rattle.job_scripts.specs.Groups.{lines_in, shown, numbers_in, AreJoined};
ghost use Rattle.job_scripts.specs.Lines.{lent_lines};
ghost use Rattle.job_scripts.specs.SoFar.{extended, with_group, with_groups, ArePlaces};

use crate::Script;
use crate::grouping::{Groups, no_groups, number_of};
use bstr::ByteSlice;
use std::alloc::{AllocError, Global};

/// A text in two parts: up to the first end of a line in its second half, and the rest, so that no line is in both.
/// Nothing is copied.
pub fn halves_of(text: &[u8]) -> (&[u8], &[u8])
    ensures { lines_in text.now ≡ lines_in result.0.now ++ lines_in result.1.now }
{
    let middle = text.len() / 2;
    match (&text[middle..]).find_byte(b'\n') {
        Some(end) => text.split_at(middle + end + 1),
        None => text.split_at(text.len()),
    }
}

// Lines more, of the script at this place.
fn append_at<'t>(
    scripts: &mut Vec<Script<'t>>,
    place: usize,
    mut lines: Vec<&'t [u8]>,
) -> Result<(), AllocError>
    requires { place < length scripts.old.items }
    ensures { OnOk result (map shown scripts.new.items ≡ extended place (lent_lines lines.entry.items) (map shown scripts.old.items)) }
{
    scripts[place].lines.append(&mut lines)?;
    Ok(())
}

// A script more: its lines stand behind those of its job, and where the job has none yet it stands behind all.
fn take_script<'t>(groups: &mut Groups<'t>, script: Script<'t>) -> Result<(), AllocError>
    requires { ArePlaces groups.old.places.items (numbers_in (map shown groups.old.scripts.items)) }
    ensures places { OnOk result (ArePlaces groups.new.places.items (numbers_in (map shown groups.new.scripts.items))) }
    ensures scripts { OnOk result (map shown groups.new.scripts.items ≡ with_group (shown script.entry) (map shown groups.old.scripts.items)) }
{
    let number = number_of(&script.job);
    let place = groups.places[number];
    if place == 0 {
        let behind = groups.scripts.len();
        groups.scripts.push(script)?;
        groups.places[number] = behind + 1;
        Ok(())
    } else {
        append_at(&mut groups.scripts, place - 1, script.lines)
    }
}

// Scripts more, one after the other.
fn take_scripts<'t>(groups: &mut Groups<'t>, scripts: Vec<Script<'t>>) -> Result<(), AllocError>
    requires { ArePlaces groups.old.places.items (numbers_in (map shown groups.old.scripts.items)) }
    ensures places { OnOk result (ArePlaces groups.new.places.items (numbers_in (map shown groups.new.scripts.items))) }
    ensures scripts { OnOk result (map shown groups.new.scripts.items ≡ with_groups (map shown scripts.entry.items) (map shown groups.old.scripts.items)) }
{
    for script in scripts {
        take_script(groups, script)?;
    }
    Ok(())
}

/// The scripts of some lines and of those that follow them, as the scripts of all: a job's lines among those that follow
/// stand behind its lines before, and jobs that are new behind all others. No line is copied.
///
/// `AllocError` where memory is refused.
pub fn joined<'t>(
    alloc: Global,
    first: Vec<Script<'t>>,
    second: Vec<Script<'t>>,
) -> Result<Vec<Script<'t>>, AllocError>
    ensures { IfOk result (λ scripts. AreJoined (map shown first.entry.items) (map shown second.entry.items) (map shown scripts.items)) }
{
    let mut groups = no_groups(alloc)?;
    take_scripts(&mut groups, first)?;
    take_scripts(&mut groups, second)?;
    Ok(groups.scripts)
}
