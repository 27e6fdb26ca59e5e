//! MERGE's copies: all of them are set, or none.
ghost use Rattle.std.specs.Prelude.{◌≡◌, OnOk, OnErr};
ghost use Rattle.std.specs.FinMap as finmap;
ghost use Rattle.collation.specs.Answers.{set_all as set_all_spec};
ghost use Rattle.workspace.specs.Copies.{taken_back, all_taken_back};

use collation::Text;
use key_codec::Key;
use key_map::KeyMap;
use std::alloc::{AllocError, Global};

// Sets one value.
pub(crate) fn set_one(
    written: &mut KeyMap<Text>,
    alloc: Global,
    key: Key,
    value: Text,
) -> Result<(), AllocError>
    ensures ok { OnOk result (written.new ≡ finmap.insert written.old key value) }
    ensures err { OnErr result (written.new ≡ written.old) }
{
    let before = written.insert(alloc, key, value)?;
    drop(before);
    Ok(())
}

// Gives a key the value back that it had, or takes it out where it had none.
fn take_back(written: &mut KeyMap<Text>, key: &Key, before: Option<Text>)
    ensures { written.new ≡ taken_back (key.now, before) written.old }
{
    match before {
        Some(value) => drop(written.replace(key, value)),
        None => drop(written.remove(key)),
    }
}

fn take_all_back(written: &mut KeyMap<Text>, done: Vec<(Key, Option<Text>)>)
    ensures { written.new ≡ all_taken_back done.items written.old }
{
    let mut done = done;
    while let Some((key, before)) = done.pop() {
        take_back(written, &key, before);
        drop(key);
    }
}

// Sets one value, and notes what was there before.
fn set_noted(
    written: &mut KeyMap<Text>,
    alloc: Global,
    done: &mut Vec<(Key, Option<Text>)>,
    key: Key,
    value: Text,
) -> Result<(), AllocError>
    ensures set { OnOk result (written.new ≡ finmap.insert written.old key value) }
    ensures back { all_taken_back done.new.items written.new ≡ all_taken_back done.old.items written.old }
{
    done.reserve(1)?;
    let copy = key.clone()?;
    let before = written.insert(alloc, key, value)?;
    done.push_reserved((copy, before));
    Ok(())
}

fn set_each(
    written: &mut KeyMap<Text>,
    alloc: Global,
    done: &mut Vec<(Key, Option<Text>)>,
    copies: Vec<(Key, Text)>,
) -> Result<(), AllocError>
    ensures set { OnOk result (written.new ≡ set_all_spec copies.items written.old) }
    ensures back { all_taken_back done.new.items written.new ≡ all_taken_back done.old.items written.old }
{
    for (key, value) in copies {
        set_noted(written, alloc, done, key, value)?;
    }
    Ok(())
}

// Sets the values of these references, in turn: all of them or none.
pub(crate) fn set_copies(
    written: &mut KeyMap<Text>,
    alloc: Global,
    copies: Vec<(Key, Text)>,
) -> Result<(), AllocError>
    ensures ok { OnOk result (written.new ≡ set_all_spec copies.items written.old) }
    ensures err { OnErr result (written.new ≡ written.old) }
{
    let mut done = Vec::new(alloc);
    match set_each(written, alloc, &mut done, copies) {
        Ok(()) => Ok(()),
        Err(error) => {
            take_all_back(written, done);
            Err(error)
        }
    }
}
