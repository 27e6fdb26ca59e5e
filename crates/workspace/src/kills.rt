//! Killed references, each with what was killed of it and its descendants.
ghost use Rattle.std.specs.Prelude.{◌≡◌, ◌||◌, not, OnOk, OnErr};
ghost use Rattle.std.specs.FinMap as finmap;
ghost use Rattle.collation.specs.Order.{ref_eq};
ghost use Rattle.command.specs.Data.{takes};
ghost use Rattle.std.specs.Option.{option_copied};
ghost use Rattle.workspace.specs.Layers.{both as both_spec, includes as includes_spec, joined as joined_spec, with_killed};

use command::Extent;
use key_codec::Key;
use key_map::KeyMap;
use std::alloc::{AllocError, Global};

// Two kills of one reference together.
fn both(before: Extent, extent: Extent) -> Extent
    ensures { result ≡ both_spec before extent }
{
    match before {
        Extent::All => Extent::All,
        Extent::Value => match extent {
            Extent::Value => Extent::Value,
            Extent::All | Extent::Below => Extent::All,
        },
        Extent::Below => match extent {
            Extent::Below => Extent::Below,
            Extent::All | Extent::Value => Extent::All,
        },
    }
}

// Whether one kill of a reference takes all that another takes.
pub(crate) fn includes(all: Extent, extent: Extent) -> bool
    ensures { result ≡ includes_spec all extent }
{
    match all {
        Extent::All => true,
        Extent::Value => match extent {
            Extent::Value => true,
            Extent::All | Extent::Below => false,
        },
        Extent::Below => match extent {
            Extent::Below => true,
            Extent::All | Extent::Value => false,
        },
    }
}

// What is killed of a reference where that was, and this is.
fn joined(before: Option<&Extent>, extent: Extent) -> Extent
    ensures { result ≡ joined_spec (option_copied before.entry) extent }
{
    match before {
        None => extent,
        Some(before) => both(*before, extent),
    }
}

// Takes out what a kill takes of the references under this one.
fn remove_taken_below(killed: &mut KeyMap<Extent>, key: &Key, extent: Extent)
    ensures { killed.new ≡ finmap.retain_keys killed.old (λ x. ref_eq x key.now || not (takes extent key.now x)) }
{
    match extent {
        Extent::All => killed.remove_below(key),
        Extent::Below => killed.remove_below(key),
        Extent::Value => {}
    }
}

// One more killed reference, without those that it covers.
pub(crate) fn kill_root(
    killed: &mut KeyMap<Extent>,
    alloc: Global,
    key: &Key,
    extent: Extent,
) -> Result<(), AllocError>
    ensures ok { OnOk result (killed.new ≡ with_killed killed.old key.now extent) }
    ensures err { OnErr result (killed.new ≡ killed.old) }
{
    let all = joined(killed.get(key), extent);
    killed.insert(alloc, key.clone()?, all)?;
    remove_taken_below(killed, key, extent);
    Ok(())
}
