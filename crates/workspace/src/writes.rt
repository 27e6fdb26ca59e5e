//! The written values and killed references, and their changes.
ghost use Rattle.std.specs.Prelude.{◌≡◌, ◌||◌, [], true, false, OnOk, OnErr, IfOk, MatchOption, not};
ghost use Rattle.std.specs.FinMap as finmap;
ghost use Rattle.std.specs.List.{list_any};
ghost use Rattle.collation.specs.Reference.{Reference};
ghost use Rattle.collation.specs.Order.{ref_eq};
ghost use Rattle.collation.specs.Database.{Database};
ghost use Rattle.collation.specs.Answers.{set_all as set_all_spec};
ghost use Rattle.command.specs.Data.{data_after, takes};
ghost use Rattle.command.specs.declared.access.DataCommand.TheVariants.{Set as set_command, Kill as kill_command};
ghost use Rattle.workspace.specs.Layers.{nothing_written, is_killed as is_killed_spec, is_covered, laid_over, decides as decides_spec, IsKiller};
ghost use Rattle.workspace.specs.Changes.{AreChanges};

use crate::changes::list_changes;
use crate::copies::{set_copies, set_one};
use crate::kills::{includes, kill_root};
use collation::Text;
use command::Extent;
use globals::{Cut, OrderedView, is_below};
use key_codec::Key;
use key_map::KeyMap;
use std::alloc::{AllocError, Global};
use std::marker::Model;

/// What a transaction wrote. It is seen as the values that it set, and the references that it killed, each with what it
/// killed of it and its descendants.
#[derive(Drop)]
pub struct Workspace {
    written: KeyMap<Text>,
    killed: KeyMap<Extent>,
}

impl Model for Workspace {
    ghost use Rattle.std.specs.FinMap as finmap;
    ghost use Rattle.workspace.specs.Layers.{Layer, layer_code, NoneUnderAnother};

    ghost Value = { Layer };

    ghost coded = { layer_code };

    ghost view = { λ w. record { written = w.written; killed = finmap.entries w.killed } };

    ghost invariant = { λ w. NoneUnderAnother w.killed };
}

// Whether a kill takes a reference.
fn is_taken(root: &Key, extent: Extent, key: &Key) -> bool
    ensures { result ≡ takes extent root.now key.now }
{
    match extent {
        Extent::All => key.is_under(root),
        Extent::Value => key == root,
        Extent::Below => is_below(root, key),
    }
}

// Takes out the values of what a kill takes.
fn remove_taken(written: &mut KeyMap<Text>, root: &Key, extent: Extent)
    ensures { written.new ≡ finmap.retain_keys written.old (λ x. not (takes extent root.now x)) }
{
    match extent {
        Extent::All => written.remove_under(root),
        Extent::Value => drop(written.remove(root)),
        Extent::Below => written.remove_below(root),
    }
}

impl Workspace {
    /// A workspace in which nothing is written. Takes no memory.
    pub fn new(alloc: Global) -> Workspace
        ensures { result ≡ nothing_written }
    {
        Workspace {
            written: KeyMap::new(alloc),
            killed: KeyMap::new(alloc),
        }
    }

    /// The values that were set and not killed later.
    pub fn written(&self) -> &KeyMap<Text>
        ensures { result.now ≡ self.now.written }
    {
        &self.written
    }

    /// The killed references, of which none is taken by the kill of another.
    pub fn killed(&self) -> &KeyMap<Extent>
        ensures { finmap.entries result.now ≡ self.now.killed }
    {
        &self.killed
    }

    // Whether nothing is killed, as is seen without a look-up.
    fn kills_nothing(&self) -> bool
        ensures { result ≡ true → self.now.killed ≡ [] }
    {
        matches!(self.killed.as_row(), Some([]))
    }

    /// The killed reference whose kill takes this one, with what it kills, by one look-up at most.
    pub fn killed_over(&self, key: &Key) -> Option<(&Key, Extent)>
        ensures { MatchOption result (is_killed_spec self.now.killed key.now ≡ false) (λ killed. IsKiller self.now.killed key.now killed.0.now killed.1) }
    {
        if self.kills_nothing() {
            return None;
        }
        match self.killed.last_before(Cut::After(key)) {
            Some((killed, extent)) => {
                if is_taken(killed, *extent, key) {
                    Some((killed, *extent))
                } else {
                    None
                }
            }
            None => None,
        }
    }

    /// Whether a kill takes this reference, by one look-up at most.
    pub fn is_killed(&self, key: &Key) -> bool
        ensures { result ≡ is_killed_spec self.now.killed key.now }
    {
        match self.killed_over(key) {
            Some(_) => true,
            None => false,
        }
    }

    // Whether all that a kill takes is killed already.
    fn covers(&self, key: &Key, extent: Extent) -> bool
        ensures yes { result ≡ true → (x : Reference) → takes extent key.now x ≡ true → is_killed_spec self.now.killed x ≡ true }
        ensures no { result ≡ false → is_covered self.now.killed key.now ≡ false }
    {
        match self.killed_over(key) {
            Some((killed, all)) => {
                if killed != key {
                    true
                } else {
                    includes(all, extent)
                }
            }
            None => false,
        }
    }

    /// Whether what this reference has doesn't depend on the database below: it is written, or killed.
    pub fn decides(&self, key: &Key) -> bool
        ensures { result ≡ decides_spec self.now key.now }
    {
        self.written.get(key).is_some() || self.is_killed(key)
    }

    /// Forgets all writes. Takes no memory.
    pub fn clear(&mut self)
        ensures { self.new ≡ nothing_written }
    {
        self.written.clear();
        self.killed.clear();
    }

    /// Sets a value.
    ///
    /// Refused where there is no memory, and then nothing has changed.
    pub fn set(&mut self, alloc: Global, key: Key, value: Text) -> Result<(), AllocError>
        ensures over { OnOk result ((m : Database) → laid_over self.new m ≡ data_after (set_command key value) (laid_over self.old m)) }
        ensures decides { OnOk result ((x : Reference) → decides_spec self.new x ≡ (decides_spec self.old x || ref_eq x key)) }
        ensures written { OnOk result (self.new ≡ record self.old { written = finmap.insert self.old.written key value }) }
        ensures err { OnErr result (self.new ≡ self.old) }
    {
        set_one(&mut self.written, alloc, key, value)?;
        Ok(())
    }

    /// Sets the values of these references, in turn: all of them or none.
    ///
    /// Refused where there is no memory, and then nothing has changed.
    #[inline(never)]
    pub fn set_all(&mut self, alloc: Global, copies: Vec<(Key, Text)>) -> Result<(), AllocError>
        ensures over { OnOk result ((m : Database) → laid_over self.new m ≡ set_all_spec copies.items (laid_over self.old m)) }
        ensures decides { OnOk result ((x : Reference) → decides_spec self.new x ≡ (decides_spec self.old x || list_any (λ e. ref_eq x e.0) copies.items)) }
        ensures written { OnOk result (self.new ≡ record self.old { written = set_all_spec copies.items self.old.written }) }
        ensures err { OnErr result (self.new ≡ self.old) }
    {
        set_copies(&mut self.written, alloc, copies)?;
        Ok(())
    }

    /// Kills what the extent takes of a reference and its descendants: what was written there, and whatever the database
    /// below has there. Takes memory for this reference alone, and none where all of that is killed already.
    ///
    /// Refused where there is no memory, and then nothing has changed.
    #[inline(never)]
    pub fn kill(&mut self, alloc: Global, key: Key, extent: Extent) -> Result<(), AllocError>
        ensures over { OnOk result ((m : Database) → laid_over self.new m ≡ data_after (kill_command key extent) (laid_over self.old m)) }
        ensures decides { OnOk result ((x : Reference) → decides_spec self.new x ≡ (decides_spec self.old x || takes extent key x)) }
        ensures written { OnOk result (self.new.written ≡ finmap.retain_keys self.old.written (λ x. not (takes extent key x))) }
        ensures killed { OnOk result ((x : Reference) → is_killed_spec self.new.killed x ≡ (is_killed_spec self.old.killed x || takes extent key x)) }
        ensures err { OnErr result (self.new ≡ self.old) }
    {
        if self.covers(&key, extent) {
            remove_taken(&mut self.written, &key, extent);
            return Ok(());
        }
        kill_root(&mut self.killed, alloc, &key, extent)?;
        remove_taken(&mut self.written, &key, extent);
        Ok(())
    }

    /// What the writes change in what a view contains, so that it becomes the writes laid over it: each reference that
    /// is written, with its value, and each that is killed and has a value below, removed. Takes memory for the list
    /// alone.
    ///
    /// Refused where there is no memory.
    pub fn changes_over<V: OrderedView>(
        &self,
        alloc: Global,
        view: &V,
    ) -> Result<Vec<(Key, Option<Text>)>, AllocError>
        ensures { IfOk result (λ changes. AreChanges self.now (V.content view.now) changes.items) }
    {
        let changes = list_changes(alloc, &self.written, &self.killed, view)?;
        Ok(changes)
    }
}
