//! The lock names of a line while they are read.
ghost use Rattle.std.specs.Prelude.{◌≡◌, ◌++◌, ◌∷◌, [], List, None, Some, OnOk, IfOk, MatchResult};
ghost use Rattle.collation.specs.Reference.{Reference, Resource};
ghost use Rattle.key_codec.specs.Draft.{IsDraft, IsSpelled};
ghost use Rattle.m_text.specs.Reading.{Answers};
ghost use Rattle.m_text.specs.Place.{ref_fault, unless};
ghost use Rattle.script.specs.Locking.{names_fault};
ghost use Rattle.script.specs.Sentence.{AreNamed, HasNoRoom};

use key_codec::{Key, KeyDraft};
use lock_name::{LockName, LockNames};
use refusal::Refusal;
use std::alloc::{AllocError, Global};
use std::mem;

// Those before the first one at fault, and that fault.
#[derive(Debug, Drop)]
pub(crate) struct Names {
    pub(crate) found: Vec<LockName>,
    pub(crate) fault: Option<Refusal>,
}

// The key of a draft's reference, or its fault.
fn key_of(alloc: Global, draft: &KeyDraft) -> Result<Result<Key, Refusal>, AllocError>
    requires { IsSpelled draft.now }
    ensures { (r : Reference) → IsDraft draft.now r → IfOk result (λ judged. MatchResult judged (λ key. (ref_fault r ≡ None) × (key ≡ r)) (λ fault. ref_fault r ≡ Some fault)) }
{
    match draft.key(alloc) {
        Ok(key) => Ok(Ok(key)),
        Err(Refusal::OutOfMemory) => Err(AllocError),
        Err(fault) => Ok(Err(fault)),
    }
}

impl Names {
    // None yet. Takes no memory.
    pub(crate) fn new(alloc: Global) -> Names
        ensures { HasNoRoom result }
    {
        Names {
            found: Vec::new(alloc),
            fault: None,
        }
    }

    // Begins anew.
    pub(crate) fn clear(&mut self)
        ensures { AreNamed self.new [] }
    {
        self.found.clear();
        self.fault = None;
    }

    // Adds the name of a draft's reference, where nothing is at fault.
    pub(crate) fn push(
        &mut self,
        alloc: Global,
        has_caret: bool,
        draft: &KeyDraft,
    ) -> Result<(), AllocError>
        requires { IsSpelled draft.now }
        ensures { (ns : List Resource) (r : Reference) → AreNamed self.old ns → IsDraft draft.now r → OnOk result (AreNamed self.new (ns ++ record { has_caret = has_caret; reference = r } ∷ [])) }
    {
        if self.fault.is_some() {
            return Ok(());
        }
        match key_of(alloc, draft)? {
            Ok(key) => self.add(LockName::new(has_caret, key)),
            Err(fault) => {
                self.fault = Some(fault);
                Ok(())
            }
        }
    }

    fn add(&mut self, name: LockName) -> Result<(), AllocError>
        ensures found { OnOk result (self.new.found.items ≡ self.old.found.items ++ name ∷ []) }
        ensures fault { self.new.fault ≡ self.old.fault }
    {
        self.found.push(name)?;
        Ok(())
    }

    // Takes the names out, or tells their first fault.
    pub(crate) fn take(&mut self, alloc: Global) -> Result<LockNames, Refusal>
        ensures names { (ns : List Resource) → AreNamed self.old ns → Answers (λ names. names) result (unless (names_fault ns) ns) }
        ensures empty { OnOk result (HasNoRoom self.new) }
    {
        match self.fault {
            Some(fault) => Err(fault),
            None => Ok(LockNames::new(mem::replace(&mut self.found, Vec::new(alloc)))),
        }
    }
}
