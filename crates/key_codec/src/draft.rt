//! Keys while their references are read, subscript by subscript.
ghost use Rattle.std.specs.Prelude.{◌≡◌, ◌<◌, ◌≤◌, ◌++◌, ◌+◌, [], IfErr, IfOk, None, Some, OnOk, false, true};
ghost use Rattle.std.specs.Option.{option_or};
ghost use Rattle.refusal.specs.declared.Refusal.{Refusal as RefusalView};
ghost use Rattle.collation.specs.Limits.{most_subscripts};
ghost use Rattle.collation.specs.Reference.{Reference};
ghost use Rattle.key_codec.specs.Key as spec;
ghost use Rattle.key_codec.specs.Key.{long_form, IsSubscriptWithin};
ghost use Rattle.key_codec.specs.Draft.{IsDraft, IsSpelled, IsJudged, IsDueOrMemory, IsDueOrLong, longer, place_due, place_of, reference_due, open_fault};

use crate::write::push_judged;
use crate::{END, Key, Place};
use canonic_number::{LONGEST_SUBSCRIPT, NumberParts, parts};
use collation::{MOST_SUBSCRIPTS, is_name};
use refusal::Refusal;
use std::alloc::{AllocError, Global};

/// A reference or place while it is read, as key bytes in a buffer that serves for the next one too.
///
/// Contracts speak of what has been spelled, whatever faults it has (`IsDraft` of `specs/Draft.antt`). However much is
/// spelled, it keeps no more bytes than one key has.
#[derive(Debug, Drop)]
pub struct KeyDraft {
    bytes: Vec<u8>,
    count: usize,
    is_name: bool,
    ends_open: bool,
    fault: Option<Refusal>,
}

impl KeyDraft {
    /// An empty buffer.
    pub fn new(alloc: Global) -> KeyDraft {
        KeyDraft {
            bytes: Vec::new(alloc),
            count: 0,
            is_name: false,
            ends_open: false,
            fault: None,
        }
    }

    /// Begins anew, with a name word. A word that is no name isn't kept.
    #[inline(always)]
    #[tactic(auto, using(crate::proofs::Drafting::begun_key))]
    pub fn begin(&mut self, word: &[u8]) -> Result<(), AllocError>
        ensures { OnOk result (IsDraft self.new (record { name = word.now; subscripts = [] })) }
    {
        self.bytes.clear();
        self.count = 0;
        self.ends_open = false;
        self.fault = None;
        self.is_name = is_name(word);
        if self.is_name {
            self.bytes.extend_from_slice(word)?;
            self.bytes.push(END)?;
        }
        Ok(())
    }

    // Makes room for one subscript more: an empty one before it is at fault.
    fn go_on(&mut self)
        ensures fault { self.new.fault ≡ option_or self.old.fault (open_fault self.old.ends_open) }
        ensures bytes { self.new.bytes ≡ self.old.bytes }
        ensures few { self.old.count ≤ most_subscripts → self.new.count ≡ self.old.count + 1 }
        ensures many { most_subscripts < self.old.count → self.new.count ≡ self.old.count }
        ensures name { self.new.is_name ≡ self.old.is_name }
    {
        if self.ends_open && self.fault.is_none() {
            self.fault = Some(Refusal::EmptySubscript);
        }
        if self.count <= MOST_SUBSCRIPTS {
            self.count += 1;
        }
    }

    fn note(&mut self, fault: Refusal)
        ensures fault { self.new.fault ≡ option_or self.old.fault (Some fault) }
        ensures bytes { self.new.bytes ≡ self.old.bytes }
        ensures count { self.new.count ≡ self.old.count }
        ensures name { self.new.is_name ≡ self.old.is_name }
        ensures open_end { self.new.ends_open ≡ self.old.ends_open }
    {
        if self.fault.is_none() {
            self.fault = Some(fault);
        }
    }

    // Adds a subscript's key, where nothing is at fault; else keeps nothing of it.
    fn add(&mut self, subscript: &[u8], number: Option<NumberParts<'_>>) -> Result<(), AllocError>
        requires form { IsSubscriptWithin long_form subscript.now }
        requires judged { IsJudged subscript.now number }
        ensures nameless { self.old.is_name ≡ false → self.new.bytes ≡ self.old.bytes }
        ensures many { most_subscripts < self.old.count → self.new.bytes ≡ self.old.bytes }
        ensures at_fault { (fault : RefusalView) → self.old.fault ≡ Some fault → self.new.bytes ≡ self.old.bytes }
        ensures bytes { OnOk result (self.old.is_name ≡ true → self.old.count ≤ most_subscripts → self.old.fault ≡ None → self.new.bytes.items ≡ self.old.bytes.items ++ spec.subscript_key long_form subscript.now) }
        ensures fault { self.new.fault ≡ self.old.fault }
        ensures count { self.new.count ≡ self.old.count }
        ensures name { self.new.is_name ≡ self.old.is_name }
        ensures open_end { self.new.ends_open ≡ self.old.ends_open }
    {
        if self.is_name && self.count <= MOST_SUBSCRIPTS && self.fault.is_none() {
            push_judged(&mut self.bytes, subscript, number)?;
        }
        Ok(())
    }

    /// Puts one subscript after the others.
    pub fn push(&mut self, subscript: &[u8]) -> Result<(), AllocError>
        ensures { (r : Reference) → IsDraft self.old r → OnOk result (IsDraft self.new (longer r subscript.now)) }
    {
        self.push_judged(subscript, parts(subscript))
    }

    /// As `push`, of a subscript that was judged: its parts where it is a canonic number, else none.
    pub fn push_judged(
        &mut self,
        subscript: &[u8],
        number: Option<NumberParts<'_>>,
    ) -> Result<(), AllocError>
        requires { IsJudged subscript.now number }
        ensures { (r : Reference) → IsDraft self.old r → OnOk result (IsDraft self.new (longer r subscript.now)) }
    {
        self.go_on();
        self.ends_open = subscript.is_empty();
        if subscript.is_empty() {
            return Ok(());
        }
        if subscript.len() > LONGEST_SUBSCRIPT {
            self.note(Refusal::SubscriptTooLong);
            return Ok(());
        }
        self.add(subscript, number)
    }

    // Why the place that is spelled is refused, where it is.
    fn place_fault(&self) -> Option<Refusal>
        ensures { (r : Reference) → IsDraft self.now r → result ≡ place_due r }
    {
        if !self.is_name {
            return Some(Refusal::BadName);
        }
        if self.count > MOST_SUBSCRIPTS {
            return Some(Refusal::TooManySubscripts);
        }
        self.fault
    }

    /// The place that is spelled, open where its last subscript is empty. Takes memory only past 38 key bytes.
    ///
    /// Refusals, in this order: `BadName`; `TooManySubscripts` over 31, an empty last one among them; then the first
    /// subscript that is at fault, `EmptySubscript`, or `SubscriptTooLong` over 255 bytes. And `OutOfMemory`.
    pub fn place(&self, alloc: Global) -> Result<Place, Refusal>
        requires { IsSpelled self.now }
        ensures ok { (r : Reference) → IsDraft self.now r → IfOk result (λ p. (place_due r ≡ None) × (p ≡ place_of r)) }
        ensures err { (r : Reference) → IsDraft self.now r → IfErr result (λ refusal. IsDueOrMemory refusal (place_due r)) }
        ensures long { (r : Reference) → IsDraft self.now r → IfErr result (λ refusal. IsDueOrLong refusal (place_due r) r) }
    {
        match self.place_fault() {
            Some(fault) => Err(fault),
            None => {
                let key = Key::from_slice(alloc, self.bytes.as_slice())?;
                Ok(Place::new(key, self.ends_open))
            }
        }
    }

    /// The reference that is spelled, as a key. Takes memory only past 38 key bytes.
    ///
    /// Refusals as those of `place`, and `EmptySubscript` for an empty last one.
    pub fn key(&self, alloc: Global) -> Result<Key, Refusal>
        requires { IsSpelled self.now }
        ensures ok { (r : Reference) → IsDraft self.now r → IfOk result (λ key. (reference_due r ≡ None) × (key ≡ r)) }
        ensures err { (r : Reference) → IsDraft self.now r → IfErr result (λ refusal. IsDueOrMemory refusal (reference_due r)) }
        ensures long { (r : Reference) → IsDraft self.now r → IfErr result (λ refusal. IsDueOrLong refusal (reference_due r) r) }
    {
        match self.place_fault() {
            Some(fault) => Err(fault),
            None => {
                if self.ends_open {
                    return Err(Refusal::EmptySubscript);
                }
                let bytes = self.bytes.as_slice();
                let key = Key::from_slice(alloc, bytes)?;
                Ok(key)
            }
        }
    }
}
