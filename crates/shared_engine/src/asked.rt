//! What the lines of a hold ask, side by side.
ghost use Rattle.std.specs.Prelude.{◌≡◌, ◌⊎◌, ◌≤◌, ◌+◌, ◌-◌, ◌∷◌, ◌++◌, [], ℕ, List, map, IfNone, IfSome, OnOk, OnErr};
ghost use Rattle.collation.specs.Reference.{Reference};
ghost use Rattle.command.specs.declared.access.DataCommand.{DataCommand};
ghost use Rattle.command.specs.declared.access.DataCommand.TheVariants.{Set};
ghost use Rattle.shared_engine.specs.Holds.{get_of, asking, IsTagged, IsAskedBy, IsPassed};

use collation::Text;
use command::DataCommand;
use key_codec::Key;
use std::alloc::{AllocError, Global};
use std::collections::VecDeque;
use std::marker::Model;
use std::mem;

/// What a line asks. Its key and its value, or its command, lie beside it.
#[derive(Clone, Copy, Debug)]
pub(crate) enum Ask {
    /// A SET of the next key to the next value.
    Set,
    /// A $GET without a default, of the next key.
    Get,
    /// The next of the other commands.
    Other,
}

/// Commands that are to be done, in order. Those before the places are done. It is seen as those that are left.
#[derive(Drop)]
pub(crate) struct Asked {
    asks: Vec<Ask>,
    keys: Vec<Key>,
    texts: Vec<Text>,
    whole: VecDeque<DataCommand>,
    ask: usize,
    key: usize,
    text: usize,
    spare: usize,
}

impl Model for Asked {
    ghost use Rattle.std.specs.Prelude.{◌≡◌, ◌≤◌, ◌+◌, drop, length, vec_capacity};
    ghost use Rattle.shared_engine.specs.Holds.{Asking, asking, commands_of, AreJust};
    ghost use Rattle.shared_engine.specs.Codes.{asking_code};

    ghost Value = { Asking };

    ghost coded = { asking_code };

    ghost view = { λ a. asking (drop a.ask a.asks.items) (commands_of (drop a.ask a.asks.items) (drop a.key a.keys.items) (drop a.text a.texts.items) a.whole.items) a.spare (length a.whole.items) };

    ghost invariant = { λ a. AreJust (drop a.ask a.asks.items) (drop a.key a.keys.items) (drop a.text a.texts.items) a.whole.items × ((a.ask ≤ length a.asks.items) × (a.key ≤ length a.keys.items) × (a.text ≤ length a.texts.items)) × ((length a.asks.items + a.spare ≤ vec_capacity a.asks) × (length a.keys.items + a.spare ≤ vec_capacity a.keys) × (length a.texts.items + a.spare ≤ vec_capacity a.texts)) };
}

impl Asked {
    /// No command, and no room. Takes no memory.
    pub(crate) fn new(alloc: Global) -> Asked
        ensures { result ≡ asking [] [] 0 0 }
    {
        Asked {
            asks: Vec::new(alloc),
            keys: Vec::new(alloc),
            texts: Vec::new(alloc),
            whole: VecDeque::new(alloc),
            ask: 0,
            key: 0,
            text: 0,
            spare: 0,
        }
    }

    /// No command any more, and room for so many lines.
    ///
    /// `AllocError` where there is none for them: then there is room for no line.
    pub(crate) fn begin(&mut self, most: usize) -> Result<(), AllocError>
        ensures room { OnOk result (self.new ≡ asking [] [] most 0) }
        ensures none { OnErr result (self.new ≡ asking [] [] 0 0) }
    {
        self.clear();
        self.asks.reserve(most)?;
        self.keys.reserve(most)?;
        self.texts.reserve(most)?;
        self.spare = most;
        Ok(())
    }

    /// No command any more, and no room.
    pub(crate) fn clear(&mut self)
        ensures { self.new ≡ asking [] [] 0 0 }
    {
        self.spare = 0;
        self.ask = 0;
        self.key = 0;
        self.text = 0;
        self.asks.clear();
        self.keys.clear();
        self.texts.clear();
        self.whole.clear();
    }

    /// One SET more.
    #[inline(always)]
    pub(crate) fn push_set(&mut self, key: Key, text: Text)
        requires { 1 ≤ self.old.room }
        ensures commands { self.new.commands ≡ self.old.commands ++ Set key text ∷ [] }
        ensures rest { (self.new.room + 1 ≡ self.old.room) × (self.new.others ≡ self.old.others) }
    {
        self.spare -= 1;
        self.keys.push_reserved(key);
        self.texts.push_reserved(text);
        self.asks.push_reserved(Ask::Set);
    }

    /// One $GET without a default more.
    #[inline(always)]
    pub(crate) fn push_get(&mut self, key: Key)
        requires { 1 ≤ self.old.room }
        ensures commands { self.new.commands ≡ self.old.commands ++ get_of key ∷ [] }
        ensures rest { (self.new.room + 1 ≡ self.old.room) × (self.new.others ≡ self.old.others) }
    {
        self.spare -= 1;
        self.keys.push_reserved(key);
        self.asks.push_reserved(Ask::Get);
    }

    /// One command more, which lies there whole.
    ///
    /// `AllocError`, after which nothing has changed.
    #[inline(never)]
    pub(crate) fn push_other(&mut self, command: DataCommand) -> Result<(), AllocError>
        requires { 1 ≤ self.old.room }
        ensures commands { OnOk result (self.new.commands ≡ self.old.commands ++ command ∷ []) }
        ensures rest { OnOk result ((self.new.room + 1 ≡ self.old.room) × (self.new.others ≡ self.old.others + 1)) }
        ensures refused { OnErr result (self.new ≡ self.old) }
    {
        match self.whole.push_back(command) {
            Ok(()) => {
                self.spare -= 1;
                self.asks.push_reserved(Ask::Other);
                Ok(())
            }
            Err(failed) => {
                drop(failed);
                Err(AllocError)
            }
        }
    }

    /// The room for one line is used up by one that asks nothing.
    pub(crate) fn pass_over(&mut self)
        requires { 1 ≤ self.old.room }
        ensures { self.new ≡ asking self.old.tags self.old.commands (self.old.room - 1) self.old.others }
    {
        self.spare -= 1;
    }

    /// How many commands lie there whole.
    pub(crate) fn others(&self) -> usize
        ensures { result ≡ self.now.others }
    {
        self.whole.len()
    }

    /// What the next line asks, where one is left.
    #[inline(always)]
    pub(crate) fn next(&self) -> Option<Ask>
        ensures tag { IfSome result (λ ask. IsTagged ask self.now.tags) }
        ensures command { IfSome result (λ ask. IsAskedBy ask self.now.commands) }
        ensures end { IfNone result (self.now.commands ≡ []) }
    {
        match self.asks.get(self.ask) {
            Some(ask) => Some(*ask),
            None => None,
        }
    }

    /// The key of the next line, a SET or a $GET.
    #[inline(always)]
    pub(crate) fn key(&self) -> &Key
        requires { IsTagged Ask.Set self.now.tags ⊎ IsTagged Ask.Get self.now.tags }
        ensures set { (key : Reference) → (text : List ℕ) → (rest : List DataCommand) → self.now.commands ≡ Set key text ∷ rest → result.now ≡ key }
        ensures get { (key : Reference) → (rest : List DataCommand) → self.now.commands ≡ get_of key ∷ rest → result.now ≡ key }
    {
        &self.keys[self.key]
    }

    /// The value of the next line, a SET, which is taken out of where it lies.
    #[inline(always)]
    pub(crate) fn take_text(&mut self) -> Text
        requires { IsTagged Ask.Set self.old.tags }
        ensures text { (key : Reference) → (text : List ℕ) → (rest : List DataCommand) → self.old.commands ≡ Set key text ∷ rest → (result ≡ text) × (self.new.commands ≡ Set key [] ∷ rest) }
        ensures rest { (self.new.tags ≡ self.old.tags) × ((self.new.room ≡ self.old.room) × (self.new.others ≡ self.old.others)) }
    {
        let alloc = *self.texts.allocator();
        mem::replace(&mut self.texts[self.text], Text::new(alloc))
    }

    /// The next line, a SET, is done.
    #[inline(always)]
    pub(crate) fn pass_set(&mut self)
        requires { IsTagged Ask.Set self.old.tags }
        ensures passed { IsPassed self.old.commands self.new.commands }
        ensures rest { (self.new.room ≡ self.old.room) × (self.new.others ≡ self.old.others) }
    {
        self.ask += 1;
        self.key += 1;
        self.text += 1;
    }

    /// The next line, a $GET, is done.
    #[inline(always)]
    pub(crate) fn pass_get(&mut self)
        requires { IsTagged Ask.Get self.old.tags }
        ensures passed { IsPassed self.old.commands self.new.commands }
        ensures rest { (self.new.room ≡ self.old.room) × (self.new.others ≡ self.old.others) }
    {
        self.ask += 1;
        self.key += 1;
    }

    /// What its memory comes from.
    pub(crate) fn alloc(&self) -> Global {
        *self.texts.allocator()
    }

    /// The keys of the lines left, where each of them is a $GET.
    pub(crate) fn gets(&self) -> Option<&[Key]>
        ensures { IfSome result (λ keys. self.now.commands ≡ map get_of keys.now) }
    {
        let others = self.whole.len();
        if others > 0 {
            return None;
        }
        if self.text < self.texts.len() {
            return None;
        }
        Some(&self.keys[self.key..])
    }

    /// All lines are done.
    pub(crate) fn pass_all(&mut self)
        ensures commands { self.new.commands ≡ [] }
        ensures rest { (self.new.room ≡ self.old.room) × (self.new.others ≡ 0) }
    {
        self.ask = self.asks.len();
        self.key = self.keys.len();
        self.text = self.texts.len();
        self.whole.clear();
    }

    /// The command of the next line, which lies there whole: it is taken out.
    #[inline(never)]
    pub(crate) fn take_other(&mut self) -> DataCommand
        requires { IsTagged Ask.Other self.old.tags }
        ensures taken { self.old.commands ≡ result ∷ self.new.commands }
        ensures rest { (self.new.room ≡ self.old.room) × (self.new.others + 1 ≡ self.old.others) }
    {
        self.ask += 1;
        match self.whole.pop_front() {
            Some(command) => command,
            None => unreachable!(),
        }
    }
}
