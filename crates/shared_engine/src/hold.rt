//! Lines that are done under one hold of the lock, each lent from where it lies, and what each was told.
ghost use Rattle.std.specs.Prelude.{◌≡◌, ◌≤◌, ◌-◌, ◌∷◌, ◌++◌, [], None, Some, length, OnOk, OnErr};
ghost use Rattle.command.specs.declared.access.DataCommand.TheVariants.{Set};
ghost use Rattle.shared_engine.specs.Holds.{lines_held, get_of};

use crate::asked::Asked;
use crate::told::{Served, Tolds};
use collation::Text;
use command::DataCommand;
use key_codec::Key;
use refusal::Refusal;
use std::alloc::{AllocError, Global};
use std::marker::Model;

/// Lines for one hold of the lock: of each whether it is refused, the commands of the others, and what these were told
/// once they are done. Key, value and command lie side by side, and so do the values and answers. Contracts see the
/// lines as the one, the commands that aren't done, and the replies; and how many lines more there is room for.
#[derive(Drop)]
pub struct Hold {
    pub(crate) places: Vec<Option<Refusal>>,
    pub(crate) asked: Asked,
    pub(crate) told: Tolds,
}

impl Model for Hold {
    ghost use Rattle.std.specs.Prelude.{◌≤◌, ◌+◌, length, vec_capacity};
    ghost use Rattle.shared_engine.specs.Holds.{Lines, lines_held};
    ghost use Rattle.shared_engine.specs.Codes.{lines_code};

    ghost Value = { Lines };

    ghost coded = { lines_code };

    ghost view = { λ h. lines_held h.places.items h.asked.commands h.told.served h.asked.room };

    ghost invariant = { λ h. (length h.places.items + h.asked.room ≤ vec_capacity h.places) × ((length h.asked.commands + h.asked.room ≤ h.told.room) × (h.asked.others ≤ h.told.answers)) };
}

impl Hold {
    /// No line, and no room. Takes no memory.
    pub fn new(alloc: Global) -> Hold
        ensures { result ≡ lines_held [] [] [] 0 }
    {
        Hold {
            places: Vec::new(alloc),
            asked: Asked::new(alloc),
            told: Tolds::new(alloc),
        }
    }

    /// How many lines there are.
    pub fn len(&self) -> usize
        ensures { result ≡ length self.now.places }
    {
        self.places.len()
    }

    /// No line any more, and room for so many. What lay there is used again.
    ///
    /// `AllocError` where there is no room for them: then there is none for any line.
    pub fn begin(&mut self, alloc: Global, most: usize) -> Result<(), AllocError>
        ensures room { OnOk result (self.new ≡ lines_held [] [] [] most) }
        ensures none { OnErr result (self.new ≡ lines_held [] [] [] 0) }
    {
        self.asked.clear();
        self.places.clear();
        self.told.begin(alloc, most)?;
        self.places.reserve(most)?;
        self.asked.begin(most)
    }

    /// One line more, a SET.
    #[inline(always)]
    pub fn push_set(&mut self, key: Key, text: Text)
        requires { 1 ≤ self.old.room }
        ensures { self.new ≡ lines_held (self.old.places ++ None ∷ []) (self.old.commands ++ Set key text ∷ []) self.old.served (self.old.room - 1) }
    {
        self.places.push_reserved(None);
        self.asked.push_set(key, text);
    }

    /// One line more, a $GET without a default.
    #[inline(always)]
    pub fn push_get(&mut self, key: Key)
        requires { 1 ≤ self.old.room }
        ensures { self.new ≡ lines_held (self.old.places ++ None ∷ []) (self.old.commands ++ get_of key ∷ []) self.old.served (self.old.room - 1) }
    {
        self.places.push_reserved(None);
        self.asked.push_get(key);
    }

    /// One line more, of any data command.
    ///
    /// `AllocError`, after which nothing has changed.
    #[inline(never)]
    pub fn push_other(&mut self, command: DataCommand) -> Result<(), AllocError>
        requires { 1 ≤ self.old.room }
        ensures pushed { OnOk result (self.new ≡ lines_held (self.old.places ++ None ∷ []) (self.old.commands ++ command ∷ []) self.old.served (self.old.room - 1)) }
        ensures refused { OnErr result (self.new ≡ self.old) }
    {
        match self.told.reserve_answer(self.asked.others()) {
            Ok(()) => match self.asked.push_other(command) {
                Ok(()) => {
                    self.places.push_reserved(None);
                    Ok(())
                }
                Err(_) => Err(AllocError),
            },
            Err(_) => {
                drop(command);
                Err(AllocError)
            }
        }
    }

    /// One line more, which is refused.
    pub fn push_refused(&mut self, refusal: Refusal)
        requires { 1 ≤ self.old.room }
        ensures { self.new ≡ lines_held (self.old.places ++ Some refusal ∷ []) self.old.commands self.old.served (self.old.room - 1) }
    {
        self.places.push_reserved(Some(refusal));
        self.asked.pass_over();
    }

    /// Of each line its refusal, where it is refused.
    pub fn places(&self) -> &[Option<Refusal>]
        ensures { result.now ≡ self.now.places }
    {
        self.places.as_slice()
    }

    /// What the lines that aren't refused were told, lent in order.
    pub fn served(&self) -> Served<'_>
        ensures { result ≡ self.now.served }
    {
        self.told.served()
    }
}
