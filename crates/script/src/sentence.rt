//! Commands as they are spelled, whatever faults their references and values have.
ghost use Rattle.std.specs.Prelude.{◌≡◌, false, IfOk};
ghost use Rattle.std.specs.Option.{option_copied};
ghost use Rattle.command.specs.declared.access.DataCommand.TheVariants.{Look as looked_at};
ghost use Rattle.command.specs.declared.access.Look.TheVariants.{Name as name_beyond};
ghost use Rattle.collation.specs.Reference.{Reference};
ghost use Rattle.key_codec.specs.declared.draft.KeyDraft.{KeyDraft as KeyDraftView};
ghost use Rattle.m_text.specs.Drafts.{DraftsSpelled};
ghost use Rattle.m_text.specs.Literal.{literal_at};
ghost use Rattle.m_text.specs.Reading.{GivesUnlessMemory, GivesExactly, after_byte as after_of};
ghost use Rattle.script.specs.Commands as commands;
ghost use Rattle.script.specs.Commands.{AreBehindAct, AreBehindFunction, ActComesToOperands, FunctionComesToOperands, ComesToOperands};
ghost use Rattle.script.specs.Sentence.{Finds, FindsData, FindsNames, HasNoNames, HasNoValue, ReadsOperandsAt, Says, Tells, has_value, leaves_names, leaves_value, value_in};

use crate::blank::{past_blank, skip_blank};
use crate::lock::{Form, read_locking};
use crate::names::Names;
use crate::word::{AloneWord, DataWord, Word, act_of, function_of};
use canonic_number::is_canonic;
use collation::{Direction, Text};
use command::Extent;
use key_codec::KeyDraft;
use m_text::{after, is_word, read_draft, read_literal, split_letters};
use refusal::Refusal;
use std::alloc::{AllocError, Global};

/// The references, the lock names and the value of a line while it is read, in buffers that serve for the next line too.
#[derive(Debug, Drop)]
pub struct Drafts {
    pub(crate) first: KeyDraft,
    pub(crate) second: KeyDraft,
    pub(crate) names: Names,
    pub(crate) value: Text,
}

impl Drafts {
    /// Empty buffers. Takes no memory.
    pub fn new(alloc: Global) -> Drafts
        ensures value { HasNoValue result }
        ensures names { HasNoNames result }
    {
        Drafts {
            first: KeyDraft::new(alloc),
            second: KeyDraft::new(alloc),
            names: Names::new(alloc),
            value: Text::new(alloc),
        }
    }

    /// The value of a SET, where it lies.
    pub fn value_mut(&mut self) -> &mut Text
        ensures { result.now ≡ value_in self.old }
    {
        &mut self.value
    }

    /// Keeps no value any more. Takes no memory.
    pub fn drop_value(&mut self, alloc: Global)
        ensures value { HasNoValue self.new }
        ensures names { self.new.names ≡ self.old.names }
    {
        self.value = Text::new(alloc);
    }
}

/// A data command without what stands in the drafts: its reference in the first, that of MERGE's source in the second, and
/// beside them SET's value, $INCREMENT's number, or the default of a $GET that has one.
#[derive(Clone, Copy, Debug)]
pub enum DataSentence {
    Set,
    Kill(Extent),
    Merge,
    Increment,
    Data,
    Get,
    GetOr,
    Order(Direction),
    Query(Direction),
    /// $ORDER of names from a name, which is the value.
    NameFrom(Direction),
    /// $ORDER of names from an end.
    EndName(Direction),
}

/// A command without its references, lock names and value, which stand in the drafts.
#[derive(Clone, Copy, Debug)]
pub enum Sentence {
    Access(DataSentence),
    // LOCK without names.
    Release,
    // LOCK with names.
    Lock(Form),
    Alone(AloneWord),
}

// What follows the byte.
fn past(byte: u8, text: &[u8]) -> Result<&[u8], Refusal>
    ensures { GivesExactly (λ rest. rest.now) result (after_of byte text.now) }
{
    match after(byte, text) {
        Some(rest) => Ok(rest),
        None => Err(Refusal::BadLine),
    }
}

// A literal, whose bytes are the value that is kept.
fn read_text<'a>(alloc: Global, text: &'a [u8], value: &mut Text) -> Result<&'a [u8], Refusal>
    ensures { GivesUnlessMemory (λ rest. (value.new, rest.now)) result (literal_at text.now) }
{
    let (literal, rest) = read_literal(alloc, text)?;
    *value = literal;
    Ok(rest)
}

#[tactic(auto, unfolding(crate::specs::Commands::set_value_at))]
fn read_value<'a>(alloc: Global, text: &'a [u8], value: &mut Text) -> Result<&'a [u8], Refusal>
    ensures { GivesUnlessMemory (λ rest. (value.new, rest.now)) result (commands.set_value_at text.now) }
{
    let rest = past(b'=', text)?;
    read_text(alloc, rest, value)
}

#[tactic(auto, unfolding(crate::specs::Commands::source_at))]
fn read_source<'a>(alloc: Global, text: &'a [u8], draft: &mut KeyDraft) -> Result<&'a [u8], Refusal>
    ensures { DraftsSpelled draft.new result (commands.source_at text.now) }
{
    let rest = past(b'=', text)?;
    read_draft(alloc, rest, draft)
}

// What a $GET has after its reference: a default, which is the value that is kept, or none.
#[tactic(auto, unfolding(crate::specs::Commands::default_at))]
fn read_default<'a>(
    alloc: Global,
    text: &'a [u8],
    value: &mut Text,
) -> Result<(DataSentence, &'a [u8]), Refusal>
    ensures reading { (second : KeyDraftView) (r : Reference) → Tells second value.new r result (commands.tail_at DataWord.Get r text.now) }
    ensures value { IfOk result (λ x. has_value x.0 ≡ false → value.new ≡ value.old) }
{
    match after(b',', text) {
        Some(literal) => match read_text(alloc, literal, value) {
            Ok(rest) => Ok((DataSentence::GetOr, rest)),
            Err(refusal) => Err(refusal),
        },
        None => Ok((DataSentence::Get, text)),
    }
}

pub(crate) fn direction_of(text: &[u8]) -> Option<Direction>
    ensures { result ≡ commands.direction_of text.now }
{
    if text == b"1".as_slice() {
        Some(Direction::Forward)
    } else if text == b"-1".as_slice() {
        Some(Direction::Backward)
    } else {
        None
    }
}

#[tactic(auto, unfolding(crate::specs::Commands::direction_at))]
fn read_direction(alloc: Global, text: &[u8]) -> Result<(Direction, &[u8]), Refusal>
    ensures { GivesUnlessMemory (λ x. (x.0, x.1.now)) result (commands.direction_at text.now) }
{
    match after(b',', text) {
        Some(literal) => {
            let (value, rest) = read_literal(alloc, literal)?;
            match direction_of(value.as_slice()) {
                Some(direction) => Ok((direction, rest)),
                None => Err(Refusal::BadLine),
            }
        }
        None => Ok((Direction::Forward, text)),
    }
}

// What $INCREMENT has after its reference: a number, which is the value that is kept, or none, which is 1.
#[tactic(auto, unfolding(crate::specs::Commands::step_at))]
fn read_step<'a>(alloc: Global, text: &'a [u8], value: &mut Text) -> Result<&'a [u8], Refusal>
    ensures { GivesUnlessMemory (λ rest. (value.new, rest.now)) result (commands.step_at text.now) }
{
    match after(b',', text) {
        Some(literal) => {
            let rest = read_text(alloc, literal, value)?;
            if is_canonic(value.as_slice()) {
                Ok(rest)
            } else {
                Err(Refusal::BadLine)
            }
        }
        None => {
            *value = Text::from_slice(alloc, b"1")?;
            Ok(text)
        }
    }
}

// Whether letters are those of `^$GLOBAL`, in any case.
pub(crate) fn is_global(letters: &[u8]) -> bool
    ensures { result ≡ commands.is_global letters.now }
{
    is_word(b"G", letters) || is_word(b"GLOBAL", letters)
}

// The argument of `^$GLOBAL` in parentheses, behind `^$`.
#[tactic(auto, unfolding(crate::specs::Commands::argument_at))]
fn read_argument(alloc: Global, text: &[u8]) -> Result<(Text, &[u8]), Refusal>
    ensures { GivesUnlessMemory (λ x. (x.0, x.1.now)) result (commands.argument_at text.now) }
{
    let (letters, rest) = split_letters(text);
    if !is_global(letters) {
        return Err(Refusal::BadLine);
    }
    let rest = past(b'(', rest)?;
    let (argument, rest) = read_literal(alloc, rest)?;
    match after(b')', rest) {
        Some(rest) => Ok((argument, rest)),
        None => {
            drop(argument);
            Err(Refusal::BadLine)
        }
    }
}

// What follows the caret of a string, and without one nothing.
fn named_by(argument: &[u8]) -> &[u8]
    ensures { result.now ≡ commands.named_by argument.now }
{
    match after(b'^', argument) {
        Some(name) => name,
        None => &[],
    }
}

// The sentence of a $ORDER of names from the start that the argument is, which becomes the value that is kept.
fn start_by(
    alloc: Global,
    argument: &[u8],
    direction: Direction,
    value: &mut Text,
) -> Result<DataSentence, AllocError>
    ensures says { IfOk result (λ sentence. (second : KeyDraftView) (r : Reference) → Says second value.new r sentence (looked_at (name_beyond (commands.start_of argument.now) direction))) }
    ensures value { IfOk result (λ sentence. has_value sentence ≡ false → value.new ≡ value.old) }
{
    if argument.is_empty() {
        return Ok(DataSentence::EndName(direction));
    }
    *value = Text::from_slice(alloc, named_by(argument))?;
    Ok(DataSentence::NameFrom(direction))
}

// $ORDER's operands behind `^$`: the names of globals from a start, in a direction.
#[tactic(auto, unfolding(crate::specs::Commands::names_at))]
fn read_names<'a>(
    alloc: Global,
    text: &'a [u8],
    value: &mut Text,
) -> Result<(DataSentence, &'a [u8]), Refusal>
    ensures reading { FindsNames value.new result (commands.names_at text.now) }
    ensures value { IfOk result (λ x. has_value x.0 ≡ false → value.new ≡ value.old) }
{
    let (argument, rest) = read_argument(alloc, text)?;
    match read_direction(alloc, rest) {
        Ok((direction, rest)) => {
            let sentence = start_by(alloc, argument.as_slice(), direction, value)?;
            Ok((sentence, rest))
        }
        Err(refusal) => {
            drop(argument);
            Err(refusal)
        }
    }
}

// Names, which $ORDER wants behind `^$`. The first draft is of no name then.
fn read_structured<'a>(
    alloc: Global,
    text: &'a [u8],
    drafts: &mut Drafts,
) -> Result<(DataSentence, &'a [u8]), Refusal>
    ensures reading { FindsData drafts.new result (commands.names_at text.now) }
    ensures value { IfOk result (λ x. has_value x.0 ≡ false → drafts.new.value ≡ drafts.old.value) }
    ensures names { drafts.new.names ≡ drafts.old.names }
{
    drafts.first.begin(&[])?;
    read_names(alloc, text, &mut drafts.value)
}

// What follows `^$`, where $ORDER's operands begin so.
fn past_structured(word: DataWord, text: &[u8]) -> Option<&[u8]>
    ensures { option_copied result ≡ commands.structured_at word text.now }
{
    match word {
        DataWord::Order => after(b'$', after(b'^', text)?),
        DataWord::Set
        | DataWord::Kill(_)
        | DataWord::Merge
        | DataWord::Increment
        | DataWord::Data
        | DataWord::Get
        | DataWord::Query => None,
    }
}

// What a word wants after its reference.
#[inline(always)]
fn read_tail<'a>(
    alloc: Global,
    word: DataWord,
    text: &'a [u8],
    source: &mut KeyDraft,
    value: &mut Text,
) -> Result<(DataSentence, &'a [u8]), Refusal>
    ensures reading { (r : Reference) → Tells source.new value.new r result (commands.tail_at word r text.now) }
    ensures value { IfOk result (λ x. has_value x.0 ≡ false → value.new ≡ value.old) }
{
    match word {
        DataWord::Set => match read_value(alloc, text, value) {
            Ok(rest) => Ok((DataSentence::Set, rest)),
            Err(refusal) => Err(refusal),
        },
        DataWord::Kill(extent) => Ok((DataSentence::Kill(extent), text)),
        DataWord::Merge => match read_source(alloc, text, source) {
            Ok(rest) => Ok((DataSentence::Merge, rest)),
            Err(refusal) => Err(refusal),
        },
        DataWord::Increment => match read_step(alloc, text, value) {
            Ok(rest) => Ok((DataSentence::Increment, rest)),
            Err(refusal) => Err(refusal),
        },
        DataWord::Data => Ok((DataSentence::Data, text)),
        DataWord::Get => read_default(alloc, text, value),
        DataWord::Order => match read_direction(alloc, text) {
            Ok((direction, rest)) => Ok((DataSentence::Order(direction), rest)),
            Err(refusal) => Err(refusal),
        },
        DataWord::Query => match read_direction(alloc, text) {
            Ok((direction, rest)) => Ok((DataSentence::Query(direction), rest)),
            Err(refusal) => Err(refusal),
        },
    }
}

// A reference and what a word wants after it, or what it wants behind `^$`.
#[inline(always)]
fn read_operands<'a>(
    alloc: Global,
    word: DataWord,
    text: &'a [u8],
    drafts: &mut Drafts,
) -> Result<(DataSentence, &'a [u8]), Refusal>
    ensures reading { FindsData drafts.new result (commands.operands_at word text.now) }
    ensures value { IfOk result (λ x. has_value x.0 ≡ false → drafts.new.value ≡ drafts.old.value) }
    ensures names { drafts.new.names ≡ drafts.old.names }
{
    match past_structured(word, text) {
        Some(rest) => read_structured(alloc, rest, drafts),
        None => read_placed(alloc, word, text, drafts),
    }
}

// A reference, and what a word wants after it.
#[inline(always)]
fn read_placed<'a>(
    alloc: Global,
    word: DataWord,
    text: &'a [u8],
    drafts: &mut Drafts,
) -> Result<(DataSentence, &'a [u8]), Refusal>
    ensures reading { FindsData drafts.new result (commands.placed_at word text.now) }
    ensures value { IfOk result (λ x. has_value x.0 ≡ false → drafts.new.value ≡ drafts.old.value) }
    ensures names { drafts.new.names ≡ drafts.old.names }
{
    match read_draft(alloc, text, &mut drafts.first) {
        Ok(rest) => read_tail(alloc, word, rest, &mut drafts.second, &mut drafts.value),
        Err(refusal) => Err(refusal),
    }
}

// What stands after LOCK's word: nothing but a blank, or a blank and names.
#[tactic(auto, using(crate::proofs::Operands::only_there), unfolding(crate::specs::Commands::lock_at))]
fn read_lock<'a>(
    alloc: Global,
    text: &'a [u8],
    drafts: &mut Drafts,
) -> Result<(Sentence, &'a [u8]), Refusal>
    ensures reading { Finds drafts.new result (commands.lock_at text.now) }
    ensures operands { ReadsOperandsAt (AreBehindAct Word.Lock text.now) result }
    ensures value { IfOk result (λ x. leaves_value x.0 ≡ false → drafts.new.value ≡ drafts.old.value) }
    ensures names { IfOk result (λ x. leaves_names x.0 ≡ false → drafts.new.names ≡ drafts.old.names) }
{
    if past_blank(text).is_empty() {
        return Ok((Sentence::Release, text));
    }
    let rest = skip_blank(text)?;
    match read_locking(alloc, rest, &mut drafts.first, &mut drafts.names) {
        Ok((form, rest)) => Ok((Sentence::Lock(form), rest)),
        Err(refusal) => Err(refusal),
    }
}

// What stands after the word of a data command that is an act.
#[tactic(auto, using(crate::proofs::Operands::only_there))]
fn read_change<'a>(
    alloc: Global,
    word: DataWord,
    text: &'a [u8],
    drafts: &mut Drafts,
) -> Result<(Sentence, &'a [u8]), Refusal>
    ensures reading { Finds drafts.new result (commands.behind_act (Word.Access word) text.now) }
    ensures operands { ReadsOperandsAt (AreBehindAct (Word.Access word) text.now) result }
    ensures value { IfOk result (λ x. leaves_value x.0 ≡ false → drafts.new.value ≡ drafts.old.value) }
    ensures names { IfOk result (λ x. leaves_names x.0 ≡ false → drafts.new.names ≡ drafts.old.names) }
{
    let rest = skip_blank(text)?;
    match read_operands(alloc, word, rest, drafts) {
        Ok((sentence, rest)) => Ok((Sentence::Access(sentence), rest)),
        Err(refusal) => Err(refusal),
    }
}

// What stands after the word of a data command that is a function.
#[tactic(auto, using(crate::proofs::Operands::only_there))]
fn read_look<'a>(
    alloc: Global,
    word: DataWord,
    text: &'a [u8],
    drafts: &mut Drafts,
) -> Result<(Sentence, &'a [u8]), Refusal>
    ensures reading { Finds drafts.new result (commands.behind_function (Word.Access word) text.now) }
    ensures operands { ReadsOperandsAt (AreBehindFunction (Word.Access word) text.now) result }
    ensures value { IfOk result (λ x. leaves_value x.0 ≡ false → drafts.new.value ≡ drafts.old.value) }
    ensures names { IfOk result (λ x. leaves_names x.0 ≡ false → drafts.new.names ≡ drafts.old.names) }
{
    let rest = past(b'(', text)?;
    let (sentence, rest) = read_operands(alloc, word, rest, drafts)?;
    let rest = past(b')', rest)?;
    Ok((Sentence::Access(sentence), rest))
}

#[tactic(auto, unfolding(crate::specs::Commands::acts_at, crate::specs::Commands::ActComesToOperands))]
fn read_acts<'a>(
    alloc: Global,
    text: &'a [u8],
    drafts: &mut Drafts,
) -> Result<(Sentence, &'a [u8]), Refusal>
    ensures reading { Finds drafts.new result (commands.acts_at text.now) }
    ensures operands { ReadsOperandsAt (ActComesToOperands text.now) result }
    ensures value { IfOk result (λ x. leaves_value x.0 ≡ false → drafts.new.value ≡ drafts.old.value) }
    ensures names { IfOk result (λ x. leaves_names x.0 ≡ false → drafts.new.names ≡ drafts.old.names) }
{
    let (letters, rest) = split_letters(text);
    match act_of(letters) {
        Some(Word::Access(word)) => read_change(alloc, word, rest, drafts),
        Some(Word::Lock) => read_lock(alloc, rest, drafts),
        Some(Word::Alone(word)) => Ok((Sentence::Alone(word), rest)),
        None => Err(Refusal::BadLine),
    }
}

#[tactic(auto, unfolding(crate::specs::Commands::functions_at, crate::specs::Commands::FunctionComesToOperands))]
fn read_functions<'a>(
    alloc: Global,
    text: &'a [u8],
    drafts: &mut Drafts,
) -> Result<(Sentence, &'a [u8]), Refusal>
    ensures reading { Finds drafts.new result (commands.functions_at text.now) }
    ensures operands { ReadsOperandsAt (FunctionComesToOperands text.now) result }
    ensures value { IfOk result (λ x. leaves_value x.0 ≡ false → drafts.new.value ≡ drafts.old.value) }
    ensures names { IfOk result (λ x. leaves_names x.0 ≡ false → drafts.new.names ≡ drafts.old.names) }
{
    let (letters, rest) = split_letters(text);
    match function_of(letters) {
        Some(Word::Access(word)) => read_look(alloc, word, rest, drafts),
        Some(Word::Lock) => Err(Refusal::BadLine),
        Some(Word::Alone(word)) => Ok((Sentence::Alone(word), rest)),
        None => Err(Refusal::BadLine),
    }
}

// The sentence of the command at the front of a text, and what follows it.
#[tactic(auto, unfolding(crate::specs::Commands::command_at, crate::specs::Commands::ComesToOperands))]
pub(crate) fn read_sentence<'a>(
    alloc: Global,
    text: &'a [u8],
    drafts: &mut Drafts,
) -> Result<(Sentence, &'a [u8]), Refusal>
    ensures reading { Finds drafts.new result (commands.command_at text.now) }
    ensures operands { ReadsOperandsAt (ComesToOperands text.now) result }
    ensures value { IfOk result (λ x. leaves_value x.0 ≡ false → drafts.new.value ≡ drafts.old.value) }
    ensures names { IfOk result (λ x. leaves_names x.0 ≡ false → drafts.new.names ≡ drafts.old.names) }
{
    match after(b'$', text) {
        Some(function) => read_functions(alloc, function, drafts),
        None => read_acts(alloc, text, drafts),
    }
}
