//! The settings of a text, one after the other.
ghost use Rattle.std.specs.Prelude.{◌≡◌, ◌≢◌, ◌<◌, ◌≤◌, ◌+◌, ◌^◌, ℕ, List, [], ◌∷◌, Result, Ok, length, IfOk, IfErr, OnErr, IfSome, IfNone, OnOk};
ghost use Rattle.command.specs.declared.request.Command.TheVariants.{Access};
ghost use Rattle.command.specs.declared.access.DataCommand.{DataCommand as DataCommandView};
ghost use Rattle.command.specs.declared.access.DataCommand.TheVariants.{Set};
ghost use Rattle.loading.specs.Lines.{all_lines};
ghost use Rattle.loading.specs.Settings.{Setting, TextFault, set_line, setting_at, with_line, asked_from, before, settings_of};
ghost use Rattle.loading.specs.Pending.{asked_of};
ghost use Rattle.loading.specs.Loaded.{counted, IsFirstLine, IsStepRead, IsFaultOf};
ghost use Rattle.script.specs.declared.expected.Expected.{Expected as ExpectedView};

use crate::lines::{are_headers, line_end, strip_return};
use crate::{FaultyLine, LoadFault};
use collation::{Job, Text};
use command::{Command, DataCommand};
use key_codec::Key;
use refusal::Refusal;
use script::{Drafts, locate_fault, read_line};
use std::alloc::{AllocError, Global};
use std::marker::Model;

// What stands before a line where it is read as one of a script.
const FRONT: &[u8] = b"1 SET ";

// The references and the value of the line that is read, and the line as one of a script, in buffers that serve for
// the next line too.
#[derive(Drop)]
struct Page {
    drafts: Drafts,
    line: Vec<u8>,
}

impl Page {
    fn new(alloc: Global) -> Page {
        Page {
            drafts: Drafts::new(alloc),
            line: Vec::new(alloc),
        }
    }

    fn write(&mut self, line: &[u8]) -> Result<(), AllocError>
        ensures { OnOk result (self.new.line.items ≡ set_line line.now) }
    {
        self.line.clear();
        self.line.extend_from_slice(FRONT)?;
        self.line.extend_from_slice(line)
    }

    // The step that the line asks for. Its text as a script's line is left behind, unless memory was refused.
    fn read(&mut self, alloc: Global, line: &[u8]) -> Result<(Job, Command), Refusal>
        ensures read { IsStepRead line.now result }
        ensures text { IfErr result (λ refusal. refusal ≢ Refusal.OutOfMemory → self.new.line.items ≡ set_line line.now) }
    {
        self.write(line)?;
        match read_line(alloc, &self.line, &mut self.drafts) {
            Ok(step) => Ok(step),
            Err(fault) => Err(fault.refusal),
        }
    }
}

// The first line of a text, and what follows it.
fn split_line(text: &[u8]) -> (&[u8], &[u8])
    ensures first { IsFirstLine text.now result.0.now result.1.now }
    ensures shorter { 0 < length text.now → length result.1.now < length text.now }
    ensures most { length result.1.now ≤ length text.now }
{
    match line_end(text) {
        Some(end) => {
            let (line, _) = text.split_at(end);
            (strip_return(line), &text[end + 1..])
        }
        None => (text, &text[text.len()..]),
    }
}

// The number of the first line that is no header, and the text from there on.
fn past_headers(text: &[u8]) -> (u64, &[u8])
    ensures asked { settings_of text.now ≡ asked_from result.0 (all_lines result.1.now) }
    ensures small { result.0 + length result.1.now < 2 ^ 64 }
{
    let (first, rest) = split_line(text);
    let (second, more) = split_line(rest);
    if are_headers(first, second) {
        (3, more)
    } else {
        (1, text)
    }
}

// The first line that isn't empty, from the line of this number on, its own number, and what follows it. Where there is
// none, an empty one.
fn next_line(first: u64, text: &[u8]) -> (u64, &[u8], &[u8])
    requires { first + length text.now < 2 ^ 64 }
    ensures asked { asked_from first (all_lines text.now) ≡ with_line result.0 result.1.now (asked_from (result.0 + 1) (all_lines result.2.now)) }
    ensures end { length result.1.now ≡ 0 → asked_from first (all_lines text.now) ≡ Ok [] }
    ensures shorter { 0 < length result.1.now → length result.2.now < length text.now }
    ensures small { 0 < length result.1.now → result.0 + length result.2.now + 1 < 2 ^ 64 }
{
    let mut number = first;
    let mut rest = text;
    'lines: while !rest.is_empty() {
        let (line, more) = split_line(rest);
        if !line.is_empty() {
            return (number, line, more);
        }
        number += 1;
        rest = more;
    }
    (number, rest, rest)
}

// Where the line is at fault that was refused as one of a script.
fn faulty_line(alloc: Global, number: u64, text: &[u8], refusal: Refusal) -> FaultyLine
    requires { 6 ≤ length text.now }
    ensures number { result.number ≡ number }
    ensures refusal { result.refusal ≡ refusal }
    ensures low { 1 ≤ result.column }
    ensures high { result.column + 6 ≤ length text.now + 1 }
    ensures rule { refusal ≢ Refusal.BadLine → result.expected ≡ ExpectedView.Rule refusal }
{
    let found = locate_fault(alloc, text, refusal);
    let column = if found.column > FRONT.len() {
        found.column - FRONT.len()
    } else {
        1
    };
    FaultyLine {
        number,
        column,
        refusal,
        expected: found.expected,
    }
}

// What a SET sets.
fn set_by(command: DataCommand) -> (Key, Text)
    requires { (s : Setting) × (command ≡ Set s.0 s.1) }
    ensures { command ≡ Set result.0 result.1 }
{
    match command {
        DataCommand::Set(key, value) => (key, value),
        DataCommand::Kill(..)
        | DataCommand::Merge(..)
        | DataCommand::Increment(..)
        | DataCommand::Look(_) => unreachable!(),
    }
}

// The same of a command that is a SET.
fn asked_by(command: Command) -> (Key, Text)
    requires { (s : Setting) × (command ≡ Access (Set s.0 s.1)) }
    ensures { command ≡ Access (Set result.0 result.1) }
{
    match command {
        Command::Access(command) => set_by(command),
        Command::Lock(_)
        | Command::Start
        | Command::Commit
        | Command::Rollback
        | Command::Restart
        | Command::Level
        | Command::Restarts
        | Command::Halt => unreachable!(),
    }
}

// What a line sets that isn't empty.
fn read_setting(
    alloc: Global,
    page: &mut Page,
    number: u64,
    line: &[u8],
) -> Result<(Key, Text), LoadFault>
    requires { 0 < length line.now }
    ensures setting { IfOk result (λ setting. (n : ℕ) (rest : Result (List Setting) TextFault) → with_line n line.now rest ≡ before (setting ∷ []) rest) }
    ensures fault { IfErr result (λ fault. (n : ℕ) (rest : Result (List Setting) TextFault) → counted n ≡ number → IsFaultOf (with_line n line.now rest) fault) }
{
    match page.read(alloc, line) {
        Ok((_, command)) => Ok(asked_by(command)),
        Err(Refusal::OutOfMemory) => Err(LoadFault::Memory),
        Err(refusal) => Err(LoadFault::Line(faulty_line(alloc, number, &page.line, refusal))),
    }
}

/// The settings that a text asks for, read one after the other.
///
/// Contracts see the text that is left, and the number of its first line: `asked_of` in `specs/Pending.antt` says what
/// it asks for.
#[derive(Drop)]
pub struct SettingReader<'a> {
    alloc: Global,
    page: Page,
    number: u64,
    rest: &'a [u8],
}

impl<'a> Model for SettingReader<'a> {
    ghost use Rattle.std.specs.Prelude.{◌<◌, ◌+◌, ◌^◌, length};
    ghost use Rattle.loading.specs.Pending.{Pending, pending, pending_code};

    ghost Value = { Pending };

    ghost coded = { pending_code };

    ghost view = { λ s. pending s.number s.rest.now };

    ghost invariant = { λ s. s.number + length s.rest.now < 2 ^ 64 };
}

impl<'a> SettingReader<'a> {
    /// Before the first line of a text that is no header.
    pub fn new(alloc: Global, text: &'a [u8]) -> SettingReader<'a>
        ensures { settings_of text.now ≡ asked_of result }
    {
        let (number, rest) = past_headers(text);
        SettingReader {
            alloc,
            page: Page::new(alloc),
            number,
            rest,
        }
    }

    /// The next setting: a reference, and its value. None behind the last, however often it is asked for.
    ///
    /// Faults, after which the reader is where it was: as of `load`, where the next line that isn't empty sets nothing.
    /// So after `Memory` the same line may be asked for once more.
    pub fn next(&mut self) -> Result<Option<(Key, Text)>, LoadFault>
        ensures setting { IfOk result (λ next. IfSome next (λ setting. asked_of self.old ≡ before (setting ∷ []) (asked_of self.new))) }
        ensures shorter { IfOk result (λ next. IfSome next (λ setting. length self.new.text < length self.old.text)) }
        ensures end { IfOk result (λ next. IfNone next (asked_of self.old ≡ Ok [])) }
        ensures stays { IfOk result (λ next. IfNone next (self.new ≡ self.old)) }
        ensures fault { IfErr result (IsFaultOf (asked_of self.old)) }
        ensures kept { OnErr result (self.new ≡ self.old) }
    {
        let (number, line, rest) = next_line(self.number, self.rest);
        if line.is_empty() {
            return Ok(None);
        }
        match read_setting(self.alloc, &mut self.page, number, line) {
            Ok(setting) => {
                self.number = number + 1;
                self.rest = rest;
                Ok(Some(setting))
            }
            Err(fault) => Err(fault),
        }
    }

    /// How many lines were read, headers and empty ones too.
    pub fn lines_read(&self) -> u64 {
        self.number.saturating_sub(1)
    }
}
