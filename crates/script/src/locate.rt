//! Where a refused line is at fault: a second look at it, for refused lines alone.
ghost use Rattle.std.specs.Prelude.{◌≡◌, ◌≢◌, ◌≤◌, ◌+◌, length, IfSome};

use crate::Expected;
use crate::blank::{begins_blank, past_blank};
use crate::sentence::{direction_of, is_global};
use crate::word::{DataWord, Word, act_of, function_of};
use canonic_number::is_canonic;
use key_codec::KeyDraft;
use m_text::{
    after, read_literal, read_named, read_reference, skip_literal, skip_place, split_digits,
    split_letters, split_word,
};
use refusal::Refusal;
use std::alloc::Global;

/// The most digits of a timeout, before its point and behind it.
const MOST_TIMEOUT_DIGITS: usize = 9;

/// Where a refused line is at fault.
#[derive(Clone, Copy, Debug, PartialEq, Eq)]
pub struct LocatedFault {
    /// The place of a byte, counted from 1, or one more than there are bytes.
    pub column: usize,
    /// What should stand there.
    pub expected: Expected,
}

// What is left of a line that is read once more, and what was expected where the reading stopped. Once it has stopped
// it goes no further.
#[derive(Drop)]
struct Look<'a> {
    rest: &'a [u8],
    stopped: Option<Expected>,
}

fn past_digits(text: &[u8], most: usize) -> Option<&[u8]>
    ensures { IfSome result (λ rest. length rest.now ≤ length text.now) }
{
    let (digits, rest) = split_digits(text);
    if digits.is_empty() || digits.len() > most {
        None
    } else {
        Some(rest)
    }
}

fn past_word(text: &[u8]) -> Option<&[u8]>
    ensures { IfSome result (λ rest. length rest.now ≤ length text.now) }
{
    let (word, rest) = split_word(text);
    if word.is_empty() { None } else { Some(rest) }
}

fn past_some_blank(text: &[u8]) -> Option<&[u8]>
    ensures { IfSome result (λ rest. length rest.now ≤ length text.now) }
{
    if begins_blank(text) {
        Some(past_blank(text))
    } else {
        None
    }
}

#[tactic(auto, using(crate::proofs::Behind::shorter))]
fn past_literal(text: &[u8]) -> Option<&[u8]>
    ensures { IfSome result (λ rest. length rest.now ≤ length text.now) }
{
    match skip_literal(text) {
        Ok(rest) => Some(rest),
        Err(_) => None,
    }
}

#[tactic(auto, using(crate::proofs::Behind::shorter))]
fn past_place(text: &[u8]) -> Option<&[u8]>
    ensures { IfSome result (λ rest. length rest.now ≤ length text.now) }
{
    match skip_place(text) {
        Ok(rest) => Some(rest),
        Err(_) => None,
    }
}

// Where memory is wanting no direction is seen.
#[tactic(auto, using(crate::proofs::Behind::shorter))]
fn past_direction(alloc: Global, text: &[u8]) -> Option<&[u8]>
    ensures { IfSome result (λ rest. length rest.now ≤ length text.now) }
{
    match read_literal(alloc, text) {
        Ok((value, rest)) => {
            let is_direction = direction_of(value.as_slice()).is_some();
            drop(value);
            if is_direction { Some(rest) } else { None }
        }
        Err(_) => None,
    }
}

// Where memory is wanting no number is seen.
#[tactic(auto, using(crate::proofs::Behind::shorter))]
fn past_number(alloc: Global, text: &[u8]) -> Option<&[u8]>
    ensures { IfSome result (λ rest. length rest.now ≤ length text.now) }
{
    match read_literal(alloc, text) {
        Ok((value, rest)) => {
            let is_number = is_canonic(value.as_slice());
            drop(value);
            if is_number { Some(rest) } else { None }
        }
        Err(_) => None,
    }
}

fn past_global(text: &[u8]) -> Option<&[u8]>
    ensures { IfSome result (λ rest. length rest.now ≤ length text.now) }
{
    let (letters, rest) = split_letters(text);
    if is_global(letters) { Some(rest) } else { None }
}

impl<'a> Look<'a> {
    fn stop(&mut self, expected: Expected)
        ensures { self.new.rest ≡ self.old.rest }
    {
        if self.stopped.is_none() {
            self.stopped = Some(expected);
        }
    }

    // Goes on to what follows, or stops here.
    fn go(&mut self, next: Option<&'a [u8]>, expected: Expected)
        requires { IfSome next (λ rest. length rest.now ≤ length self.old.rest.now) }
        ensures { length self.new.rest.now ≤ length self.old.rest.now }
    {
        if self.stopped.is_some() {
            return;
        }
        match next {
            Some(rest) => self.rest = rest,
            None => self.stopped = Some(expected),
        }
    }

    // Passes the byte, and answers whether it stood there.
    fn has(&mut self, byte: u8) -> bool
        ensures { length self.new.rest.now ≤ length self.old.rest.now }
    {
        if self.stopped.is_some() {
            return false;
        }
        match after(byte, self.rest) {
            Some(rest) => {
                self.rest = rest;
                true
            }
            None => false,
        }
    }

    fn byte(&mut self, byte: u8, expected: Expected)
        ensures { length self.new.rest.now ≤ length self.old.rest.now }
    {
        if !self.has(byte) {
            self.stop(expected);
        }
    }

    fn blank(&mut self)
        ensures { length self.new.rest.now ≤ length self.old.rest.now }
    {
        self.go(past_some_blank(self.rest), Expected::Blank);
    }

    fn literal(&mut self, expected: Expected)
        ensures { length self.new.rest.now ≤ length self.old.rest.now }
    {
        self.go(past_literal(self.rest), expected);
    }

    fn subscripts(&mut self)
        ensures { length self.new.rest.now ≤ length self.old.rest.now }
    {
        self.literal(Expected::Subscript);
        'subscripts: for _ in 0..self.rest.len() {
            if !self.has(b',') {
                return;
            }
            self.literal(Expected::Subscript);
        }
    }

    // A name word, and subscripts in parentheses.
    fn named(&mut self, expected: Expected)
        ensures { length self.new.rest.now ≤ length self.old.rest.now }
    {
        self.go(past_word(self.rest), expected);
        if self.has(b'(') {
            self.subscripts();
            self.byte(b')', Expected::CommaOrClosing);
        }
    }

    fn place(&mut self)
        ensures { length self.new.rest.now ≤ length self.old.rest.now }
    {
        self.byte(b'^', Expected::Reference);
        self.named(Expected::Name);
    }

    fn lock_name(&mut self)
        ensures { length self.new.rest.now ≤ length self.old.rest.now }
    {
        let _ = self.has(b'^');
        self.named(Expected::LockName);
    }

    fn lock_names(&mut self)
        ensures { length self.new.rest.now ≤ length self.old.rest.now }
    {
        self.lock_name();
        'names: for _ in 0..self.rest.len() {
            if !self.has(b',') {
                return;
            }
            self.lock_name();
        }
    }

    // What stands after LOCK's word.
    fn lock(&mut self)
        ensures { length self.new.rest.now ≤ length self.old.rest.now }
    {
        if past_blank(self.rest).is_empty() {
            return;
        }
        self.blank();
        if !self.has(b'+') {
            let _ = self.has(b'-');
        }
        if self.has(b'(') {
            self.lock_names();
            self.byte(b')', Expected::CommaOrClosing);
        } else {
            self.lock_name();
        }
        if self.has(b':') {
            self.seconds();
        }
    }

    // What stands after the colon of a timeout.
    fn seconds(&mut self)
        ensures { length self.new.rest.now ≤ length self.old.rest.now }
    {
        if !self.has(b'.') {
            self.digits();
            if !self.has(b'.') {
                return;
            }
        }
        self.digits();
    }

    // One to nine digits of a timeout.
    fn digits(&mut self)
        ensures { length self.new.rest.now ≤ length self.old.rest.now }
    {
        self.go(
            past_digits(self.rest, MOST_TIMEOUT_DIGITS),
            Expected::Timeout,
        );
    }

    // What a word wants after its reference.
    fn tail(&mut self, alloc: Global, word: DataWord)
        ensures { length self.new.rest.now ≤ length self.old.rest.now }
    {
        match word {
            DataWord::Set => {
                self.byte(b'=', Expected::Equals);
                self.literal(Expected::Value);
            }
            DataWord::Merge => {
                self.byte(b'=', Expected::Equals);
                self.place();
            }
            DataWord::Get => self.default_value(),
            DataWord::Order => self.direction(alloc),
            DataWord::Query => self.direction(alloc),
            DataWord::Increment => self.step(alloc),
            DataWord::Kill(_) => {}
            DataWord::Data => {}
        }
    }

    fn default_value(&mut self)
        ensures { length self.new.rest.now ≤ length self.old.rest.now }
    {
        if self.has(b',') {
            self.literal(Expected::Value);
            self.byte(b')', Expected::Closing);
        } else {
            self.byte(b')', Expected::CommaOrClosing);
        }
    }

    // What $INCREMENT has after its reference.
    fn step(&mut self, alloc: Global)
        ensures { length self.new.rest.now ≤ length self.old.rest.now }
    {
        if self.has(b',') {
            self.go(past_number(alloc, self.rest), Expected::Number);
            self.byte(b')', Expected::Closing);
        } else {
            self.byte(b')', Expected::CommaOrClosing);
        }
    }

    // What stands in the parentheses of $ORDER behind `^$`.
    fn names(&mut self, alloc: Global)
        ensures { length self.new.rest.now ≤ length self.old.rest.now }
    {
        self.go(past_global(self.rest), Expected::Global);
        self.byte(b'(', Expected::Opening);
        self.literal(Expected::Value);
        self.byte(b')', Expected::Closing);
        self.direction(alloc);
    }

    // Passes `^$`, and answers whether it stood there.
    fn has_structured(&mut self) -> bool
        ensures { length self.new.rest.now ≤ length self.old.rest.now }
    {
        match self.rest {
            [b'^', b'$', ..] => {
                let _ = self.has(b'^');
                self.has(b'$')
            }
            _ => false,
        }
    }

    fn direction(&mut self, alloc: Global)
        ensures { length self.new.rest.now ≤ length self.old.rest.now }
    {
        if self.has(b',') {
            self.go(past_direction(alloc, self.rest), Expected::Direction);
            self.byte(b')', Expected::Closing);
        } else {
            self.byte(b')', Expected::CommaOrClosing);
        }
    }

    fn behind_act(&mut self, alloc: Global, word: Word)
        ensures { length self.new.rest.now ≤ length self.old.rest.now }
    {
        match word {
            Word::Access(word) => {
                self.go(past_some_blank(self.rest), Expected::Operand);
                self.place();
                self.tail(alloc, word);
            }
            Word::Lock => self.lock(),
            Word::Alone(_) => {}
        }
    }

    fn behind_function(&mut self, alloc: Global, word: Word)
        ensures { length self.new.rest.now ≤ length self.old.rest.now }
    {
        match word {
            Word::Access(DataWord::Data) => {
                self.byte(b'(', Expected::Opening);
                self.place();
                self.byte(b')', Expected::Closing);
            }
            Word::Access(DataWord::Order) => {
                self.byte(b'(', Expected::Opening);
                if self.has_structured() {
                    self.names(alloc);
                } else {
                    self.place();
                    self.tail(alloc, DataWord::Order);
                }
            }
            Word::Access(word) => {
                self.byte(b'(', Expected::Opening);
                self.place();
                self.tail(alloc, word);
            }
            Word::Lock => {}
            Word::Alone(_) => {}
        }
    }

    fn command(&mut self, alloc: Global)
        ensures { length self.new.rest.now ≤ length self.old.rest.now }
    {
        if self.has(b'$') {
            let (letters, rest) = split_letters(self.rest);
            match function_of(letters) {
                Some(word) => {
                    self.go(Some(rest), Expected::Function);
                    self.behind_function(alloc, word);
                }
                None => self.stop(Expected::Function),
            }
        } else {
            let (letters, rest) = split_letters(self.rest);
            match act_of(letters) {
                Some(word) => {
                    self.go(Some(rest), Expected::Command);
                    self.behind_act(alloc, word);
                }
                None => self.stop(Expected::Command),
            }
        }
    }

    fn end(&mut self)
        ensures { length self.new.rest.now ≤ length self.old.rest.now }
    {
        self.go(Some(past_blank(self.rest)), Expected::End);
        if !self.rest.is_empty() {
            self.stop(Expected::End);
        }
    }

    fn line(&mut self, alloc: Global)
        ensures { length self.new.rest.now ≤ length self.old.rest.now }
    {
        self.go(past_digits(self.rest, usize::MAX), Expected::Job);
        self.blank();
        self.command(alloc);
        self.end();
    }
}

// Where a line that isn't of the grammar stops to be of it: what is left there, and what was expected.
fn stop_of(alloc: Global, line: &[u8]) -> (&[u8], Expected)
    ensures { length result.0.now ≤ length line.now }
{
    let mut look = Look {
        rest: line,
        stopped: None,
    };
    look.line(alloc);
    (look.rest, look.stopped.unwrap_or(Expected::End))
}

// The command of a line of the grammar.
fn command_in(line: &[u8]) -> &[u8]
    ensures { length result.now ≤ length line.now }
{
    let (_, rest) = split_digits(line);
    past_blank(rest)
}

// What stands after the word of a line's command.
fn operands_in(line: &[u8]) -> &[u8]
    ensures { length result.now ≤ length line.now }
{
    let command = command_in(line);
    let word = after(b'$', command).unwrap_or(command);
    let (_, rest) = split_letters(word);
    after(b'(', rest).unwrap_or(past_blank(rest))
}

// What stands after the first operand and the byte after that.
fn second_operand(operands: &[u8]) -> &[u8]
    ensures { length result.now ≤ length operands.now }
{
    match past_place(operands) {
        Some([_, rest @ ..]) => rest,
        _ => operands,
    }
}

// The first operand where that is at fault, and else the second.
fn faulty_operand(alloc: Global, operands: &[u8]) -> &[u8]
    ensures { length result.now ≤ length operands.now }
{
    let mut draft = KeyDraft::new(alloc);
    match read_reference(alloc, operands, &mut draft) {
        Ok(read) => {
            drop(read);
            second_operand(operands)
        }
        Err(_) => operands,
    }
}

// Whether this begins with LOCK's word.
fn is_lock(command: &[u8]) -> bool {
    let (letters, _) = split_letters(command);
    matches!(act_of(letters), Some(Word::Lock))
}

fn past_caret(text: &[u8]) -> &[u8]
    ensures { length result.now ≤ length text.now }
{
    after(b'^', text).unwrap_or(text)
}

// What follows a lock name, whatever faults it has.
fn past_name(text: &[u8]) -> Option<&[u8]>
    ensures { IfSome result (λ rest. length rest.now ≤ length text.now) }
{
    let mut look = Look {
        rest: text,
        stopped: None,
    };
    look.lock_name();
    if look.stopped.is_none() {
        Some(look.rest)
    } else {
        None
    }
}

// Whether the name word and the subscripts in front are as they should be.
fn is_named(alloc: Global, text: &[u8], draft: &mut KeyDraft) -> bool {
    match read_named(alloc, text, draft) {
        Ok(_) => draft.key(alloc).is_ok(),
        Err(_) => false,
    }
}

// What follows a lock name that is as it should be.
fn past_lock_name<'a>(alloc: Global, text: &'a [u8], draft: &mut KeyDraft) -> Option<&'a [u8]>
    ensures { IfSome result (λ rest. length rest.now ≤ length text.now) }
{
    if is_named(alloc, past_caret(text), draft) {
        past_name(text)
    } else {
        None
    }
}

// The first lock name that isn't as it should be, of those that stand after LOCK's word.
fn faulty_lock_name(alloc: Global, operands: &[u8]) -> &[u8]
    ensures { length result.now ≤ length operands.now }
{
    let names = after(b'+', operands).unwrap_or(operands);
    let names = after(b'-', names).unwrap_or(names);
    let mut name = after(b'(', names).unwrap_or(names);
    let mut draft = KeyDraft::new(alloc);
    'names: for _ in 0..operands.len() {
        match past_lock_name(alloc, name, &mut draft) {
            Some([b',', rest @ ..]) => name = rest,
            _ => return name,
        }
    }
    name
}

// The operand at fault: a lock name, or a reference.
fn faulty_of(alloc: Global, line: &[u8]) -> &[u8]
    ensures { length result.now ≤ length line.now }
{
    let operands = operands_in(line);
    if is_lock(command_in(line)) {
        faulty_lock_name(alloc, operands)
    } else {
        faulty_operand(alloc, operands)
    }
}

// What is left of a line of the grammar where the operand begins that a refusal speaks of, or its command.
fn fault_in(alloc: Global, line: &[u8], refusal: Refusal) -> &[u8]
    ensures within { length result.now ≤ length line.now }
    ensures job { refusal ≡ Refusal.BadJob → result.now ≡ line.now }
{
    match refusal {
        Refusal::BadJob => line,
        Refusal::NeedSubscript => operands_in(line),
        Refusal::MergeOverlap => operands_in(line),
        Refusal::ValueTooLong => second_operand(operands_in(line)),
        Refusal::BadName => faulty_of(alloc, line),
        Refusal::EmptySubscript => faulty_of(alloc, line),
        Refusal::SubscriptTooLong => faulty_of(alloc, line),
        Refusal::TooManySubscripts => faulty_of(alloc, line),
        _ => command_in(line),
    }
}

fn column_of(line: &[u8], rest: &[u8]) -> usize
    requires { length rest.now ≤ length line.now }
    ensures { result + length rest.now ≡ length line.now + 1 }
{
    line.len() - rest.len() + 1
}

/// Where a line is at fault that was refused so, and what was expected there.
///
/// A line that isn't of the grammar is at fault where it stops to be of it; a literal that is none, where it begins.
/// Another is at fault at its job, at the operand that the refusal speaks of (of LOCK, the name), or at its command, where the refusal isn't one of form. Takes memory for a short while; where that is wanting another operand
/// may be named. Columns are bytes, counted from 1.
pub fn locate_fault(alloc: Global, line: &[u8], refusal: Refusal) -> LocatedFault
    ensures low { 1 ≤ result.column }
    ensures high { result.column ≤ length line.now + 1 }
    ensures job { refusal ≡ Refusal.BadJob → result.column ≡ 1 }
    ensures rule { refusal ≢ Refusal.BadLine → result.expected ≡ Expected.Rule refusal }
{
    if refusal == Refusal::BadLine {
        let (rest, expected) = stop_of(alloc, line);
        return LocatedFault {
            column: column_of(line, rest),
            expected,
        };
    }
    let rest = fault_in(alloc, line, refusal);
    LocatedFault {
        column: column_of(line, rest),
        expected: Expected::Rule(refusal),
    }
}
