//! What stands at the front of a text.
ghost use Rattle.std.specs.Prelude.{◌≡◌, ◌<◌, ◌≤◌, ◌-◌, true, false, length, drop, MatchOption};
ghost use Rattle.std.specs.List.{position, position_or_len};
ghost use Rattle.m_text.specs.Reading.{begins_with_byte};
ghost use Rattle.m_text.specs.Literal as literal;
ghost use Rattle.m_text.specs.Place as place;

fn digits_end(text: &[u8]) -> Option<usize>
    ensures { result ≡ position literal.is_no_digit text.now }
{
    text.iter().position(|byte| !byte.is_ascii_digit())
}

fn letters_end(text: &[u8]) -> Option<usize>
    ensures { result ≡ position literal.ends_letters text.now }
{
    text.iter().position(|byte| !byte.is_ascii_alphabetic())
}

/// The digits at the front, and what follows them.
pub fn split_digits(text: &[u8]) -> (&[u8], &[u8])
    ensures digits { result.0.now ≡ literal.front_digits text.now }
    ensures rest { result.1.now ≡ literal.past_digits text.now }
{
    match digits_end(text) {
        Some(n) => text.split_at(n),
        None => text.split_at(text.len()),
    }
}

/// The letters at the front, and what follows them.
pub fn split_letters(text: &[u8]) -> (&[u8], &[u8])
    ensures letters { result.0.now ≡ literal.front_letters text.now }
    ensures rest { result.1.now ≡ literal.past_letters text.now }
{
    match letters_end(text) {
        Some(n) => text.split_at(n),
        None => text.split_at(text.len()),
    }
}

/// What follows the byte, where the text begins with it.
pub fn after(byte: u8, text: &[u8]) -> Option<&[u8]>
    ensures { MatchOption result (begins_with_byte byte text.now ≡ false) (λ rest. (begins_with_byte byte text.now ≡ true) × (rest.now ≡ drop 1 text.now)) }
{
    match text {
        [] => None,
        [first, rest @ ..] => { if *first == byte { Some(rest) } else { None } }
    }
}

/// Whether letters are those of a word, in any case. The word is in capitals.
pub fn is_word(word: &[u8], letters: &[u8]) -> bool
    ensures { result ≡ literal.is_word word.now letters.now }
{
    match word {
        [] => letters.is_empty(),
        [capital, capitals @ ..] => match letters {
            [] => false,
            [letter, rest @ ..] => {
                letter.to_ascii_uppercase() == *capital && is_word(capitals, rest)
            }
        },
    }
}

fn digit_value(digit: u8) -> u16
    ensures value { result ≡ digit - 48 }
    ensures small { result ≤ 255 }
{
    digit.saturating_sub(b'0') as u16
}

/// The number of some digits, where it isn't above a limit.
pub fn number_up_to(limit: u16, digits: &[u8]) -> Option<u16>
    requires { limit ≤ 6000 }
    ensures { MatchOption result (limit < literal.number_from 0 digits.now) (λ n. (n ≡ literal.number_from 0 digits.now) × (n ≤ limit)) }
{
    let mut n: u16 = 0;
    'digits: for digit in digits {
        if n > limit {
            return None;
        }
        n = n * 10 + digit_value(*digit);
    }
    if n > limit {
        return None;
    }
    Some(n)
}

fn word_end(text: &[u8]) -> Option<usize>
    ensures { result ≡ position place.ends_word text.now }
{
    text.iter().position(|byte| {
        !(byte.is_ascii_alphabetic() || byte.is_ascii_digit() || *byte == b'%')
    })
}

// How many letters, digits and `%` stand at the front.
fn run_len(text: &[u8]) -> usize
    ensures value { result ≡ position_or_len place.ends_word text.now }
    ensures within { result ≤ length text.now }
{
    match word_end(text) {
        Some(n) => n,
        None => text.len(),
    }
}

// The same. Letters are counted by themselves first: that is less work, and most words are letters alone.
fn word_len(text: &[u8]) -> usize
    ensures value { result ≡ position_or_len place.ends_word text.now }
    ensures within { result ≤ length text.now }
{
    let (letters, rest) = split_letters(text);
    letters.len() + run_len(rest)
}

/// The name word at the front, and what follows it.
pub fn split_word(text: &[u8]) -> (&[u8], &[u8])
    ensures word { result.0.now ≡ place.front_word text.now }
    ensures rest { result.1.now ≡ place.past_word text.now }
{
    text.split_at(word_len(text))
}
