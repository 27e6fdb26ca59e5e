//! The words of commands.
ghost use Rattle.std.specs.Prelude.{◌≡◌, [], ◌∷◌};
ghost use Rattle.std.specs.List.{find};
ghost use Rattle.m_text.specs.Literal as literal;
ghost use Rattle.script.specs.Words as words;

use command::Extent;
use m_text::is_word;

// What a word names: an act by itself, or a function after a `$`.
#[derive(Clone, Copy, Debug)]
pub(crate) enum Word {
    // A data command.
    Access(DataWord),
    Lock,
    // A command that is its word alone.
    Alone(AloneWord),
}

#[derive(Clone, Copy, Debug)]
pub(crate) enum DataWord {
    Set,
    // KILL, KVALUE, KSUBSCRIPTS.
    Kill(Extent),
    Merge,
    Increment,
    Data,
    Get,
    Order,
    Query,
}

#[derive(Clone, Copy, Debug)]
pub enum AloneWord {
    Start,
    Commit,
    Rollback,
    Restart,
    Halt,
    Level,
    Restarts,
}

// As `is_word`, which looks at letters only where there are as many as the word has.
#[tactic(auto, using(crate::proofs::Words::of_other_length))]
fn is_whole_word(word: &[u8], letters: &[u8]) -> bool
    ensures { result ≡ literal.is_word word.now letters.now }
{
    word.len() == letters.len() && is_word(word, letters)
}

fn is_either(short: &[u8], long: &[u8], letters: &[u8]) -> bool
    ensures { result ≡ words.is_either short.now long.now letters.now }
{
    is_whole_word(short, letters) || is_whole_word(long, letters)
}

fn data_words(word: DataWord) -> (&'static [u8], &'static [u8])
    ensures { (result.0.now, result.1.now) ≡ words.words_of (Word.Access word) }
{
    match word {
        DataWord::Set => (b"S", b"SET"),
        DataWord::Kill(Extent::All) => (b"K", b"KILL"),
        DataWord::Kill(Extent::Value) => (b"KV", b"KVALUE"),
        DataWord::Kill(Extent::Below) => (b"KS", b"KSUBSCRIPTS"),
        DataWord::Merge => (b"M", b"MERGE"),
        DataWord::Increment => (b"I", b"INCREMENT"),
        DataWord::Data => (b"D", b"DATA"),
        DataWord::Get => (b"G", b"GET"),
        DataWord::Order => (b"O", b"ORDER"),
        DataWord::Query => (b"Q", b"QUERY"),
    }
}

fn alone_words(word: AloneWord) -> (&'static [u8], &'static [u8])
    ensures { (result.0.now, result.1.now) ≡ words.words_of (Word.Alone word) }
{
    match word {
        AloneWord::Start => (b"TS", b"TSTART"),
        AloneWord::Commit => (b"TC", b"TCOMMIT"),
        AloneWord::Rollback => (b"TRO", b"TROLLBACK"),
        AloneWord::Restart => (b"TRE", b"TRESTART"),
        AloneWord::Halt => (b"H", b"HALT"),
        AloneWord::Level => (b"TL", b"TLEVEL"),
        AloneWord::Restarts => (b"TR", b"TRESTART"),
    }
}

// Each word, short and long.
fn words_of(word: Word) -> (&'static [u8], &'static [u8])
    ensures { (result.0.now, result.1.now) ≡ words.words_of word }
{
    match word {
        Word::Access(word) => data_words(word),
        Word::Lock => (b"L", b"LOCK"),
        Word::Alone(word) => alone_words(word),
    }
}

// Whether letters are one of the two words, in any case.
fn is_named(word: Word, letters: &[u8]) -> bool
    ensures { result ≡ words.is_named word letters.now }
{
    let (short, long) = words_of(word);
    is_either(short, long, letters)
}

// The word, where letters name it.
#[inline(always)]
fn named(word: Word, letters: &[u8]) -> Option<Word>
    ensures { result ≡ find (λ w. words.is_named w letters.now) (word ∷ []) }
{
    if is_named(word, letters) {
        return Some(word);
    }
    None
}

// The first of a table's words that letters name.
fn named_by(letters: &[u8], table: &[Word]) -> Option<Word>
    ensures { result ≡ find (λ w. words.is_named w letters.now) table.now }
{
    table.iter().copied().find(|word| is_named(*word, letters))
}

// The act on a transaction that letters name: one of those whose second letter is theirs.
fn transaction_act_of(letters: &[u8]) -> Option<Word>
    ensures { result ≡ find (λ w. words.is_named w letters.now) (Word.Alone AloneWord.Start ∷ Word.Alone AloneWord.Commit ∷ Word.Alone AloneWord.Rollback ∷ Word.Alone AloneWord.Restart ∷ []) }
{
    match letters.get(1)?.to_ascii_uppercase() {
        b'S' => named(Word::Alone(AloneWord::Start), letters),
        b'C' => named(Word::Alone(AloneWord::Commit), letters),
        b'R' => named_by(
            letters,
            &[
                Word::Alone(AloneWord::Rollback),
                Word::Alone(AloneWord::Restart),
            ],
        ),
        _ => None,
    }
}

// The act that letters name: one of those that begin as they do.
#[inline(always)]
pub(crate) fn act_of(letters: &[u8]) -> Option<Word>
    ensures { result ≡ words.act_of letters.now }
{
    match letters.first()?.to_ascii_uppercase() {
        b'S' => named(Word::Access(DataWord::Set), letters),
        b'K' => named_by(
            letters,
            &[
                Word::Access(DataWord::Kill(Extent::All)),
                Word::Access(DataWord::Kill(Extent::Value)),
                Word::Access(DataWord::Kill(Extent::Below)),
            ],
        ),
        b'M' => named(Word::Access(DataWord::Merge), letters),
        b'L' => named(Word::Lock, letters),
        b'T' => transaction_act_of(letters),
        b'H' => named(Word::Alone(AloneWord::Halt), letters),
        _ => None,
    }
}

// The function that letters name, after its `$`: one of those that begin as they do.
#[inline(always)]
pub(crate) fn function_of(letters: &[u8]) -> Option<Word>
    ensures { result ≡ words.function_of letters.now }
{
    match letters.first()?.to_ascii_uppercase() {
        b'I' => named(Word::Access(DataWord::Increment), letters),
        b'D' => named(Word::Access(DataWord::Data), letters),
        b'G' => named(Word::Access(DataWord::Get), letters),
        b'O' => named(Word::Access(DataWord::Order), letters),
        b'Q' => named(Word::Access(DataWord::Query), letters),
        b'T' => named_by(
            letters,
            &[
                Word::Alone(AloneWord::Level),
                Word::Alone(AloneWord::Restarts),
            ],
        ),
        _ => None,
    }
}
