//! When the collector goes over the store and checkpoints are taken, and both.
ghost use Rattle.std.specs.Prelude.{◌≡◌, ◌≤◌, ◌==◌, true, false};
ghost use Rattle.script_run.specs.Upkeep.{lines_of, counting, counted, is_awaited, IsTried};

use collation::Text;
use collector::Progress;
use job_core::JobCore;
use key_codec::Key;
use refusal::Refusal;

/// When something is done that gives memory back.
#[derive(Clone, Copy, Debug, PartialEq, Eq)]
pub enum Pace {
    /// Never.
    Never,
    /// After so many printed lines, again and again; never where that is 0.
    Every(u64),
    /// Where it costs little: less than a twentieth of the time that the lines take.
    WhereCheap,
}

impl Pace {
    // After how many printed lines it is due, again and again; 0 is never.
    #[tactic(auto, unfolding(crate::specs::Upkeep::lines_of))]
    fn lines(self) -> u64
        ensures { result ≡ lines_of self }
    {
        match self {
            Pace::Never => 0,
            Pace::Every(lines) => lines,
            Pace::WhereCheap => CHEAP_LINES,
        }
    }
}

/// When the collector drops old versions, and when checkpoints are taken.
#[derive(Clone, Copy, Debug, PartialEq, Eq)]
pub struct Upkeep {
    /// For the collector, which passes over all keys. `WhereCheap` looks at some keys after each 1,024 lines instead,
    /// and at more as long as it drops more than a version for every fourth.
    pub collector: Pace,
    /// For checkpoints, each of which comes after the collector at the same line. `Every` leaves one out where it would
    /// drop fewer units than the journal's base has nodes and held names, since these it moves and copies. `WhereCheap`
    /// has one due after 1,024 lines; it stays due until no transaction is open, it drops eight units for each node and
    /// held name, and what came since the last one outweighs the values that this one copied: a unit sixteen of their
    /// bytes, or eight bytes of journal one.
    pub checkpoints: Pace,
}

impl Upkeep {
    /// Neither the collector nor checkpoints.
    pub fn none() -> Upkeep
        ensures { result ≡ record { collector = Pace.Never; checkpoints = Pace.Never } }
    {
        Upkeep {
            collector: Pace::Never,
            checkpoints: Pace::Never,
        }
    }
}

// After how many printed lines at least something is due that is done where it costs little.
const CHEAP_LINES: u64 = 1024;

// How many bytes of values a checkpoint copies in a fiftieth of the time of a line, or less.
const VALUE_BYTES: u64 = 16;

// How many bytes of the journal take at least twenty times as long to write as a byte of a value to copy.
const JOURNAL_BYTES: u64 = 8;

// After how many lines it is looked again where a checkpoint found no memory: it may have copied much until then.
const LINES_AFTER_WANT: u64 = 16384;

// How many keys the collector looks at in a turn then.
const TURN_KEYS: usize = 32;

// How many turns it makes at most.
const MOST_TURNS: u64 = 2048;

// When something is done, and how many printed lines are left until it is due; 0 is never.
#[derive(Clone, Copy, Drop)]
struct Countdown {
    pace: Pace,
    left: u64,
}

impl Countdown {
    // Before the first line.
    fn new(pace: Pace) -> Countdown
        ensures { result ≡ counting pace }
    {
        Countdown {
            pace,
            left: pace.lines(),
        }
    }

    // Counts a printed line, and answers whether something is due after it.
    fn count_line(&mut self) -> bool
        ensures due { result ≡ (self.old.left == 1) }
        ensures next { self.new ≡ counted self.old }
    {
        match self.left {
            0 => false,
            1 => {
                self.left = self.pace.lines();
                true
            }
            _ => {
                self.left -= 1;
                false
            }
        }
    }

    // Whether something is due that waits until it costs little.
    #[tactic(auto, unfolding(crate::specs::Upkeep::is_awaited_at))]
    fn is_awaited(&self) -> bool
        ensures awaited { result ≡ is_awaited self.now }
        ensures due { result ≡ true → (self.now.left == 1) ≡ true }
    {
        match self.pace {
            Pace::Never => false,
            Pace::Every(_) => false,
            Pace::WhereCheap => self.left == 1,
        }
    }
}

/// When the collector and the next checkpoint are due, and how many bytes of values the last one copied that waited until
/// it cost little.
#[derive(Clone, Copy, Drop)]
pub struct Due {
    collector: Countdown,
    checkpoint: Countdown,
    copied: u64,
}

impl Due {
    /// Before the first line.
    pub fn new(upkeep: Upkeep) -> Due
        ensures { result ≡ record { collector = counting upkeep.collector; checkpoint = counting upkeep.checkpoints; copied = 0 } }
    {
        Due {
            collector: Countdown::new(upkeep.collector),
            checkpoint: Countdown::new(upkeep.checkpoints),
            copied: 0,
        }
    }
}

// Whether a turn has dropped so much that another is worth while.
fn is_worth_more(turn: Result<Progress, Refusal>) -> bool {
    match turn {
        Ok(progress) => progress.dropped > progress.visited / 4,
        Err(_) => false,
    }
}

// Turns over some keys, as long as another is worth while.
fn collect_some(core: &mut JobCore)
    ensures { core.new ≡ core.old }
{
    'turns: for _ in 0..MOST_TURNS {
        if !is_worth_more(core.collect(TURN_KEYS)) {
            return;
        }
    }
}

// The collector, where it is due.
fn collect_when_due(countdown: &mut Countdown, core: &mut JobCore)
    ensures core { core.new ≡ core.old }
    ensures next { countdown.new ≡ counted countdown.old }
{
    if !countdown.count_line() {
        return;
    }
    match countdown.pace {
        Pace::WhereCheap => collect_some(core),
        _ => {
            let _ = core.collect(usize::MAX);
        }
    }
}

// How many bytes these values have, up to 2^64 - 1.
fn value_bytes(nodes: &[(Key, Text)]) -> u64 {
    let mut bytes: u64 = 0;
    for (_, value) in nodes {
        bytes = bytes.saturating_add(value.len() as u64);
    }
    bytes
}

// Whether what came since the last checkpoint outweighs these bytes of values: by its units, or by its bytes.
fn is_worth_copying(core: &JobCore, bytes: u64) -> bool {
    let journal = core.journal();
    let units = journal.len().saturating_sub(core.base().number());
    units.saturating_mul(VALUE_BYTES) >= bytes || journal.size() as u64 / JOURNAL_BYTES >= bytes
}

// A checkpoint that is due, where it costs little beside one that copied so many bytes of values, which are then those
// that it copied. Answers after how many lines it is looked for again.
fn checkpoint_where_cheap(copied: &mut u64, core: &mut JobCore) -> u64
    ensures machine { core.new.machine ≡ core.old.machine }
    ensures tried { IsTried result core.old core.new }
{
    if !core.checkpoint_costs_little() || !is_worth_copying(core, *copied) {
        return 1;
    }
    match core.checkpoint() {
        Ok(_) => {
            *copied = value_bytes(core.base().nodes());
            CHEAP_LINES
        }
        Err(_) => LINES_AFTER_WANT,
    }
}

// A checkpoint, where one is due and drops enough; else it is left out.
fn checkpoint_at_its_line(countdown: &mut Countdown, core: &mut JobCore)
    ensures machine { core.new.machine ≡ core.old.machine }
    ensures only_when_due { (countdown.old.left == 1) ≡ false → core.new ≡ core.old }
    ensures next { countdown.new ≡ counted countdown.old }
{
    if countdown.count_line() && core.checkpoint_pays() {
        let _ = core.checkpoint();
    }
}

// A checkpoint, where one is due. One that waits until it costs little stays due until then.
fn checkpoint_when_due(countdown: &mut Countdown, copied: &mut u64, core: &mut JobCore)
    ensures machine { core.new.machine ≡ core.old.machine }
    ensures only_when_due { (countdown.old.left == 1) ≡ false → core.new ≡ core.old }
    ensures next { is_awaited countdown.old ≡ false → countdown.new ≡ counted countdown.old }
    ensures pace { countdown.new.pace ≡ countdown.old.pace }
    ensures tried { is_awaited countdown.old ≡ true → IsTried countdown.new.left core.old core.new }
{
    if countdown.is_awaited() {
        countdown.left = checkpoint_where_cheap(copied, core);
    } else {
        checkpoint_at_its_line(countdown, core);
    }
}

/// After a printed line: the collector and a checkpoint, where they are due. The machine stays, and where no checkpoint
/// is due the base does. A checkpoint that waits until it costs little stays due until it is taken, or has found no
/// memory. Want of memory is passed over: what would have been dropped is kept until a later one.
pub fn keep_up(due: &mut Due, core: &mut JobCore)
    ensures machine { core.new.machine ≡ core.old.machine }
    ensures only_when_due { (due.old.checkpoint.left == 1) ≡ false → core.new ≡ core.old }
    ensures collector { due.new.collector ≡ counted due.old.collector }
    ensures next { is_awaited due.old.checkpoint ≡ false → due.new.checkpoint ≡ counted due.old.checkpoint }
    ensures pace { due.new.checkpoint.pace ≡ due.old.checkpoint.pace }
    ensures tried { is_awaited due.old.checkpoint ≡ true → IsTried due.new.checkpoint.left core.old core.new }
{
    collect_when_due(&mut due.collector, core);
    checkpoint_when_due(&mut due.checkpoint, &mut due.copied, core);
}
