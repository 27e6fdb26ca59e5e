//! The laws that each step of a session is one of the exact machine, and that all sessions together are one run of it.
ghost use Rattle.shared_engine.specs.Steps.{StepsAreExact, HaltsAreExact};
ghost use Rattle.shared_engine.specs.Histories.{HistoriesBegin, HistoriesBeginAgain, HistoriesKnow, HistoriesGoOn, HistoriesGoOnByBlocks, HistoriesEnd, SessionsAreOneRun};

/// What a call of a session tells is one step of the machine, at its place of each journal that goes on from what the
/// session has seen then: with the machine's reply, its unit, and the transaction that it leaves.
pub fn steps_are_exact()
    ensures { StepsAreExact }
{}

/// And so is the end of a session.
pub fn halts_are_exact()
    ensures { HaltsAreExact }
{}

/// A job's history begins with its first session, and goes on with the next.
pub fn histories_begin()
    ensures first { HistoriesBegin }
    ensures again { HistoriesBeginAgain }
{}

/// It goes on with each call that does something, a block command by command, and stays where more was seen.
pub fn histories_go_on()
    ensures know { HistoriesKnow }
    ensures step { HistoriesGoOn }
    ensures block { HistoriesGoOnByBlocks }
{}

/// And ends with the session's end.
pub fn histories_end()
    ensures { HistoriesEnd }
{}

/// Where the books of all jobs have all units of the journal, what all jobs were told is one run of the exact machine,
/// each job's steps in order, of which the journal is the story.
pub fn sessions_are_one_run()
    ensures { SessionsAreOneRun }
{}
