//! How many jobs wait for names, and whether jobs are stopped.
ghost use Rattle.std.specs.Prelude.{◌≡◌, ◌≢◌, ◌⊎◌, ◌+◌, ◌-◌, ◌^◌, min, true, false, Some, is_some, IfSome, IfNone};
ghost use Rattle.shared_engine.specs.declared.gate.Stop.{Stop};

use shared_engine::{Mark, Stop};

/// How many jobs were begun, are over, and wait in a LOCK without a timeout; and why they are stopped, if they are.
///
/// A name is held by a job that was begun and isn't over, and only such a job frees one. Where all of these wait, and
/// each has tried in vain since the last of these counts changed, nothing has changed between those tries: none of them
/// frees a name, and none ever has those that it waits for.
#[derive(Drop)]
pub(crate) struct Waiting {
    begun: u64,
    done: u64,
    waiting: u64,
    // How often one of these changed, and how many of those that wait have tried in vain since the last time.
    changes: u64,
    tried: u64,
    stop: Option<Stop>,
}

impl Waiting {
    pub(crate) fn new() -> Waiting {
        Waiting {
            begun: 0,
            done: 0,
            waiting: 0,
            changes: 0,
            tried: 0,
            stop: None,
        }
    }

    fn note_change(&mut self) {
        self.changes = self.changes.wrapping_add(1);
        self.tried = 0;
    }

    /// A job is begun.
    pub(crate) fn note_begun(&mut self) {
        self.begun = self.begun.wrapping_add(1);
        self.note_change();
    }

    /// So many jobs are over.
    pub(crate) fn note_done(&mut self, done: u64) {
        self.done = done;
        self.note_change();
    }

    /// A job begins to wait.
    pub(crate) fn begin(&mut self) -> Mark {
        self.waiting = self.waiting.wrapping_add(1);
        self.note_change();
        self.unmarked()
    }

    /// A job that waited goes on.
    pub(crate) fn end(&mut self) {
        self.waiting = self.waiting.wrapping_sub(1);
        self.note_change();
    }

    fn unmarked(&self) -> Mark
        ensures { (result.changes ≡ self.now.changes) × (result.is_counted ≡ false) }
    {
        Mark {
            changes: self.changes,
            is_counted: false,
        }
    }

    // Whether each job that was begun and isn't over waits, and has tried in vain since the last change.
    fn is_stuck(&self) -> bool
        ensures stuck { result ≡ true → (self.now.tried ≡ self.now.waiting) × (self.now.waiting + self.now.done ≡ self.now.begun) }
        ensures not { result ≡ false → (self.now.tried ≢ self.now.waiting) ⊎ (self.now.waiting + self.now.done ≢ self.now.begun) }
    {
        let begun = self.begun;
        if self.tried != self.waiting {
            return false;
        }
        match self.waiting.checked_add(self.done) {
            Some(jobs) => jobs == begun,
            None => false,
        }
    }

    /// A job that waits has tried once more, in vain. Its try counts if it began after the last change, and only once.
    /// Where now all jobs wait, and each has tried so, they are stopped.
    pub(crate) fn note_tried(&mut self, mark: Mark) -> Mark
        ensures late { mark.changes ≢ self.old.changes → self.new ≡ self.old }
        ensures again { mark.changes ≡ self.old.changes → mark.is_counted ≡ true → self.new.tried ≡ self.old.tried }
        ensures first { mark.changes ≡ self.old.changes → mark.is_counted ≡ false → self.new.tried ≡ min (self.old.tried + 1) (2 ^ 64 - 1) }
        ensures stopped { mark.changes ≡ self.old.changes → self.new.tried ≡ self.old.waiting → self.old.waiting + self.old.done ≡ self.old.begun → is_some self.new.stop ≡ true }
        ensures kept { ((self.new.tried ≢ self.old.waiting) ⊎ (self.old.waiting + self.old.done ≢ self.old.begun)) → self.new.stop ≡ self.old.stop }
        ensures counted { (result.changes ≡ self.old.changes) × (mark.changes ≡ self.old.changes → result.is_counted ≡ true) }
    {
        if mark.changes != self.changes {
            return self.unmarked();
        }
        if !mark.is_counted {
            self.tried = self.tried.saturating_add(1);
        }
        if self.is_stuck() {
            self.note_stop(Stop::AllWait);
        }
        Mark {
            changes: self.changes,
            is_counted: true,
        }
    }

    /// Jobs are stopped, if they weren't before.
    pub(crate) fn note_stop(&mut self, stop: Stop)
        ensures stopped { is_some self.new.stop ≡ true }
        ensures first { IfNone self.old.stop (self.new.stop ≡ Some stop) }
        ensures before { IfSome self.old.stop (λ why. self.new.stop ≡ Some why) }
        ensures counts { (self.new.tried ≡ self.old.tried) × (self.new.changes ≡ self.old.changes) }
    {
        if self.stop.is_none() {
            self.stop = Some(stop);
        }
    }

    /// Why jobs are stopped, if they are.
    pub(crate) fn stop(&self) -> Option<Stop>
        ensures { result ≡ self.now.stop }
    {
        self.stop
    }
}
