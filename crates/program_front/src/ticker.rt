//! How far a load or a script is, told line by line.
use crate::Progress;
use loading::LoadLog;
use std::rt::Clock;

// How many lines are done between two looks at the clock.
const LINES_A_LOOK: u64 = 1024;

/// Tells how far something is, where that is to be told.
pub struct Ticker<'a, P> {
    rt: &'a P,
    program: &'a str,
    name: &'a str,
    progress: Option<Progress>,
}

impl<'a, P> Drop for Ticker<'a, P> {
    fn drop(self) {
        let Ticker {
            rt: _,
            program: _,
            name: _,
            progress: _,
        } = self;
    }
}

impl<'a, P: Clock + Eprint> Ticker<'a, P> {
    /// From now on.
    pub fn new(rt: &'a P, program: &'a str, name: &'a str, tells: bool) -> Ticker<'a, P> {
        let progress = if tells { Progress::new(rt) } else { None };
        Ticker {
            rt,
            program,
            name,
            progress,
        }
    }

    /// After this line.
    pub fn tick(&self, number: u64) {
        if let Some(progress) = &self.progress {
            if number % LINES_A_LOOK == 0 {
                progress.tell_lines(self.rt, self.program, self.name, number);
            }
        }
    }

    /// Clears what was told.
    pub fn clear(&self) {
        if let Some(progress) = &self.progress {
            progress.clear(self.rt);
        }
    }
}

impl<'a, P: Clock + Eprint> LoadLog for Ticker<'a, P> {
    fn loaded(&mut self, number: u64) {
        self.tick(number);
    }
}
