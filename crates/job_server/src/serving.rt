//! The workers, the channels, the reports in order.
ghost use Rattle.std.specs.Prelude.{◌≡◌, ◌+◌, ◌^◌, ◌<◌, List, IfOk, IfErr, OnOk, map, take, length};
ghost use Rattle.journal.specs.declared.unit.Unit.{Unit as JournalUnit};
ghost use Rattle.loading.specs.Settings.{Setting};
ghost use Rattle.job_server.specs.Loads.{load_books, BeginsWith, HasRunLoad, IsUnservedBy};
ghost use Rattle.job_scripts.specs.Groups.{shown};
ghost use Rattle.job_server.specs.Served.{AreHanded, AreAnswered, AreServed};

use crate::in_turn::end_of;
use crate::job_run::Calls;
use crate::load::load_listing;
use crate::turns::Turns;
use crate::worker::{Batch, Done, Task, Worker};
use crate::{ServerFault, Unserved};
use crossbeam_channel::{Receiver, Sender, bounded};
use job_scripts::{Report, Script};
use loading::LoadLog;
use pin_board::{Blank, SEATS};
use shared_engine::{
    BoardName, Closed, Gate, Hold, Pass, Shared, histories_end, histories_go_on, steps_are_exact,
};
use std::alloc::Global;
use std::marker::{Brand, PhantomData};
use std::sync::Wait;
use std::thread;
use std::thread::{Scope, Threads};

/// Jobs that were served: their reports, in order of the scripts, and the engine at its end.
#[derive(Drop)]
pub struct Served {
    /// A report for each script, in their order.
    pub reports: Vec<Report>,
    /// The closed engine.
    pub closed: Closed,
}

// What came of the tasks so far, by place, the first fault, and how many jobs are done, with how many lines.
#[derive(Drop)]
struct Gathered<B: BoardName + Batch> {
    slots: Vec<Option<Done<B>>>,
    fault: Option<ServerFault>,
    done: u64,
    lines: u64,
}

// Puts what came of a task in its place, where nothing is yet.
fn fill_at<B: BoardName + Batch>(
    slots: &mut Vec<Option<Done<B>>>,
    done: Done<B>,
) -> Result<(), ServerFault> {
    let place = done.place;
    if place >= slots.len() || slots[place].is_some() {
        return Err(ServerFault::Missing);
    }
    slots[place] = Some(done);
    Ok(())
}

impl<B: BoardName + Batch> Gathered<B> {
    // Takes what came of a task in.
    fn take_in(&mut self, done: Done<B>) -> Result<(), ServerFault> {
        match &done.outcome {
            Ok(ran) => self.lines = self.lines.wrapping_add(ran.report.count() as u64),
            Err(fault) => return Err(*fault),
        }
        fill_at(&mut self.slots, done)
    }

    // Takes what came of a task in, keeps the first fault, and tells how many are done.
    fn note<G: Gate>(&mut self, done: Done<B>, gate: &G) {
        if let Err(fault) = self.take_in(done) {
            if self.fault.is_none() {
                self.fault = Some(fault);
            }
        }
        self.done = self.done.wrapping_add(1);
        gate.job_done(self.done, self.slots.len() as u64, self.lines);
    }
}

// The reports in order, and the passes of all sessions.
#[derive(Drop)]
struct Handed<B: BoardName> {
    reports: Vec<Report>,
    passes: Vec<Pass<B>>,
}

impl<B: BoardName + Batch> Handed<B> {
    // One more, where it is there, of this place, and its sessions began when there were so many units or more.
    fn take(&mut self, place: usize, since: u64, slot: Option<Done<B>>) -> Result<(), ServerFault>
        ensures { OnOk result (∥ AreHanded since (take place B.scripts) self.old.reports.items self.old.passes.items ∥₁ → ∥ AreHanded since (take (place + 1) B.scripts) self.new.reports.items self.new.passes.items ∥₁) }
    {
        let Some(done) = slot else {
            return Err(ServerFault::Missing);
        };
        if done.place != place {
            return Err(ServerFault::Missing);
        }
        if done.since != since {
            return Err(ServerFault::Missing);
        }
        let mut ran = done.outcome?;
        self.reports.push(ran.report)?;
        self.passes.append(&mut ran.passes)?;
        Ok(())
    }
}

// The reports in order, once all are there, and the passes.
fn reports_of<B: BoardName + Batch>(
    alloc: Global,
    since: u64,
    slots: Vec<Option<Done<B>>>,
) -> Result<Handed<B>, ServerFault>
    ensures { IfOk result (λ handed. ∥ AreHanded since (take (length slots.items) B.scripts) handed.reports.items handed.passes.items ∥₁) }
{
    let mut handed = Handed {
        reports: Vec::new(alloc),
        passes: Vec::new(alloc),
    };
    for (place, slot) in slots.into_iter().enumerate() {
        handed.take(place, since, slot)?;
    }
    Ok(handed)
}

// Nothing yet at one place more.
fn wait_for<B: BoardName + Batch>(slots: &mut Vec<Option<Done<B>>>) -> Result<(), ServerFault> {
    slots.push(None)?;
    Ok(())
}

// Nothing yet at so many places.
fn slots_of<B: BoardName + Batch>(
    alloc: Global,
    count: usize,
) -> Result<Vec<Option<Done<B>>>, ServerFault> {
    let mut slots = Vec::new(alloc);
    for _ in 0..count {
        wait_for(&mut slots)?;
    }
    Ok(slots)
}

// Queues each script.
fn queue<'t, B: Batch, R: Wait>(
    rt: &R,
    scripts: Vec<Script<'t>>,
    tasks: &Sender<Task<'t, B>, Global>,
) -> Result<(), ServerFault>
    requires { map shown scripts.items ≡ B.scripts }
{
    for (place, script) in scripts.into_iter().enumerate() {
        let task = Task {
            place,
            script,
            of: PhantomData,
        };
        if tasks.send(rt, task).is_err() {
            return Err(ServerFault::Memory);
        }
    }
    Ok(())
}

// Takes in what comes of each task, until no worker is left.
fn gather<B: BoardName + Batch, R: Wait, G: Gate>(
    rt: &R,
    gathered: &mut Gathered<B>,
    reports: &Receiver<Done<B>, Global>,
    gate: &G,
) {
    'reports: for _ in rt.forever() {
        match reports.recv(rt) {
            Ok(done) => gathered.note(done, gate),
            Err(_) => return,
        }
    }
}

// Starts a worker.
fn start<'s, 't: 's, E, B: BoardName + Batch + Send + Sync, R: Wait + Sync, G: Gate + Sync>(
    scope: &Scope<'s, E>,
    alloc: Global,
    calls: Calls<'s, B, R, G>,
    tasks: Receiver<Task<'t, B>, Global>,
    reports: Sender<Done<B>, Global>,
) -> Result<(), ServerFault> {
    let started = scope.spawn(move || {
        let mut worker = Worker {
            alloc,
            calls,
            turns: Turns::new(),
            hold: Hold::new(alloc),
        };
        worker.work(tasks, reports)
    });
    match started {
        Ok(_) => Ok(()),
        Err(_) => Err(ServerFault::Memory),
    }
}

// Starts the workers, hands the scripts out, and gathers what comes back. So many units are there before.
fn share_out<B: BoardName + Batch + Send + Sync, R: Threads + Wait + Sync, G: Gate + Sync>(
    rt: &R,
    alloc: Global,
    engine: &Shared<B>,
    since: u64,
    scripts: Vec<Script<'_>>,
    workers: usize,
    gate: &G,
) -> Result<Gathered<B>, ServerFault>
    requires { map shown scripts.items ≡ B.scripts }
{
    let count = scripts.len();
    let mut gathered = Gathered {
        slots: slots_of(alloc, count)?,
        fault: None,
        done: 0,
        lines: 0,
    };
    // All memory of the channels is taken here, so that no report is lost for want of it.
    let (task_sender, task_receiver) = bounded(alloc, count)?;
    let (report_sender, report_receiver) = bounded(alloc, count)?;
    thread::scope(
        thread::scope_env(),
        rt,
        move |scope| -> Result<Gathered<B>, ServerFault>
            requires { map shown scripts.items ≡ B.scripts }
        {
            for _ in 0..workers {
                let tasks = task_receiver.clone()?;
                let reports = report_sender.clone()?;
                let calls = Calls {
                    rt,
                    engine,
                    gate,
                    since,
                };
                start(scope, alloc, calls, tasks, reports)?;
            }
            drop(report_sender);
            queue(rt, scripts, &task_sender)?;
            drop(task_sender);
            gather(rt, &mut gathered, &report_receiver, gate);
            Ok(gathered)
        },
    )
}

// A number of units is one.
fn is_counted(count: u64)
    ensures { count < 2 ^ 64 }
{
    let _ = count;
}

// Serves these scripts on an engine in which sessions with these passes were.
fn serve_on<B: BoardName + Batch + Send + Sync, R: Threads + Wait + Sync, G: Gate + Sync>(
    rt: &R,
    alloc: Global,
    engine: Shared<B>,
    loaded: Vec<Pass<B>>,
    scripts: Vec<Script<'_>>,
    workers: usize,
    gate: &G,
) -> Result<Served, ServerFault>
    requires { map shown scripts.items ≡ B.scripts }
    ensures begins { IfOk result (λ served. (ended : List JournalUnit) (settings : List Setting) → loaded.items ≡ load_books ended settings → BeginsWith settings served.closed.core.units) }
    ensures answered { IfOk result (λ served. (ended : List JournalUnit) (settings : List Setting) → loaded.items ≡ load_books ended settings → HasRunLoad settings loaded.items → ∥ AreAnswered settings (map shown scripts.entry.items) served.reports.items served.closed.core.units ∥₁) }
{
    let count = scripts.len();
    let since = end_of(loaded.as_slice())?;
    let gathered = share_out(rt, alloc, &engine, since, scripts, workers, gate)?;
    if let Some(fault) = gathered.fault {
        return Err(fault);
    }
    if gathered.slots.len() != count {
        return Err(ServerFault::Missing);
    }
    let mut handed = reports_of(alloc, since, gathered.slots)?;
    let mut all = loaded;
    all.append(&mut handed.passes)?;
    let passes = all.len() as u64;
    let closed = engine.finish(rt, all);
    // The laws by which what the sessions were told is one run of the exact machine.
    steps_are_exact();
    histories_go_on();
    histories_end();
    is_counted(closed.core.now());
    if closed.sessions != passes {
        return Err(ServerFault::Missing);
    }
    Ok(Served {
        reports: handed.reports,
        closed,
    })
}

// Loads a listing and serves these scripts, on a board that is this one.
#[tactic(auto, using(crate::proofs::Handing::served_of))]
fn load_and_serve<
    B: BoardName + Batch + Send + Sync,
    R: Threads + Wait + Sync,
    L: LoadLog,
    G: Gate + Sync,
>(
    rt: &R,
    alloc: Global,
    blank: Blank,
    listing: &[u8],
    log: &mut L,
    scripts: Vec<Script<'_>>,
    workers: usize,
    gate: &G,
) -> Result<Served, Unserved>
    requires board { (blank.seat.table_id ≡ B.table) × (blank.words.seats ≡ 4096) }
    requires scripts { map shown scripts.items ≡ B.scripts }
    ensures served { IfOk result (λ served. AreServed listing.now (map shown scripts.entry.items) served.reports.items served.closed.core.units) }
    ensures fault { IfErr result (IsUnservedBy listing.now) }
{
    let engine = Shared::<B>::new(alloc, blank);
    let loaded = match load_listing(rt, alloc, &engine, listing, log) {
        Ok(loaded) => loaded,
        Err(fault) => {
            drop(scripts);
            drop(engine);
            return Err(fault);
        }
    };
    match serve_on(rt, alloc, engine, loaded, scripts, workers, gate) {
        Ok(served) => Ok(served),
        Err(fault) => Err(Unserved::Jobs(fault)),
    }
}

/// Loads a listing, where it has a line that sets something, and runs the scripts of jobs at the same time, on so many
/// workers and an engine that is new, and answers a report for each and the closed engine. Jobs are taken in order of
/// the scripts. At the end of its lines a job is halted.
///
/// Each line of the listing is a SET of job 1, as of `loading::load`, and they are the first units of the journal; the
/// log is told of each. An empty listing sets nothing.
///
/// A line of another job than its script's is refused, `BadJob`, or for a fault of its own. With no worker no job is
/// done, and each report is missing.
///
/// Where no two scripts are of one job, there is one run of the exact machine from nothing on, of which the closed
/// journal is the story. In it are each job's steps, in order, and no others: those of the load, by job 1, and then
/// those that the job's report shows, which are each line's command with its reply, a first try of a LOCK that waited,
/// tries of a block, of which none ends its transaction and each begins it anew, and at the end a HALT. No TCOMMIT is
/// replied with a restart.
///
/// After a fault no report is handed out: `Load` where the listing isn't loaded, as of `loading::load`, and no job was
/// begun; `Memory` where memory was refused and no reply could say so, also where a worker couldn't be started or a
/// session begun, or where the end of a block was refused and the transaction that stayed open is overtaken at its
/// TCOMMIT; `AllWait` where the gate finds that all jobs that were begun and aren't over wait for names that others of
/// them hold; `Missing` where a report didn't come, or isn't one reply for each line of its script, where a session's
/// pass didn't come, or a session isn't behind the job's one before and the load, or where the units of a load aren't
/// the journal's first. Once the gate stops jobs, which it may after a job's fault, no line more is done.
pub fn serve<R: Threads + Wait + Sync, L: LoadLog, G: Gate + Sync>(
    rt: &R,
    alloc: Global,
    listing: &[u8],
    log: &mut L,
    scripts: Vec<Script<'_>>,
    workers: usize,
    gate: &G,
) -> Result<Served, Unserved>
    ensures served { IfOk result (λ served. AreServed listing.now (map shown scripts.entry.items) served.reports.items served.closed.core.units) }
    ensures fault { IfErr result (IsUnservedBy listing.now) }
{
    match Blank::new(alloc, SEATS) {
        Ok(blank) => load_and_serve::<Brand, _, _, _>(
            rt, alloc, blank, listing, log, scripts, workers, gate,
        ),
        Err(_) => {
            drop(scripts);
            Err(Unserved::Jobs(ServerFault::Memory))
        }
    }
}
