//! Whether sessions were over when others began, by how many units there were.
ghost use Rattle.std.specs.Prelude.{◌≡◌, ◌≤◌, true, length, IfOk};
ghost use Rattle.job_server.specs.Steps.{AreBefore};

use crate::ServerFault;
use shared_engine::{BoardName, Pass};

// Whether a session ended when the journal had no more than so many units.
fn ends_by<B: BoardName>(pass: &Pass<B>, count: u64) -> bool
    ensures { result ≡ true → length pass.now.seen ≤ count }
{
    pass.end() <= count
}

/// Whether all these sessions did.
pub(crate) fn are_before<B: BoardName>(passes: &[Pass<B>], count: u64) -> bool
    ensures { result ≡ true → AreBefore count passes.now }
{
    'passes: for pass in passes {
        if !ends_by(pass, count) {
            return false;
        }
    }
    true
}

/// How many units there were when a load's sessions were over.
pub(crate) fn end_of<B: BoardName>(loaded: &[Pass<B>]) -> Result<u64, ServerFault>
    ensures { IfOk result (λ since. AreBefore since loaded.now) }
{
    let since = match loaded.last() {
        Some(pass) => pass.end(),
        None => 0,
    };
    if !are_before(loaded, since) {
        return Err(ServerFault::Missing);
    }
    Ok(since)
}
