//! LOCK: each try is a call.
ghost use Rattle.std.specs.Prelude.{◌≡◌, true, false, Ok, Err, IfOk, IfErr, OnErr};
ghost use Rattle.shared_engine.specs.Blocks.{WasTried};
ghost use Rattle.shared_engine.specs.Engines.{OnOkThat, OnOkNot};

use crate::hub::Busy;
use crate::inside::Inside;
use crate::session::HubSession;
use lock_name::LockCommand;
use pin_board::Board;
use refusal::Refusal;
use shared_engine::InnerSession;
use std::alloc::Global;
use std::sync::Arc;

// As `Locked::lock`.
fn tried(
    board: &Board,
    inside: &mut Arc<Inside, Global>,
    session: &mut InnerSession,
    command: &LockCommand,
) -> Result<Result<bool, Refusal>, Busy>
    requires own { (inside.old.value.desk.table ≡ board.now.table) × (session.old.table ≡ board.now.table) }
    ensures own { inside.new.value.desk.table ≡ inside.old.value.desk.table }
    ensures table { session.new.table ≡ session.old.table }
    ensures tried { IfOk result (λ done. IfOk done (λ had. WasTried command.now (Ok had) session.old.held session.new.held)) }
    ensures refused { IfOk result (λ done. IfErr done (λ refusal. WasTried command.now (Err refusal) session.old.held session.new.held)) }
    ensures busy { OnErr result (session.new ≡ session.old) }
{
    let Some(alone) = Arc::get_mut(inside) else {
        return Err(Busy);
    };
    let Some(mut desk) = alone.desk.try_lift() else {
        return Err(Busy);
    };
    let done = alone.locked.lock(board, &mut desk, session, command);
    alone.desk.set_down(desk);
    Ok(done)
}

// As `Locked::lock_again`.
fn tried_again(
    board: &Board,
    inside: &mut Arc<Inside, Global>,
    session: &mut InnerSession,
    command: &LockCommand,
) -> Result<Result<bool, Refusal>, Busy>
    requires own { (inside.old.value.desk.table ≡ board.now.table) × (session.old.table ≡ board.now.table) }
    ensures own { inside.new.value.desk.table ≡ inside.old.value.desk.table }
    ensures table { session.new.table ≡ session.old.table }
    ensures had { IfOk result (λ done. OnOkThat done (WasTried command.now (Ok true) session.old.held session.new.held)) }
    ensures blocked { IfOk result (λ done. OnOkNot done (session.new.held ≡ session.old.held)) }
    ensures refused { IfOk result (λ done. IfErr done (λ refusal. WasTried command.now (Err refusal) session.old.held session.new.held)) }
    ensures busy { OnErr result (session.new ≡ session.old) }
{
    let Some(alone) = Arc::get_mut(inside) else {
        return Err(Busy);
    };
    let Some(mut desk) = alone.desk.try_lift() else {
        return Err(Busy);
    };
    let done = alone.locked.lock_again(board, &mut desk, session, command);
    alone.desk.set_down(desk);
    Ok(done)
}

impl HubSession {
    /// The first try of a LOCK. It is a unit with a receipt, had or not; where it isn't had the caller waits as it likes,
    /// and goes on by `lock_again`.
    ///
    /// Refusals, after which nothing has changed but what the session has seen: those of `Core::lock`, and `OutOfMemory`
    /// for the receipt.
    pub fn lock(&mut self, command: &LockCommand) -> Result<Result<bool, Refusal>, Busy>
        ensures table { self.new.table ≡ self.old.table }
        ensures tried { IfOk result (λ done. IfOk done (λ had. WasTried command.now (Ok had) self.old.held self.new.held)) }
        ensures refused { IfOk result (λ done. IfErr done (λ refusal. WasTried command.now (Err refusal) self.old.held self.new.held)) }
        ensures busy { OnErr result (self.new ≡ self.old) }
    {
        self.kept = None;
        let Some(mut inside) = self.hub.take() else {
            return Err(Busy);
        };
        let done = tried(&self.hub.board, &mut inside, &mut self.inner, command);
        self.hub.put(inside);
        done
    }

    /// A later try of a LOCK that was blocked: a unit with a receipt where it has its names now; else nothing is done.
    ///
    /// Refusals: as `lock`.
    pub fn lock_again(&mut self, command: &LockCommand) -> Result<Result<bool, Refusal>, Busy>
        ensures table { self.new.table ≡ self.old.table }
        ensures had { IfOk result (λ done. OnOkThat done (WasTried command.now (Ok true) self.old.held self.new.held)) }
        ensures blocked { IfOk result (λ done. OnOkNot done (self.new.held ≡ self.old.held)) }
        ensures refused { IfOk result (λ done. IfErr done (λ refusal. WasTried command.now (Err refusal) self.old.held self.new.held)) }
        ensures busy { OnErr result (self.new ≡ self.old) }
    {
        self.kept = None;
        let Some(mut inside) = self.hub.take() else {
            return Err(Busy);
        };
        let done = tried_again(&self.hub.board, &mut inside, &mut self.inner, command);
        self.hub.put(inside);
        done
    }
}
