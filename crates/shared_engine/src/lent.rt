//! A SET and a $GET of a session, of which key and value are lent.
ghost use Rattle.std.specs.Prelude.{◌≡◌, ◌≤◌, ◌∷◌, ◌++◌, [], None, length, take, IfOk, IfErr, IfSome, IsSome, OnOk, OnErr};
ghost use Rattle.command.specs.declared.access.DataCommand.TheVariants.{Set, Look};
ghost use Rattle.command.specs.declared.access.Look.TheVariants.{Get};
ghost use Rattle.command.specs.declared.access.Answer.TheVariants.{Done, Value};
ghost use Rattle.journal.specs.History.{initial, after};
ghost use Rattle.journal.specs.declared.unit.Unit.TheVariants.{Lone};
ghost use Rattle.job_core.specs.Causes.{IsCauseOf};
ghost use Rattle.job_core.specs.Lent.{value_at, value_begun, done_answer, got_answer};
ghost use Rattle.job_core.specs.Sessions.{IsAnsweredOrRefused, IsOpenOn};
ghost use Rattle.pin_board.specs.Slips.{IsBeginning};
ghost use Rattle.shared_engine.specs.Sessions.{knowing, and_receipt};
ghost use Rattle.shared_engine.specs.Engines.{IsLocked};

use crate::inner::InnerSession;
use crate::locked::Locked;
use collation::Text;
use key_codec::Key;
use pin_board::{Board, Lifted};
use refusal::Refusal;

impl Locked {
    /// A SET outside a transaction: as `lone` of it, but key and value are lent. The value is taken out of where it lies.
    pub(crate) fn set_lone(
        &mut self,
        board: &Board,
        desk: &mut Lifted,
        session: &mut InnerSession,
        key: &Key,
        value: &mut Text,
    ) -> Result<(), Refusal>
        requires own { (desk.old.table ≡ board.now.table) × (session.old.table ≡ board.now.table) }
        requires stands { IsLocked self.old.core desk.old self.old.seats self.old.horizon self.old.opened }
        requires level { session.old.held.state.level ≡ 0 }
        ensures table { (desk.new.table ≡ desk.old.table) × (session.new.table ≡ session.old.table) }
        ensures stands { IsLocked self.new.core desk.new self.new.seats self.new.horizon self.new.opened }
        ensures units { OnOk result (self.new.core.units ≡ self.old.core.units ++ Lone session.old.held.state.work.job (Set key.now value.old) Done ∷ []) }
        ensures receipt { OnOk result (session.new.held ≡ and_receipt self.old.core.units (Lone session.old.held.state.work.job (Set key.now value.old) Done) session.old.held) }
        ensures goes_on { IsBeginning self.old.core.units session.old.held.seen }
        ensures refused { OnErr result ((self.new.core.units ≡ self.old.core.units) × (session.new.held ≡ knowing self.old.core.units session.old.held)) }
        ensures cause { IfErr result (λ refusal. IsCauseOf refusal (Set key.now value.old) (after self.old.core.units initial).map (length self.old.core.units)) }
        ensures others { (desk.new.knows.given ≡ desk.old.knows.given) × (self.new.seats ≡ self.old.seats) }
    {
        match self.write_set(board, desk, session, key, value) {
            Ok(()) => Ok(()),
            Err(refusal) => {
                self.find_journal(board, desk, session);
                Err(refusal)
            }
        }
    }

    // The same, where a refusal changes nothing at all.
    #[inline(always)]
    fn write_set(
        &mut self,
        board: &Board,
        desk: &mut Lifted,
        session: &mut InnerSession,
        key: &Key,
        value: &mut Text,
    ) -> Result<(), Refusal>
        requires own { (desk.old.table ≡ board.now.table) × (session.old.table ≡ board.now.table) }
        requires stands { IsLocked self.old.core desk.old self.old.seats self.old.horizon self.old.opened }
        requires level { session.old.held.state.level ≡ 0 }
        ensures table { (desk.new.table ≡ desk.old.table) × (session.new.table ≡ session.old.table) }
        ensures stands { IsLocked self.new.core desk.new self.new.seats self.new.horizon self.new.opened }
        ensures units { OnOk result (self.new.core.units ≡ self.old.core.units ++ Lone session.old.held.state.work.job (Set key.now value.old) Done ∷ []) }
        ensures receipt { OnOk result (session.new.held ≡ and_receipt self.old.core.units (Lone session.old.held.state.work.job (Set key.now value.old) Done) session.old.held) }
        ensures goes_on { OnOk result (IsBeginning self.old.core.units session.old.held.seen) }
        ensures refused { OnErr result ((self.new.core.units ≡ self.old.core.units) × (session.new.held ≡ session.old.held)) }
        ensures cause { IfErr result (λ refusal. IsCauseOf refusal (Set key.now value.old) (after self.old.core.units initial).map (length self.old.core.units)) }
        ensures others { (desk.new.knows.given ≡ desk.old.knows.given) × (self.new.seats ≡ self.old.seats) }
    {
        session.numbers.reserve(1)?;
        let receipt = self
            .core
            .set_lone(session.state.job(), key, value, Some(self.horizon))?;
        board.write(desk, &mut session.pin, &receipt);
        self.sweep.note_unit(receipt.number(), false);
        session.numbers.push_reserved(receipt.number());
        Ok(())
    }

    /// A $GET without a default outside a transaction: as `lone` of it, but the key is lent, and the value is copied
    /// behind these. Answers how many bytes it has.
    pub(crate) fn get_lone(
        &mut self,
        board: &Board,
        desk: &mut Lifted,
        session: &mut InnerSession,
        key: &Key,
        values: &mut Vec<u8>,
    ) -> Result<usize, Refusal>
        requires own { (desk.old.table ≡ board.now.table) × (session.old.table ≡ board.now.table) }
        requires stands { IsLocked self.old.core desk.old self.old.seats self.old.horizon self.old.opened }
        requires level { session.old.held.state.level ≡ 0 }
        ensures table { (desk.new.table ≡ desk.old.table) × (session.new.table ≡ session.old.table) }
        ensures stands { IsLocked self.new.core desk.new self.new.seats self.new.horizon self.new.opened }
        ensures units { OnOk result (self.new.core.units ≡ self.old.core.units ++ Lone session.old.held.state.work.job (Look (Get key.now None)) (Value (value_at key.now (after self.old.core.units initial).map)) ∷ []) }
        ensures receipt { OnOk result (session.new.held ≡ and_receipt self.old.core.units (Lone session.old.held.state.work.job (Look (Get key.now None)) (Value (value_at key.now (after self.old.core.units initial).map))) session.old.held) }
        ensures goes_on { IsBeginning self.old.core.units session.old.held.seen }
        ensures refused { OnErr result ((self.new.core.units ≡ self.old.core.units) × (session.new.held ≡ knowing self.old.core.units session.old.held)) }
        ensures cause { IfErr result (λ refusal. IsCauseOf refusal (Look (Get key.now None)) (after self.old.core.units initial).map (length self.old.core.units)) }
        ensures size { IfOk result (λ size. size ≡ length (value_at key.now (after self.old.core.units initial).map)) }
        ensures copied { OnOk result (values.new.items ≡ values.old.items ++ value_at key.now (after self.old.core.units initial).map) }
        ensures uncopied { OnErr result (values.new.items ≡ values.old.items) }
        ensures others { (desk.new.knows.given ≡ desk.old.knows.given) × (self.new.seats ≡ self.old.seats) }
    {
        match self.write_got(board, desk, session, key, values) {
            Ok(size) => Ok(size),
            Err(refusal) => {
                self.find_journal(board, desk, session);
                Err(refusal)
            }
        }
    }

    // The same, where a refusal changes nothing at all.
    #[inline(always)]
    fn write_got(
        &mut self,
        board: &Board,
        desk: &mut Lifted,
        session: &mut InnerSession,
        key: &Key,
        values: &mut Vec<u8>,
    ) -> Result<usize, Refusal>
        requires own { (desk.old.table ≡ board.now.table) × (session.old.table ≡ board.now.table) }
        requires stands { IsLocked self.old.core desk.old self.old.seats self.old.horizon self.old.opened }
        requires level { session.old.held.state.level ≡ 0 }
        ensures table { (desk.new.table ≡ desk.old.table) × (session.new.table ≡ session.old.table) }
        ensures stands { IsLocked self.new.core desk.new self.new.seats self.new.horizon self.new.opened }
        ensures units { OnOk result (self.new.core.units ≡ self.old.core.units ++ Lone session.old.held.state.work.job (Look (Get key.now None)) (Value (value_at key.now (after self.old.core.units initial).map)) ∷ []) }
        ensures receipt { OnOk result (session.new.held ≡ and_receipt self.old.core.units (Lone session.old.held.state.work.job (Look (Get key.now None)) (Value (value_at key.now (after self.old.core.units initial).map))) session.old.held) }
        ensures goes_on { OnOk result (IsBeginning self.old.core.units session.old.held.seen) }
        ensures refused { OnErr result ((self.new.core.units ≡ self.old.core.units) × (session.new.held ≡ session.old.held)) }
        ensures cause { IfErr result (λ refusal. IsCauseOf refusal (Look (Get key.now None)) (after self.old.core.units initial).map (length self.old.core.units)) }
        ensures size { IfOk result (λ size. size ≡ length (value_at key.now (after self.old.core.units initial).map)) }
        ensures copied { OnOk result (values.new.items ≡ values.old.items ++ value_at key.now (after self.old.core.units initial).map) }
        ensures uncopied { OnErr result (values.new.items ≡ values.old.items) }
        ensures others { (desk.new.knows.given ≡ desk.old.knows.given) × (self.new.seats ≡ self.old.seats) }
    {
        session.numbers.reserve(1)?;
        let (size, receipt) = self
            .core
            .get_lone_into(session.state.job(), key, Some(self.horizon), values)?;
        board.write(desk, &mut session.pin, &receipt);
        self.sweep.note_unit(receipt.number(), true);
        session.numbers.push_reserved(receipt.number());
        Ok(size)
    }

    /// A SET of an open transaction whose start's content is there: as `read_met` of it, but key and value are lent. The
    /// value is taken out of where it lies.
    pub(crate) fn set_met(
        &self,
        session: &mut InnerSession,
        key: &Key,
        value: &mut Text,
    ) -> Result<(), Refusal>
        requires level { 1 ≤ session.old.held.state.level }
        requires start { IfSome session.old.held.start (λ base. base ≡ take (length base) self.now.core.units) }
        requires kept { IsOpenOn self.now.core session.old.held.state }
        ensures table { session.new.table ≡ session.old.table }
        ensures answered { IfSome session.old.held.start (λ base. IsAnsweredOrRefused (Set key.now value.old) (done_answer result) (after base initial).map session.old.held.state session.new.held.state) }
        ensures begun { IsSome session.old.held.start }
        ensures same { (session.new.held.start ≡ session.old.held.start) × (session.new.held.receipts ≡ session.old.held.receipts) }
        ensures others { (session.new.held.others ≡ session.old.held.others) × (session.new.held.seen ≡ session.old.held.seen) }
        ensures level { session.new.held.state.level ≡ session.old.held.state.level }
        ensures kept { IsOpenOn self.now.core session.new.held.state }
    {
        self.core.read_set(&mut session.state, key, value)
    }

    /// A $GET without a default of an open transaction whose start's content is there: as `read_met` of it, but the key
    /// is lent, and the value is copied behind these. Answers how many bytes it has.
    pub(crate) fn get_met(
        &self,
        session: &mut InnerSession,
        key: &Key,
        values: &mut Vec<u8>,
    ) -> Result<usize, Refusal>
        requires level { 1 ≤ session.old.held.state.level }
        requires start { IfSome session.old.held.start (λ base. base ≡ take (length base) self.now.core.units) }
        requires kept { IsOpenOn self.now.core session.old.held.state }
        ensures table { session.new.table ≡ session.old.table }
        ensures answered { IfSome session.old.held.start (λ base. IsAnsweredOrRefused (Look (Get key.now None)) (got_answer (value_begun key.now self.now.core.units session.old.held.state) result) (after base initial).map session.old.held.state session.new.held.state) }
        ensures begun { IsSome session.old.held.start }
        ensures size { IfOk result (λ size. size ≡ length (value_begun key.now self.now.core.units session.old.held.state)) }
        ensures copied { OnOk result (values.new.items ≡ values.old.items ++ value_begun key.now self.now.core.units session.old.held.state) }
        ensures uncopied { OnErr result (values.new.items ≡ values.old.items) }
        ensures same { (session.new.held.start ≡ session.old.held.start) × (session.new.held.receipts ≡ session.old.held.receipts) }
        ensures others { (session.new.held.others ≡ session.old.held.others) × (session.new.held.seen ≡ session.old.held.seen) }
        ensures level { session.new.held.state.level ≡ session.old.held.state.level }
        ensures kept { IsOpenOn self.now.core session.new.held.state }
    {
        self.core.read_get_into(&mut session.state, key, values)
    }
}
