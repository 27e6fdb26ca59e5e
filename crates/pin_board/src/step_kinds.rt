//! The kinds of atomic steps, and what each tells: `specs/Steps.antt`.
ghost use Rattle.pin_board.specs.Steps.{clocks, stores, checks, rests, begins, lifts, passes, draws, writes, rebases, settles, meets, gives_slip, learns, kept_of, slip_of, added_of, left_of, right_of, lent_of, own_of, back_of, clashed_of, never};
ghost use Rattle.pin_board.specs.Views.{nobody};

use crate::view::SeatView;
use atomic_table::{Join, Play, Split};
use journal::Receipt;

pub(crate) struct ReadClock;

impl Play<Receipt, SeatView> for ReadClock {
    ghost then = { clocks };
}

pub(crate) struct Store;

impl Play<Receipt, SeatView> for Store {
    ghost then = { stores };
}

pub(crate) struct CheckFloor;

impl Play<Receipt, SeatView> for CheckFloor {
    ghost then = { checks };
}

pub(crate) struct Rest;

impl Play<Receipt, SeatView> for Rest {
    ghost then = { rests };
}

pub(crate) struct Begin;

impl Play<Receipt, SeatView> for Begin {
    ghost then = { begins };
}

pub(crate) struct Lift;

impl Play<Receipt, SeatView> for Lift {
    ghost then = { lifts };
}

pub(crate) struct Pass;

impl Play<Receipt, SeatView> for Pass {
    ghost then = { passes };
}

pub(crate) struct Draw;

impl Play<Receipt, SeatView> for Draw {
    ghost then = { draws };
}

pub(crate) struct Write;

impl Play<Receipt, SeatView> for Write {
    ghost then = { writes };
}

pub(crate) struct Rebase;

impl Play<Receipt, SeatView> for Rebase {
    ghost then = { rebases };
}

pub(crate) struct SettleNow;

impl Play<Receipt, SeatView> for SettleNow {
    ghost then = { settles };
}

pub(crate) struct Meet;

impl Play<Receipt, SeatView> for Meet {
    ghost then = { meets };
}

pub(crate) struct GiveSlip;

impl Play<Receipt, SeatView> for GiveSlip {
    ghost then = { gives_slip };
}

pub(crate) struct Learn;

impl Play<Receipt, SeatView> for Learn {
    ghost then = { learns };
}

pub(crate) struct TakeSlip;

impl Split<SeatView> for TakeSlip {
    ghost left = { kept_of };

    ghost right = { slip_of };
}

pub(crate) struct ReturnSlip;

impl Join<SeatView> for ReturnSlip {
    ghost both = { added_of };

    ghost spent = { nobody };
}

pub(crate) struct Deal;

impl Split<SeatView> for Deal {
    ghost left = { left_of };

    ghost right = { right_of };
}

pub(crate) struct Lend;

impl Join<SeatView> for Lend {
    ghost both = { lent_of };

    ghost spent = { nobody };
}

pub(crate) struct GiveBack;

impl Split<SeatView> for GiveBack {
    ghost left = { own_of };

    ghost right = { back_of };
}

pub(crate) struct Clash;

impl Join<SeatView> for Clash {
    ghost both = { clashed_of };

    ghost spent = { nobody };
}

pub(crate) struct Never;

impl Play<Receipt, SeatView> for Never {
    ghost then = { never };
}
