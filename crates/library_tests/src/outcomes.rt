//! The numbers and names of outcomes: docs/LIBRARY.md, "Outcomes"; docs/RULES.md, "Refusals".
use crate::copies::holds;
use command::Reply;
use embedded::{Outcome, copied_as, name_outcome};
use refusal::Refusal;
use std::test::*;

// Whether an outcome has this number, and is known by it.
fn is_known(number: u32) -> bool {
    match Outcome::of_number(number) {
        Some(outcome) => outcome.number() == number,
        None => false,
    }
}

#[test]
fn refusals_have_1_to_19_and_the_others_0_and_32_to_42(rt: HostRuntime) -> Result<(), Fail> {
    for number in 0..50 {
        assert_eq!(rt;
            is_known(number),
            number <= 19 || (32..=42).contains(&number)
        );
    }
    Ok(())
}

// Whether this name is copied.
fn is_named(number: u32, name: &[u8]) -> bool {
    let mut buffer = [0; 16];
    let mut wanted = 99;
    name_outcome(number, &mut buffer, &mut wanted) == Outcome::Done && holds(&buffer, wanted, name)
}

#[test]
fn outcomes_have_names(rt: HostRuntime) -> Result<(), Fail> {
    assert!(rt; is_named(0, b"Done"));
    assert!(rt; is_named(14, b"OutOfMemory"));
    assert!(rt; is_named(41, b"NoValue"));
    assert!(rt; is_named(42, b"TransactionOpen"));
    let mut wanted = 99;
    assert_eq!(rt;
        name_outcome(43, &mut [], &mut wanted),
        Outcome::UnknownNumber
    );
    assert_eq!(rt;
        name_outcome(12, &mut [], &mut wanted),
        Outcome::BufferTooShort
    );
    assert_eq!(rt; wanted, 6);
    Ok(())
}

#[test]
fn a_text_is_copied_under_an_outcome(rt: HostRuntime) -> Result<(), Fail> {
    let mut buffer = [0; 3];
    let mut wanted = 99;
    let outcome = copied_as(Outcome::Restarted, b"ab", &mut buffer, &mut wanted);
    assert_eq!(rt;
        (outcome, buffer, wanted),
        (Outcome::Restarted, *b"ab\0", 2)
    );
    Ok(())
}

#[test]
fn replies_have_outcomes(rt: HostRuntime) -> Result<(), Fail> {
    assert_eq!(rt; Outcome::of(&Reply::Committed), Outcome::Done);
    assert_eq!(rt; Outcome::of(&Reply::Restarted(3)), Outcome::Restarted);
    assert_eq!(rt;
        Outcome::of(&Reply::Refused(Refusal::Gone)),
        Outcome::Refused(Refusal::Gone)
    );
    Ok(())
}
