//! Numbers and names come from docs/RULES.md, "Refusals".
use refusal::Refusal;
use std::alloc::{AllocError, Global};
use std::test::Fail;

// A refusal, and its number and name.
type Row = (Refusal, &'static str);

fn is_written_as(alloc: Global, refusal: Refusal, want: &str) -> Result<bool, AllocError> {
    let text = format!(in alloc; "{refusal}")?;
    Ok(text.as_str() == want)
}

// The first row whose refusal is written otherwise.
fn first_other(alloc: Global, rows: &[Row]) -> Result<Option<usize>, AllocError> {
    for (i, (refusal, want)) in rows.iter().enumerate() {
        if !is_written_as(alloc, *refusal, want)? {
            return Ok(Some(i));
        }
    }
    Ok(None)
}

#[test]
fn refusals_have_the_numbers_and_names_of_the_table(rt: HostRuntime) -> Result<(), Fail> {
    let rows: &[Row] = &[
        (Refusal::BadLine, "1 BadLine"),
        (Refusal::BadName, "2 BadName"),
        (Refusal::EmptySubscript, "3 EmptySubscript"),
        (Refusal::SubscriptTooLong, "4 SubscriptTooLong"),
        (Refusal::TooManySubscripts, "5 TooManySubscripts"),
        (Refusal::ValueTooLong, "6 ValueTooLong"),
        (Refusal::NeedSubscript, "7 NeedSubscript"),
        (Refusal::MergeOverlap, "8 MergeOverlap"),
        (Refusal::NoTransaction, "9 NoTransaction"),
        (Refusal::LevelTooDeep, "10 LevelTooDeep"),
        (Refusal::LockCountFull, "11 LockCountFull"),
        (Refusal::BadJob, "12 BadJob"),
        (Refusal::TransactionTooLong, "13 TransactionTooLong"),
        (Refusal::OutOfMemory, "14 OutOfMemory"),
        (Refusal::StampsUsedUp, "15 StampsUsedUp"),
        (Refusal::Gone, "16 Gone"),
        (Refusal::Again, "17 Again"),
        (Refusal::Ahead, "18 Ahead"),
        (Refusal::SumTooLong, "19 SumTooLong"),
    ];
    assert_eq!(rt; first_other(rt.alloc(), rows)?, None);
    Ok(())
}
