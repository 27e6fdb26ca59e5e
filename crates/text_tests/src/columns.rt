//! Where refused lines are at fault, and what was expected there, by hand from docs/FORMATS.md, "Grammar of lines".
use refusal::Refusal;
use script::{Expected, locate_fault};
use std::alloc::Global;
use std::test::Fail;

// A line, its refusal, the column of its fault and what was expected there.
type Row = (&'static str, Refusal, usize, Expected);

const BAD: Refusal = Refusal::BadLine;

fn is_told(alloc: Global, row: Row) -> bool {
    let (line, refusal, column, expected) = row;
    let found = locate_fault(alloc, line.as_bytes(), refusal);
    found.column == column && found.expected == expected
}

// The first row whose line is told in another way.
fn first_other(alloc: Global, rows: &[Row]) -> Option<usize> {
    for (i, row) in rows.iter().enumerate() {
        if !is_told(alloc, *row) {
            return Some(i);
        }
    }
    None
}

#[test]
fn lines_stop_where_the_grammar_does(rt: HostRuntime) -> Result<(), Fail> {
    let rows: &[Row] = &[
        ("SET ^A=1", BAD, 1, Expected::Job),
        ("1", BAD, 2, Expected::Blank),
        ("1x SET ^A=1", BAD, 2, Expected::Blank),
        ("1 FOO", BAD, 3, Expected::Command),
        ("1 K", BAD, 4, Expected::Operand),
        ("1 S:1 ^A=1", BAD, 4, Expected::Operand),
        ("1 $FOO(^A)", BAD, 4, Expected::Function),
        ("1 SET A=1", BAD, 7, Expected::Reference),
        ("1 SET ^=1", BAD, 8, Expected::Name),
        ("1 SET ^A", BAD, 9, Expected::Equals),
        ("1 SET ^A=", BAD, 10, Expected::Value),
        ("1 SET ^A=1.", BAD, 10, Expected::Value),
        ("1 SET ^A=1x", BAD, 11, Expected::End),
        ("1 SET ^A=1 x", BAD, 12, Expected::End),
        ("1 TSTART x", BAD, 10, Expected::End),
    ];
    assert_eq!(rt; first_other(rt.alloc(), rows), None);
    Ok(())
}

#[test]
fn operands_stop_where_the_grammar_does(rt: HostRuntime) -> Result<(), Fail> {
    let rows: &[Row] = &[
        ("1 SET ^A(1=5", BAD, 11, Expected::CommaOrClosing),
        ("1 SET ^A(1,)=5", BAD, 12, Expected::Subscript),
        ("1 SET ^A(", BAD, 10, Expected::Subscript),
        ("1 $GET(^A", BAD, 10, Expected::CommaOrClosing),
        ("1 $GET(^A,1", BAD, 12, Expected::Closing),
        ("1 $GET ^A", BAD, 7, Expected::Opening),
        ("1 $DATA(^A,1)", BAD, 11, Expected::Closing),
        ("1 $ORDER(^A(1),2)", BAD, 16, Expected::Direction),
        ("1 LOCK ^A:", BAD, 11, Expected::Timeout),
        ("1 LOCK ^A:.", BAD, 12, Expected::Timeout),
        ("1 LOCK ^A:5.x", BAD, 13, Expected::Timeout),
        ("1 LOCK ()", BAD, 9, Expected::LockName),
        ("1 LOCK (^A,^B", BAD, 14, Expected::CommaOrClosing),
        ("1 MERGE ^A=B", BAD, 12, Expected::Reference),
        ("1 $INCREMENT(^A,\"x\")", BAD, 17, Expected::Number),
        ("1 $I(^A 1)", BAD, 8, Expected::CommaOrClosing),
        ("1 $I(^A,1", BAD, 10, Expected::Closing),
        ("1 $ORDER(^$GLOB(\"\"))", BAD, 12, Expected::Global),
        ("1 $ORDER(^$GLOBAL)", BAD, 18, Expected::Opening),
        ("1 $ORDER(^$G(A))", BAD, 14, Expected::Value),
        ("1 $QUERY(^$GLOBAL(\"\"))", BAD, 11, Expected::Name),
    ];
    assert_eq!(rt; first_other(rt.alloc(), rows), None);
    Ok(())
}

// A line of the grammar, its refusal and the column of its fault.
type Ruled = (&'static str, Refusal, usize);

fn first_other_ruled(alloc: Global, rows: &[Ruled]) -> Option<usize> {
    for (i, (line, refusal, column)) in rows.iter().enumerate() {
        if !is_told(alloc, (line, *refusal, *column, Expected::Rule(*refusal))) {
            return Some(i);
        }
    }
    None
}

#[test]
fn refused_operands_are_told(rt: HostRuntime) -> Result<(), Fail> {
    let rows: &[Ruled] = &[
        ("4097 SET ^A=1", Refusal::BadJob, 1),
        ("1 SET ^1A=1", Refusal::BadName, 7),
        ("1 MERGE ^A=^1B", Refusal::BadName, 12),
        ("1 LOCK 5", Refusal::BadName, 8),
        ("1 LOCK +(^A,B(1),5)", Refusal::BadName, 18),
        ("1 LOCK -(A(\"\"),B)", Refusal::EmptySubscript, 10),
        ("1 $DATA(^A(\"\"))", Refusal::EmptySubscript, 9),
        ("1 SET ^A(1)=5", Refusal::ValueTooLong, 13),
        ("1 $ORDER(^A)", Refusal::NeedSubscript, 10),
        ("1 MERGE ^A=^A(1)", Refusal::MergeOverlap, 9),
        ("1 $ORDER(^$GLOBAL(\"A\"))", Refusal::BadName, 10),
        ("1 $INCREMENT(^A,5)", Refusal::ValueTooLong, 17),
        ("1 $INCREMENT(^A)", Refusal::SumTooLong, 3),
        ("1 TCOMMIT", Refusal::NoTransaction, 3),
        ("1 SET ^A=1", Refusal::OutOfMemory, 3),
    ];
    assert_eq!(rt; first_other_ruled(rt.alloc(), rows), None);
    assert_eq!(rt; Expected::Rule(Refusal::BadJob).text(), "a job, 1 to 4096");
    Ok(())
}
