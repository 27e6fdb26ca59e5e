//! The data commands on worked databases. Expected values are those of ISO/IEC 11756:1999 ($DATA, $ORDER, $QUERY, KILL,
//! MERGE) and, for what the standard leaves open, of docs/RULES.md, "Data commands".
use crate::answers::{Row, Rows, goes};

#[test]
fn data_tells_values_and_descendants(rt: HostRuntime) {
    let before: &[&str] = &["1 SET ^A(1,2)=1", "1 SET ^A(3)=1", "1 SET ^A(3,4)=1"];
    let rows: &[Row] = &[
        ("1 $DATA(^A)", "1 10"),
        ("1 $DATA(^A(1))", "1 10"),
        ("1 $DATA(^A(1,2))", "1 1"),
        ("1 $DATA(^A(2))", "1 0"),
        ("4096 $DATA(^A(3))", "4096 11"),
    ];
    assert!(rt; goes(rt.alloc(), before, Rows(rows)));
}

// ^A(3) has no value, only a descendant; ^A(2) is no node.
#[test]
fn order_goes_both_ways_from_any_start(rt: HostRuntime) {
    let before: &[&str] = &[
        "1 SET ^A(1)=1",
        "1 SET ^A(3,\"x\")=1",
        "1 SET ^A(\"a\"\"b\")=1",
    ];
    let rows: &[Row] = &[
        ("1 $ORDER(^A(\"\"))", "1 1"),
        ("1 $ORDER(^A(2))", "1 3"),
        ("1 $ORDER(^A(3),1)", "1 \"a\"\"b\""),
        ("1 $ORDER(^A(\"a\"\"b\"))", "1 \"\""),
        ("1 $ORDER(^A(\"\"),-1)", "1 \"a\"\"b\""),
        ("1 $ORDER(^A(3),-1)", "1 1"),
        ("1 $ORDER(^A(1),-1)", "1 \"\""),
        ("1 $ORDER(^A(3,\"\"))", "1 \"x\""),
        ("1 $ORDER(^A)", "1 error 7 NeedSubscript"),
    ];
    assert!(rt; goes(rt.alloc(), before, Rows(rows)));
}

// Backward from an open place: what is under it, else the reference itself, else the one before.
#[test]
fn query_walks_depth_first_from_any_start(rt: HostRuntime) {
    let before: &[&str] = &[
        "1 SET ^A(4)=1",
        "1 SET ^A(5)=1",
        "1 SET ^A(5,1)=1",
        "1 SET ^A(7,2)=1",
        "1 SET ^AB=1",
    ];
    let rows: &[Row] = &[
        ("1 $QUERY(^A)", "1 ^A(4)"),
        ("1 $QUERY(^A(5))", "1 ^A(5,1)"),
        ("1 $QUERY(^A(5,1),1)", "1 ^A(7,2)"),
        ("1 $QUERY(^A(7,2))", "1 \"\""),
        ("1 $QUERY(^A(5,\"\"),-1)", "1 ^A(5,1)"),
        ("1 $QUERY(^A(4,\"\"),-1)", "1 ^A(4)"),
        ("1 $QUERY(^A(6,\"\"),-1)", "1 ^A(5,1)"),
        ("1 $QUERY(^A(4),-1)", "1 \"\""),
        ("1 $QUERY(^AB(\"\"))", "1 \"\""),
    ];
    assert!(rt; goes(rt.alloc(), before, Rows(rows)));
}

#[test]
fn kill_takes_descendants_and_no_longer_sibling(rt: HostRuntime) {
    let before: &[&str] = &[
        "1 SET ^A(12)=\"kept\"",
        "1 SET ^A(1,1)=1",
        "1 SET ^A(1)=1",
        "1 KILL ^A(1)",
        "1 KILL ^Nil",
    ];
    let rows: &[Row] = &[
        ("1 $DATA(^A(1))", "1 0"),
        ("1 $GET(^A(1,1),\"none\")", "1 \"none\""),
        ("1 $GET(^A(12))", "1 \"kept\""),
        ("1 $ORDER(^A(\"\"))", "1 12"),
    ];
    assert!(rt; goes(rt.alloc(), before, Rows(rows)));
}

// What is copied holds each kind of subscript, and bytes that end one inside a text.
#[test]
fn merge_copies_the_value_and_the_descendants(rt: HostRuntime) {
    let before: &[&str] = &[
        "1 SET ^A(1)=\"one\"",
        "1 SET ^A(1,$C(0,255),-1.5,0,.5)=\"deep\"",
        "1 SET ^B(9)=\"over\"",
        "1 SET ^B(9,\"own\")=\"stays\"",
        "1 MERGE ^B(9)=^A(1)",
    ];
    let rows: &[Row] = &[
        ("1 $GET(^B(9))", "1 \"one\""),
        ("1 $GET(^B(9,$C(0,255),-1.5,0,.5))", "1 \"deep\""),
        ("1 $GET(^B(9,\"own\"))", "1 \"stays\""),
        ("1 $QUERY(^B(9))", "1 ^B(9,$C(0,255),-1.5,0,.5)"),
        ("1 $DATA(^A(1))", "1 11"),
        ("1 MERGE ^A(1)=^A", "1 error 8 MergeOverlap"),
        ("1 MERGE ^A=^A(1)", "1 error 8 MergeOverlap"),
        ("1 MERGE ^N(1)=^N", "1 error 8 MergeOverlap"),
        ("1 MERGE ^A=^A", "1 ok"),
        ("1 MERGE ^A(1)=^Nil", "1 ok"),
    ];
    assert!(rt; goes(rt.alloc(), before, Rows(rows)));
}
