//! What both sides do. A text of over 14 bytes doesn't lie in its value, nor a key of over 38.

/// What other jobs do before the transaction begins: one unit each.
pub const HISTORY: [&str; 19] = [
    "2 SET ^Old(1)=\"old 1\"",
    "2 SET ^Old(2)=\"a text that is too long to lie inline\"",
    "2 SET ^Old(3)=\"old 3\"",
    "2 SET ^Old(4)=\"old 4\"",
    "3 SET ^Old(\"a text that is too long to lie inline\",5)=\"old 5\"",
    "2 MERGE ^A(1)=^Old",
    "2 MERGE ^A(2)=^Old",
    "3 MERGE ^A(3)=^Old",
    "3 MERGE ^A(4)=^Old",
    "2 KILL ^A(2)",
    "2 KILL ^A(4,1)",
    "3 SET ^New(1)=\"new 1\"",
    "3 SET ^New(2)=\"new 2\"",
    "2 SET ^New(3)=\"another text that is too long\"",
    "2 SET ^New(4)=\"new 4\"",
    "2 SET ^New(\"a text that is too long to lie inline\",5)=\"new 5\"",
    "2 MERGE ^A(2)=^Old",
    "2 SET ^A(4,1)=\"old once more\"",
    "3 KILL ^Old(3)",
];

/// The locks that three jobs have before it.
pub const LOCKS: [&str; 4] = [
    "1 LOCK (Desk,^Shelf(\"a text that is too long to lie inline\"))",
    "1 LOCK +Desk",
    "2 LOCK (Ward,^Ward(3),Ward)",
    "3 LOCK +(Hall(1),Hall(2))",
];

/// The transaction: what it has read, its locks, and 40 keys that it writes, of which the 20 of ^B are new.
pub const INSIDE: [&str; 11] = [
    "1 $GET(^A(1,1))",
    "1 $ORDER(^A(\"\"))",
    "1 $QUERY(^A(2))",
    "1 LOCK -(Desk,^Shelf(\"a text that is too long to lie inline\"))",
    "1 LOCK +(^B,Desk)",
    "1 MERGE ^A(1)=^New",
    "1 MERGE ^A(2)=^New",
    "1 MERGE ^A(3)=^New",
    "1 MERGE ^A(4)=^New",
    "1 MERGE ^B=^A",
    "1 $DATA(^B)",
];

/// What other jobs do after its start. Nothing of it was read.
pub const BESIDE: [&str; 4] = [
    "2 SET ^Other(1)=\"other\"",
    "2 SET ^Other(1)=\"a text that is too long to lie inline\"",
    "3 KILL ^Old(1)",
    "3 SET ^C(1)=1",
];

/// What the transaction does after its commit was refused, and the next one after it.
pub const NEXT: [&str; 9] = [
    "1 $GET(^A(1,1))",
    "1 $ORDER(^B(\"\"),-1)",
    "1 $QUERY(^B(2))",
    "1 SET ^A(1,1)=\"a text that is too long to lie inline\"",
    "1 KILL ^B(4)",
    "1 MERGE ^B(5,6)=^A(1)",
    "1 $GET(^A(1,1))",
    "1 $DATA(^B(4))",
    "1 $ORDER(^B(\"\"),-1)",
];

/// Locks that are asked for: each is had or not.
pub const ASKED: [&str; 10] = [
    "2 LOCK +Desk",
    "3 LOCK +^Shelf",
    "2 LOCK +^B(1)",
    "3 LOCK +^B",
    "1 LOCK +Ward",
    "3 LOCK +^Ward",
    "1 LOCK +Hall",
    "2 LOCK +Hall(1)",
    "2 LOCK +Hall(3)",
    "1 LOCK +Desk",
];

/// A name that a job gives back once, that another asks for, and that the job takes again.
pub type Counted = (&'static str, &'static str, &'static str);

/// The counts of the jobs that have no transaction.
pub const COUNTED: [Counted; 4] = [
    ("2 LOCK -Ward", "3 LOCK +Ward", "2 LOCK +Ward"),
    ("2 LOCK -^Ward(3)", "3 LOCK +^Ward(3)", "2 LOCK +^Ward(3)"),
    ("3 LOCK -Hall(1)", "2 LOCK +Hall(1)", "3 LOCK +Hall(1)"),
    ("3 LOCK -Hall(2)", "2 LOCK +Hall(2)", "3 LOCK +Hall(2)"),
];

/// Those of the transaction's job, once it is over.
pub const COUNTED_AT_END: [Counted; 3] = [
    ("1 LOCK -Desk", "2 LOCK +Desk", "1 LOCK +Desk"),
    ("1 LOCK -^B", "2 LOCK +^B", "1 LOCK +^B"),
    ("1 LOCK -^Shelf", "2 LOCK +^Shelf", "1 LOCK +^Shelf"),
];
