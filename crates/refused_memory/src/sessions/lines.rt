//! The lines of two jobs, and what they come to.

/// Each line, of the first job or the second, with its reply as it is written behind a job 0.
pub const LINES: [(&str, &str); 26] = [
    ("1 SET ^A(1)=1", "0 ok\n"),
    ("2 SET ^A(2)=2", "0 ok\n"),
    ("1 TSTART", "0 level 1\n"),
    ("2 TSTART", "0 level 1\n"),
    ("1 $GET(^A(2))", "0 2\n"),
    ("2 $ORDER(^A(\"\"))", "0 1\n"),
    (
        "1 SET ^B(1)=\"a text that is too long to be kept without memory\"",
        "0 ok\n",
    ),
    ("2 SET ^C=3", "0 ok\n"),
    ("1 LOCK +^L(1)", "0 1\n"),
    ("2 LOCK +^L:0", "0 0\n"),
    ("2 TCOMMIT", "0 committed\n"),
    (
        "1 $GET(^B(1))",
        "0 \"a text that is too long to be kept without memory\"\n",
    ),
    ("1 TCOMMIT", "0 committed\n"),
    ("1 TSTART", "0 level 1\n"),
    ("1 $DATA(^A)", "0 10\n"),
    ("2 SET ^A(3)=3", "0 ok\n"),
    ("1 TCOMMIT", "0 restart 1\n"),
    ("1 $DATA(^A)", "0 10\n"),
    ("1 KILL ^A(1)", "0 ok\n"),
    ("1 LOCK +^M", "0 1\n"),
    ("1 TSTART", "0 level 2\n"),
    ("1 TROLLBACK", "0 ok\n"),
    ("2 MERGE ^D=^A", "0 ok\n"),
    ("2 KILL ^A", "0 ok\n"),
    ("1 $QUERY(^D)", "0 ^D(1)\n"),
    ("2 LOCK -^L", "0 1\n"),
];

/// The numbers of the first job's receipts. Unit 9 is its rollback.
pub const FIRST: [u64; 5] = [1, 3, 6, 8, 12];

/// The numbers of the second job's receipts.
pub const SECOND: [u64; 7] = [2, 4, 5, 7, 10, 11, 13];

/// How many units there are: the last two are the ends of the sessions.
pub const UNITS: u64 = 15;

/// The database at the end.
pub const LISTING: &str =
    "^B(1)=\"a text that is too long to be kept without memory\"\n^C=3\n^D(1)=1\n^D(2)=2\n^D(3)=3\n";
