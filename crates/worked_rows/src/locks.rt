//! Scripts of LOCK.
use crate::Row;

/// LOCK outside transactions.
pub const OUTSIDE: [Row; 8] = [
    // the name, its ancestors and its descendants, and no other
    (
        "1 LOCK +^A(1)\n2 LOCK +^A\n2 LOCK +^A(1,2)\n2 LOCK +^A(2)\n2 LOCK +A(1)\n",
        "1 1\n2 0\n2 0\n2 1\n2 1\n--\n",
    ),
    // a list is had wholly or not at all, and HALT gives back
    (
        "1 LOCK (^A,^A)\n1 LOCK -^A\n2 LOCK (^B,^A)\n3 LOCK +^B\n1 HALT\n2 LOCK +^A\n",
        "1 1\n1 1\n2 0\n3 1\n1 ok\n2 1\n--\n",
    ),
    // counts
    (
        "1 LOCK +^A\n1 LOCK +^A\n1 LOCK -^A\n2 LOCK +^A\n1 LOCK -^A\n2 LOCK +^A\n1 LOCK -^A\n",
        "1 1\n1 1\n1 1\n2 0\n1 1\n2 1\n1 1\n--\n",
    ),
    // a LOCK without a sign has given back, also where it is kept off
    (
        "1 LOCK ^A\n2 LOCK ^B\n1 LOCK ^B\n2 LOCK +^A\n",
        "1 1\n2 1\n1 0\n2 1\n--\n",
    ),
    (
        "1 LOCK (^A,^B)\n1 LOCK\n2 LOCK (^A,^B)\n",
        "1 1\n1 ok\n2 1\n--\n",
    ),
    ("1 LOCK \n1 l\n1 LOCK -^A\n", "1 ok\n1 ok\n1 1\n--\n"),
    // nobody waits
    (
        "1 LOCK +(^A,B):123456789\n2 LOCK +B(1):5\n2 LOCK ^A(\"x\"):0\n",
        "1 1\n2 0\n2 0\n--\n",
    ),
    // what is locked can be set all the same
    ("1 LOCK ^A\n2 SET ^A=1\n", "1 1\n2 ok\n--\n^A=1\n"),
];

/// LOCK in transactions.
pub const INSIDE: [Row; 5] = [
    // given back inside, held to the commit
    (
        "1 LOCK +^A\n1 LOCK +^A\n1 TSTART\n1 LOCK -^A\n1 LOCK -^A\n2 LOCK +^A\n1 TCOMMIT\n2 LOCK +^A\n",
        "1 1\n1 1\n1 level 1\n1 1\n1 1\n2 0\n1 committed\n2 1\n--\n",
    ),
    // a rollback brings back the locks of the start
    (
        "1 LOCK ^A\n1 TSTART\n1 LOCK ^B\n1 TROLLBACK\n2 LOCK +^A\n2 LOCK +^B\n",
        "1 1\n1 level 1\n1 1\n1 ok\n2 0\n2 1\n--\n",
    ),
    // so does a restart
    (
        "1 LOCK +^BED(3)\n1 TSTART\n1 LOCK -^BED(3)\n1 LOCK +^BED(4)\n1 TRESTART\n2 LOCK +^BED(4)\n2 LOCK +^BED(3)\n",
        "1 1\n1 level 1\n1 1\n1 1\n1 restart 1\n2 1\n2 0\n--\n",
    ),
    // another job's LOCK overtakes nobody
    (
        "1 TSTART\n1 $GET(^A)\n2 LOCK ^A\n1 TCOMMIT\n",
        "1 level 1\n1 \"\"\n2 1\n1 committed\n--\n",
    ),
    // HALT in a transaction gives back what was had before it too
    (
        "1 LOCK ^A\n1 TSTART\n1 LOCK +^B\n1 HALT\n2 LOCK (^A,^B)\n",
        "1 1\n1 level 1\n1 1\n1 ok\n2 1\n--\n",
    ),
];
