//! Scripts of transactions.
use crate::Row;

/// What a transaction sees and keeps, when it begins anew, and when it doesn't.
pub const COMMITS: [Row; 14] = [
    (
        "1 TSTART\n1 SET ^X=1\n2 $GET(^X)\n1 $GET(^X)\n1 TCOMMIT\n2 $GET(^X)\n",
        "1 level 1\n1 ok\n2 \"\"\n1 1\n1 committed\n2 1\n--\n^X=1\n",
    ),
    // two that read the same, and set it
    (
        "1 SET ^X=0\n1 TSTART\n2 TSTART\n1 $GET(^X)\n2 $GET(^X)\n1 SET ^X=1\n2 SET ^X=2\n1 TCOMMIT\n2 TCOMMIT\n2 $GET(^X)\n2 TROLLBACK\n",
        "1 ok\n1 level 1\n2 level 1\n1 0\n2 0\n1 ok\n2 ok\n1 committed\n2 restart 1\n2 1\n2 ok\n--\n^X=1\n",
    ),
    // a phantom
    (
        "1 TSTART\n1 $ORDER(^A(5))\n2 SET ^A(9)=1\n1 SET ^B=1\n1 TCOMMIT\n",
        "1 level 1\n1 \"\"\n2 ok\n1 ok\n1 restart 1\n--\n^A(9)=1\n",
    ),
    // KILL has read nothing, and takes what came in between
    (
        "1 TSTART\n1 KILL ^A\n2 SET ^A(5)=1\n1 TCOMMIT\n",
        "1 level 1\n1 ok\n2 ok\n1 committed\n--\n",
    ),
    // what it saw stays as it was
    (
        "1 SET ^X=1\n1 TSTART\n1 $GET(^X)\n2 KILL ^X\n1 $GET(^X)\n1 TCOMMIT\n1 $GET(^X)\n1 TROLLBACK\n",
        "1 ok\n1 level 1\n1 1\n2 ok\n1 1\n1 restart 1\n1 \"\"\n1 ok\n--\n",
    ),
    // a value of its own isn't read from the others
    (
        "1 TSTART\n1 SET ^X=1\n1 $GET(^X)\n2 SET ^X=2\n1 TCOMMIT\n",
        "1 level 1\n1 ok\n1 1\n2 ok\n1 committed\n--\n^X=1\n",
    ),
    (
        "1 SET ^X=1\n1 TSTART\n1 KILL ^X\n1 $GET(^X)\n2 SET ^X=2\n1 TCOMMIT\n",
        "1 ok\n1 level 1\n1 ok\n1 \"\"\n2 ok\n1 committed\n--\n",
    ),
    // but $DATA reads what is there all the same
    (
        "1 SET ^X=1\n1 TSTART\n1 KILL ^X\n1 $DATA(^X)\n2 SET ^X=2\n1 TCOMMIT\n",
        "1 ok\n1 level 1\n1 ok\n1 0\n2 ok\n1 restart 1\n--\n^X=2\n",
    ),
    // an equal value is a change
    (
        "1 SET ^X=1\n1 TSTART\n1 $GET(^X)\n2 SET ^X=1\n1 TCOMMIT\n",
        "1 ok\n1 level 1\n1 1\n2 ok\n1 restart 1\n--\n^X=1\n",
    ),
    // a copy too deep has read nothing
    (
        "2 SET ^B(1)=1\n1 TSTART\n1 MERGE ^A(1,1,1,1,1,1,1,1,1,1,1,1,1,1,1,1,1,1,1,1,1,1,1,1,1,1,1,1,1,1,1)=^B\n2 KILL ^B\n1 TCOMMIT\n",
        "2 ok\n1 level 1\n1 error 5 TooManySubscripts\n2 ok\n1 committed\n--\n",
    ),
    // set and killed again, a reference that had no value is touched by neither
    (
        "1 TSTART\n1 $GET(^X)\n2 TSTART\n2 SET ^X=1\n2 KILL ^X\n2 TCOMMIT\n1 TCOMMIT\n",
        "1 level 1\n1 \"\"\n2 level 1\n2 ok\n2 ok\n2 committed\n1 committed\n--\n",
    ),
    // a sum is of what the transaction read, and computed anew
    (
        "1 SET ^X=5\n1 TSTART\n2 $INCREMENT(^X)\n1 $INCREMENT(^X)\n1 TCOMMIT\n1 $INCREMENT(^X)\n1 TCOMMIT\n",
        "1 ok\n1 level 1\n2 6\n1 6\n1 restart 1\n1 7\n1 committed\n--\n^X=7\n",
    ),
    // a name that came in between
    (
        "1 SET ^A=1\n1 TSTART\n1 $ORDER(^$GLOBAL(\"^A\"))\n2 SET ^B=1\n1 SET ^C=1\n1 TCOMMIT\n",
        "1 ok\n1 level 1\n1 \"\"\n2 ok\n1 ok\n1 restart 1\n--\n^A=1\n^B=1\n",
    ),
    // KSUBSCRIPTS takes what came in between below, and not the value
    (
        "1 TSTART\n1 KSUBSCRIPTS ^A\n2 SET ^A(5)=1\n2 SET ^A=2\n1 TCOMMIT\n",
        "1 level 1\n1 ok\n2 ok\n2 ok\n1 committed\n--\n^A=2\n",
    ),
];

/// Levels, restarts, what ends a transaction, and which jobs are open at the end of input.
pub const LEVELS: [Row; 9] = [
    (
        "1 TSTART\n1 TSTART\n1 SET ^A=1\n1 TCOMMIT\n1 TROLLBACK\n1 TCOMMIT\n",
        "1 level 1\n1 level 2\n1 ok\n1 level 1\n1 ok\n1 error 9 NoTransaction\n--\n",
    ),
    (
        "1 TSTART\n1 SET ^A=1\n1 TRESTART\n1 $TRESTART\n1 $TLEVEL\n1 TCOMMIT\n1 $TR\n",
        "1 level 1\n1 ok\n1 restart 1\n1 1\n1 1\n1 committed\n1 0\n--\n",
    ),
    (
        "1 TROLLBACK\n1 TRESTART\n1 $TLEVEL\n1 $TR\n",
        "1 error 9 NoTransaction\n1 error 9 NoTransaction\n1 0\n1 0\n--\n",
    ),
    (
        "1 TSTART\n1 TSTART\n1 TSTART\n1 TRESTART\n1 TRESTART\n1 $TL\n1 $TR\n1 SET ^A=1\n1 TCOMMIT\n",
        "1 level 1\n1 level 2\n1 level 3\n1 restart 1\n1 restart 2\n1 1\n1 2\n1 ok\n1 committed\n--\n^A=1\n",
    ),
    // neither what one wrote nor what it read is left in the next, of another job
    (
        "1 TSTART\n1 SET ^A=1\n1 $GET(^B)\n1 TROLLBACK\n2 TSTART\n2 $GET(^A)\n1 SET ^B=1\n2 SET ^C=1\n2 TCOMMIT\n",
        "1 level 1\n1 ok\n1 \"\"\n1 ok\n2 level 1\n2 \"\"\n1 ok\n2 ok\n2 committed\n--\n^B=1\n^C=1\n",
    ),
    // HALT drops the transaction, and the next line begins anew
    (
        "1 TSTART\n1 SET ^A=1\n1 HALT\n1 $TLEVEL\n1 $DATA(^A)\n1 TCOMMIT\n",
        "1 level 1\n1 ok\n1 ok\n1 0\n1 0\n1 error 9 NoTransaction\n--\n",
    ),
    // of a job without a line before
    ("00001 HALT\n1 HALT\n", "1 ok\n1 ok\n--\n"),
    // the end of input drops what is open
    (
        "2 SET ^A=0\n1 TSTART\n1 SET ^A=1\n2 TSTART\n2 KILL ^A\n",
        "2 ok\n1 level 1\n1 ok\n2 level 1\n2 ok\n--\n^A=0\n",
    ),
    // a line that is refused opens its job as well
    (
        "3 FOO\n1 TSTART\n1 SET ^A=1",
        "3 error 1 BadLine\n1 level 1\n1 ok\n--\n",
    ),
];
