//! Scripts of data commands and of refused lines.
use crate::Row;

/// Each data command, and jobs without transactions and locks.
pub const ANSWERED: [Row; 11] = [
    ("", "--\n"),
    (
        "1 SET ^A=5\n1 $GET(^A)\n1 $GET(^B)\n1 $GET(^B,\"x\")\n1 $GET(^A(1))\n",
        "1 ok\n1 5\n1 \"\"\n1 \"x\"\n1 \"\"\n--\n^A=5\n",
    ),
    (
        "1 SET ^A(10)=1\n1 SET ^A(9)=1\n1 SET ^A(-1)=1\n1 SET ^A(.5)=1\n1 SET ^A(\"007\")=1\n1 SET ^A(\"x\")=1\n",
        "1 ok\n1 ok\n1 ok\n1 ok\n1 ok\n1 ok\n--\n^A(-1)=1\n^A(.5)=1\n^A(9)=1\n^A(10)=1\n^A(\"007\")=1\n^A(\"x\")=1\n",
    ),
    (
        "1 SET ^A(1,2)=5\n1 $DATA(^A)\n1 $DATA(^A(1,2))\n1 $DATA(^B)\n1 SET ^A=0\n1 $DATA(^A)\n",
        "1 ok\n1 10\n1 1\n1 0\n1 ok\n1 11\n--\n^A=0\n^A(1,2)=5\n",
    ),
    (
        "1 SET ^A(1)=1\n1 SET ^A(1,1)=1\n1 SET ^A(12)=1\n1 KILL ^A(1)\n",
        "1 ok\n1 ok\n1 ok\n1 ok\n--\n^A(12)=1\n",
    ),
    (
        "1 SET ^A(\"a\"\"b\",2)=1\n1 $QUERY(^A)\n1 $QUERY(^A(\"a\"\"b\",2))\n1 $QUERY(^A(\"\"),-1)\n",
        "1 ok\n1 ^A(\"a\"\"b\",2)\n1 \"\"\n1 ^A(\"a\"\"b\",2)\n--\n^A(\"a\"\"b\",2)=1\n",
    ),
    (
        "1 SET ^A($C(0,1)_\"b\")=\"a\"_$C(10)\n",
        "1 ok\n--\n^A($C(0,1)_\"b\")=\"a\"_$C(10)\n",
    ),
    (
        "1 s ^A=1\n1 $g(^A)\n1 m ^B=^A\n1 k ^A\n1 $get(^A,\"none\")\n1 h\n",
        "1 ok\n1 1\n1 ok\n1 ok\n1 \"none\"\n1 ok\n--\n^B=1\n",
    ),
    (
        "1 SET ^A=1\n1 SET ^A(1)=2\n1 SET ^A(1,1)=3\n1 SET ^AB=4\n1 KVALUE ^A(1)\n1 $DATA(^A(1))\n1 ks ^A\n1 $DATA(^A)\n1 kv ^Nil\n",
        "1 ok\n1 ok\n1 ok\n1 ok\n1 ok\n1 10\n1 ok\n1 1\n1 ok\n--\n^A=1\n^AB=4\n",
    ),
    (
        "1 $INCREMENT(^A)\n1 $I(^A,-3)\n1 SET ^A=\"12abc\"\n1 $i(^A,.5)\n1 SET ^A=\"-+-3\"\n1 $I(^A,\"-3\")\n1 SET ^A=999999999999999999999\n1 $I(^A)\n",
        "1 1\n1 -2\n1 ok\n1 12.5\n1 ok\n1 0\n1 ok\n1 1000000000000000000000\n--\n^A=1000000000000000000000\n",
    ),
    (
        "1 SET ^B(1)=1\n1 SET ^A=1\n1 SET ^AB(2,3)=1\n1 $ORDER(^$GLOBAL(\"\"))\n1 $O(^$G(\"^A\"))\n1 $O(^$g(\"^AB\"),1)\n1 $O(^$GLOBAL(\"^B\"))\n1 $O(^$GLOBAL(\"\"),-1)\n1 $O(^$GLOBAL(\"^AA\"),-1)\n1 $O(^$GLOBAL(\"^A\"),-1)\n",
        "1 ok\n1 ok\n1 ok\n1 ^A\n1 ^AB\n1 ^B\n1 \"\"\n1 ^B\n1 ^A\n1 \"\"\n--\n^A=1\n^AB(2,3)=1\n^B(1)=1\n",
    ),
];

/// With lines that are refused.
pub const REFUSED: [Row; 9] = [
    (
        "1 SET ^A(1)=1\n1 SET ^A(3)=3\n1 $ORDER(^A(\"\"))\n1 $ORDER(^A(2))\n1 $ORDER(^A(3))\n1 $ORDER(^A(\"\"),-1)\n1 $ORDER(^A)\n",
        "1 ok\n1 ok\n1 1\n1 3\n1 \"\"\n1 3\n1 error 7 NeedSubscript\n--\n^A(1)=1\n^A(3)=3\n",
    ),
    (
        "1 SET ^A(1)=7\n1 MERGE ^A(1)=^A\n1 MERGE ^A=^A\n1 MERGE ^A=^Nil\n",
        "1 ok\n1 error 8 MergeOverlap\n1 ok\n1 ok\n--\n^A(1)=7\n",
    ),
    (
        "1 SET ^A=1\n1 SET ^A(1)=1\n1 SET ^AB=1\n1 $QUERY(^A)\n1 $QUERY(^A(1))\n1 $QUERY(^A(1),-1)\n1 $QUERY(^A,-1)\n1 $QUERY(^A(\"\"))\n1 MERGE ^N(1)=^N\n",
        "1 ok\n1 ok\n1 ok\n1 ^A(1)\n1 \"\"\n1 ^A\n1 \"\"\n1 ^A(1)\n1 error 8 MergeOverlap\n--\n^A=1\n^A(1)=1\n^AB=1\n",
    ),
    (
        "x SET ^A=1\n1 FOO\n5000 SET ^A=1\n1 SET ^1A=1\n1 SET ^A(\"\")=1\n",
        "0 error 1 BadLine\n1 error 1 BadLine\n0 error 12 BadJob\n1 error 2 BadName\n1 error 3 EmptySubscript\n--\n",
    ),
    ("\r\n\n", "--\n"),
    (
        "1 SET ^A=1\r\n1 $GET(^A)\r",
        "1 ok\n1 error 1 BadLine\n--\n^A=1\n",
    ),
    ("1 SET ^A=1  \n", "1 ok\n--\n^A=1\n"),
    (
        "1 SET ^A(1)=1\n2 SET ^A(2)=\"two\"\n1 $ORDER(^A(\"\"),-1)\n1 FOO\n\n2 KILL ^A(1)\n1 $DATA(^A)",
        "1 ok\n2 ok\n1 2\n1 error 1 BadLine\n2 ok\n1 10\n--\n^A(2)=\"two\"\n",
    ),
    (
        "1 $INCREMENT(^A,\"x\")\n1 $I(^A,\"0.5\")\n1 $I(^A,)\n1 $I(^1A,1)\n1 $ORDER(^$GLOBAL(\"A\"))\n1 $O(^$GLOBAL(\"^1A\"))\n1 $QUERY(^$GLOBAL(\"\"))\n1 $O(^$LOCK(\"\"))\n1 $O(^$GLOBAL)\n1 ZKILL ^A\n",
        "1 error 1 BadLine\n1 error 1 BadLine\n1 error 1 BadLine\n1 error 2 BadName\n1 error 2 BadName\n1 error 2 BadName\n1 error 1 BadLine\n1 error 1 BadLine\n1 error 1 BadLine\n1 error 1 BadLine\n--\n",
    ),
];
