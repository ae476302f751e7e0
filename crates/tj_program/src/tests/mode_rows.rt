//! Worked rows of the other modes, and of words without a form.
use super::row_tests::{Row, THREE, USAGE};
use tj_command::Status;

const CYCLE_OF_TWO: &str = "make 0\nfork 0\nraise 2\npublish 2 1\ncount 2\nowner 2\nwait 2\n\
    settle 2\npublish 0 2\nothers 0\ncount 0\nowner 0\nwait 0\nagain 0\nowner 0\nalarm 0\n";

const TWO_WALKS: &str = "fork 0\nfork 0\npublish 2 1\nothers 2\nsettle 2\nraise 1\npublish 1 2\n\
    publish 0 1\nothers 0\ncount 0\nowner 0\nwait 0\nagain 0\nowner 0\nwait 0\nagain 0\nowner 0\nwait \
    0\nagain 0\nsettle 0\ncount 1\nowner 1\nwait 1\nagain 1\nowner 1\nalarm 1\n";

// Of these the one of 26 events has a walk that ends after nine loads, and another that alarms.
pub(crate) const JOURNALS: &[Row] = &[
    (
        "judge",
        CYCLE_OF_TWO,
        Status::Marked,
        "task 2 walked after 2 loads\ntask 0 alarmed after 4 loads: 0 waits for 2, 2 waits \
            for 1\nlegal 16 events\n",
    ),
    (
        "judge",
        "make 0\nfork 0\nraise 2\npublish 2 1\ncount 2\nowner 2\nwait 2\nsettle 2\npublish 0 2\
            \nothers 0\nsettle 0\n",
        Status::Marked,
        "task 2 walked after 2 loads\nillegal at line 11\n",
    ),
    (
        "judge",
        "fork 0\nmake 0\nraise 1\npublish 1 2\ncount 1\nowner 1\nfork 0\nhand 0 2 3\npublish \
            0 1\nwait 1\nagain 1\nsettle 1\n",
        Status::Clean,
        "task 1 walked after 3 loads\nlegal 12 events\n",
    ),
    (
        "judge",
        "fork 0\nmake 0\nraise 1\npublish 1 2\ncount 1\nowner 1\nfork 0\nhand 0 2 3\npublish \
            0 1\nwait 1\nowner 1\nalarm 1\n",
        Status::Marked,
        "illegal at line 11\n",
    ),
    (
        "judge --cells 3",
        "fork 0\nfork 0\npublish 0 2\nothers 0\nsettle 0\npublish 2 1\nothers 2\nsettle 2\n\
            raise 1\npublish 1 0\ncount 1\nowner 1\nwait 1\nagain 1\nowner 1\nwait 1\nagain 1\
            \nowner 1\nalarm 1\n",
        Status::Marked,
        "task 0 skipped\ntask 2 skipped\ntask 1 alarmed after 7 loads: 1 waits for 0, 0 waits \
            for 2, 2 waits for 1\nlegal 19 events\n",
    ),
    (
        "judge --cells 2",
        "fork 0\nfork 0\n",
        Status::Marked,
        "illegal at line 2\n",
    ),
    (
        "judge",
        "raise",
        Status::Script,
        "journal fault at line 1\n",
    ),
    ("judge", "", Status::Clean, "legal 0 events\n"),
    (
        "judge",
        "make 0\nfork 0\nraise 2\npublish 2 1\ncount 2\nowner 2\nwait 2\nsettle 2\nclose 0 1\n\
            unwait 2\nclose 2 2\nlower\nclose 0 0\n",
        Status::Clean,
        "task 2 walked after 2 loads\nlegal 13 events\n",
    ),
    (
        "judge",
        "make 0\nfork 0\nraise 2\npublish 2 1\ncount 2\nowner 2\nwait 2\nsettle 2\nunwait 2\n",
        Status::Marked,
        "task 2 walked after 2 loads\nillegal at line 9\n",
    ),
    (
        "judge",
        TWO_WALKS,
        Status::Marked,
        "task 2 skipped\ntask 0 walked after 9 loads\ntask 1 alarmed after 4 loads: 1 waits for 2, 2 \
            waits for 1\nlegal 26 events\n",
    ),
];

const THOUSAND: &str = "size 1000 tasks 1001 done 1001 failed 0 waiting 0 owed 0 cycles 0 \
    result 500500\nclean\n";

pub(crate) const WITHOUT_FORM: &[&str] = &[
    "run --workers 65",
    "plan --workers 2",
    "run --cells=5",
    "run --cells 5 --cells 5",
    "",
    "judge --cells 1025",
    "run --strict --strict",
    "list --strict",
    "run --cells --strict",
    "run --workers 0",
    "run --cells 12345678901",
    "run run",
    "go",
];

pub(crate) const LISTINGS: &[Row] = &[
    (
        "list",
        "task main(){if 1<2{print (1+2)*3;}else{}return -(4);}",
        Status::Clean,
        "task main() {\n  if 1 < 2 {\n    print (1 + 2) * 3;\n  } else {\n  }\n  return -4;\n}\
            \n",
    ),
    (
        "list",
        "task main(){let p=new;let v=get p or 1+2;return v;}",
        Status::Clean,
        "task main() {\n  let p = new;\n  let v = get p or 1 + 2;\n  return v;\n}\n",
    ),
    ("list", "", Status::Script, "script fault P5 at 1:1\n"),
];

pub(crate) const GENERATED: &[Row] = &[
    (
        "gen --size 2",
        "left",
        Status::Clean,
        "size 2 tasks 3 done 3 failed 0 waiting 0 owed 0 cycles 0 result 3\nclean\n",
    ),
    (
        "gen --size 4000",
        "",
        Status::Full,
        "full: more than 4096 cells\n",
    ),
    ("gen --size 1000", "", Status::Clean, THOUSAND),
    ("gen --size 1000 --workers 1", "", Status::Clean, THOUSAND),
    ("gen --workers 16 --size 1000", "", Status::Clean, THOUSAND),
    (
        "gen --size 4000 --cells 8002 --workers 8",
        "",
        Status::Clean,
        "size 4000 tasks 4001 done 4001 failed 0 waiting 0 owed 0 cycles 0 result 8002000\nclean\n",
    ),
];

const RELAY_OF_3: &str =
    "0 prints 1\n0 prints 2\n0 prints 3\n0 done 6\n0.4 done 0\n0.4.1 done 0\nclean\n";

pub(crate) const RELAYS: &[Row] = &[
    ("relay --size 3 --workers 1", "", Status::Clean, RELAY_OF_3),
    ("relay --size 3 --workers 2", "", Status::Clean, RELAY_OF_3),
    ("relay --size 3 --workers 8", "", Status::Clean, RELAY_OF_3),
    // It reads nothing.
    ("relay --size 3", THREE, Status::Clean, RELAY_OF_3),
    ("relay --size 3 --cells 6", "", Status::Clean, RELAY_OF_3),
    (
        "relay --size 3 --cells 5",
        "",
        Status::Full,
        "full: more than 5 cells\n",
    ),
    ("relay --size 3 --steps 5", "", Status::Usage, USAGE),
    (
        "relay --size 1",
        "",
        Status::Clean,
        "0 prints 1\n0 done 1\n0.2 done 0\n0.2.1 done 0\nclean\n",
    ),
];
