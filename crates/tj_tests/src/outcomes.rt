//! Programs, each with its report, its summary and what is told of its joins, by hand.
use crate::shown::reads;
use crate::tables::Says::{Emit, End, Fail, Fork, Get, GetOr, Join, JoinOr, New, Set};
use crate::tables::{Says, lists};
use std::alloc::Global;
use std::process::Abort;
use tj_base::{Pay, Trouble};
use tj_body::{TableBody, is_table};
use tj_known::{known_joins, known_text};
use tj_mean::{PlanFault, acts, plan};
use tj_report::{report_text, summary_text};

/// The lists of a program, its limit of cells, whether the rule is the strict one, its report, or
/// nothing where it is full, a size, the summary, and the joins without that rule.
struct Case {
    shows: &'static str,
    lists: &'static [&'static [Says]],
    cells: u32,
    strict: bool,
    report: &'static str,
    size: u32,
    summary: &'static str,
    joins: &'static str,
}

const NO_JOINS: &str = "joins 0 known 0 along 0 against 0\n";

const OF_A_PROMISE: &[&[Says]] = &[&[New, Set(1, Pay::Num(5)), Get(1), Emit(8), End(Pay::Ref(1))]];

const JOINS: &[&[Says]] = &[&[Fork(1, &[0], &[]), Join(1)], &[Join(1)]];

const OF_ONESELF: &[&[Says]] = &[&[Join(0)]];

/// The root prints, ends, and owes a promise. Its children fail for each cause, one waits for itself,
/// and one owes two promises and ends with one of them.
const ALL_KINDS: &[&[Says]] = &[
    &[
        New,
        Fork(1, &[], &[]),
        Fork(2, &[], &[]),
        Fork(3, &[1], &[]),
        Fork(4, &[1], &[]),
        Fork(5, &[0], &[]),
        Fork(6, &[], &[]),
        Fork(7, &[], &[]),
        Fork(8, &[], &[]),
        Emit(8),
        Emit(-9),
        End(Pay::Num(-3)),
    ],
    &[Fail(Trouble::Arith)],
    &[Fail(Trouble::Kind)],
    &[Set(1, Pay::Num(5))],
    &[Emit(1), Get(1)],
    &[Join(1)],
    &[Fail(Trouble::Steps)],
    &[New, Get(1)],
    &[New, New, End(Pay::Ref(2))],
];

/// One constant of all cases is more than the checker reads.
const ENDINGS: &[Case] = &[
    Case {
        shows: "each kind of line",
        lists: ALL_KINDS,
        cells: 4096,
        strict: true,
        report: "0 prints 8\n0 prints -9\n0 done -3\n0 owes 0.1\n0.2 failed arith\n0.3 failed kind\n\
            0.4 failed owner 0.1\n0.5 prints 1\n0.5 failed broken 0.1\n0.6 failed order 0\n\
            0.7 failed steps\n0.8 waits for 0.8.1\n0.9 done @0.9.2\n0.9 owes 0.9.1, 0.9.2\n\
            alarm 0.8 waits for 0.8.1\nmarked\n",
        size: 7,
        summary: "size 7 tasks 9 done 2 failed 6 waiting 1 owed 3 cycles 1 result -3\nmarked\n",
        joins: "0.6 joins 0 against\njoins 1 known 0 along 0 against 1\n",
    },
    Case {
        shows: "no trouble",
        lists: &[&[]],
        cells: 4096,
        strict: false,
        report: "0 done 0\nclean\n",
        size: 4000,
        summary: "size 4000 tasks 1 done 1 failed 0 waiting 0 owed 0 cycles 0 result 0\nclean\n",
        joins: NO_JOINS,
    },
    Case {
        shows: "a root that isn't done has no result",
        lists: &[&[Fail(Trouble::Kind)]],
        cells: 4096,
        strict: false,
        report: "0 failed kind\nmarked\n",
        size: 1,
        summary: "size 1 tasks 1 done 0 failed 1 waiting 0 owed 0 cycles 0 result -\nmarked\n",
        joins: NO_JOINS,
    },
    Case {
        shows: "a value through a promise",
        lists: OF_A_PROMISE,
        cells: 4096,
        strict: false,
        report: "0 prints 8\n0 done @0.1\nclean\n",
        size: 2,
        summary: "size 2 tasks 1 done 1 failed 0 waiting 0 owed 0 cycles 0 result @0.1\nclean\n",
        joins: NO_JOINS,
    },
    Case {
        shows: "an owed promise",
        lists: &[&[New, Fork(1, &[1], &[])], &[Get(1)]],
        cells: 4096,
        strict: false,
        report: "0 done 0\n0 owes 0.1\n0.2 failed broken 0.1\nmarked\n",
        size: 3,
        summary: "size 3 tasks 2 done 1 failed 1 waiting 0 owed 1 cycles 0 result 0\nmarked\n",
        joins: NO_JOINS,
    },
    Case {
        shows: "two wait for each other",
        lists: &[
            &[New, New, Fork(1, &[1, 2], &[1]), Fork(1, &[2, 1], &[2])],
            &[Get(2), Set(1, Pay::Num(1))],
        ],
        cells: 4096,
        strict: false,
        report: "0 done 0\n0.3 waits for 0.2\n0.4 waits for 0.1\n\
            alarm 0.3 waits for 0.2, 0.4 waits for 0.1\nmarked\n",
        size: 4,
        summary: "size 4 tasks 3 done 1 failed 0 waiting 2 owed 0 cycles 1 result 0\nmarked\n",
        joins: NO_JOINS,
    },
    Case {
        shows: "a broken one with or",
        lists: &[&[New, Fork(1, &[1], &[1]), GetOr(1), Emit(1)], &[]],
        cells: 4096,
        strict: false,
        report: "0 prints 1\n0 done 0\n0.2 done 0\n0.2 owes 0.1\nmarked\n",
        size: 12,
        summary: "size 12 tasks 2 done 2 failed 0 waiting 0 owed 1 cycles 0 result 0\nmarked\n",
        joins: NO_JOINS,
    },
    Case {
        shows: "its own promise",
        lists: &[&[New, Get(1)]],
        cells: 4096,
        strict: false,
        report: "0 waits for 0.1\nalarm 0 waits for 0.1\nmarked\n",
        size: 14,
        summary: "size 14 tasks 1 done 0 failed 0 waiting 1 owed 0 cycles 1 result -\nmarked\n",
        joins: NO_JOINS,
    },
    Case {
        shows: "joins",
        lists: JOINS,
        cells: 4096,
        strict: false,
        report: "0 waits for 0.1\n0.1 waits for 0\nalarm 0 waits for 0.1, 0.1 waits for 0\nmarked\n",
        size: 15,
        summary: "size 15 tasks 2 done 0 failed 0 waiting 2 owed 0 cycles 1 result -\nmarked\n",
        joins: "0 joins 0.1 known\n0.1 joins 0 against\njoins 2 known 1 along 0 against 1\n",
    },
    Case {
        shows: "strict joins",
        lists: JOINS,
        cells: 4096,
        strict: true,
        report: "0 failed broken 0.1\n0.1 failed order 0\nmarked\n",
        size: 16,
        summary: "size 16 tasks 2 done 0 failed 2 waiting 0 owed 0 cycles 0 result -\nmarked\n",
        joins: "0 joins 0.1 known\n0.1 joins 0 against\njoins 2 known 1 along 0 against 1\n",
    },
    Case {
        shows: "a join of oneself",
        lists: OF_ONESELF,
        cells: 4096,
        strict: false,
        report: "0 waits for 0\nalarm 0 waits for 0\nmarked\n",
        size: 17,
        summary: "size 17 tasks 1 done 0 failed 0 waiting 1 owed 0 cycles 1 result -\nmarked\n",
        joins: "0 joins 0 against\njoins 1 known 0 along 0 against 1\n",
    },
    Case {
        shows: "a strict join of oneself",
        lists: OF_ONESELF,
        cells: 4096,
        strict: true,
        report: "0 failed order 0\nmarked\n",
        size: 18,
        summary: "size 18 tasks 1 done 0 failed 1 waiting 0 owed 0 cycles 0 result -\nmarked\n",
        joins: "0 joins 0 against\njoins 1 known 0 along 0 against 1\n",
    },
    Case {
        shows: "two cycles",
        lists: &[&[Fork(1, &[], &[]), Fork(1, &[], &[])], &[New, Get(1)]],
        cells: 4096,
        strict: false,
        report: "0 done 0\n0.1 waits for 0.1.1\n0.2 waits for 0.2.1\nalarm 0.1 waits for 0.1.1\n\
            alarm 0.2 waits for 0.2.1\nmarked\n",
        size: 19,
        summary: "size 19 tasks 3 done 1 failed 0 waiting 2 owed 0 cycles 2 result 0\nmarked\n",
        joins: NO_JOINS,
    },
];

const LIMITS_PLACES_AND_JOINS: &[Case] = &[
    Case {
        shows: "a value through a promise, with a cell too few",
        lists: OF_A_PROMISE,
        cells: 1,
        strict: false,
        report: "",
        size: 20,
        summary: "",
        joins: "",
    },
    Case {
        shows: "a value through a promise, with just enough cells",
        lists: OF_A_PROMISE,
        cells: 2,
        strict: false,
        report: "0 prints 8\n0 done @0.1\nclean\n",
        size: 21,
        summary: "size 21 tasks 1 done 1 failed 0 waiting 0 owed 0 cycles 0 result @0.1\nclean\n",
        joins: NO_JOINS,
    },
    Case {
        shows: "tasks that fork for ever",
        lists: &[&[Fork(0, &[], &[]), Fork(0, &[], &[])]],
        cells: 16_384,
        strict: false,
        report: "",
        size: 22,
        summary: "",
        joins: "",
    },
    Case {
        shows: "numbers in order",
        lists: &[
            &[
                New,
                Fork(1, &[], &[]),
                New,
                New,
                New,
                New,
                New,
                New,
                New,
                Fork(1, &[], &[]),
                New,
                Fail(Trouble::Arith),
            ],
            &[],
        ],
        cells: 4096,
        strict: false,
        report: "0 failed arith\n0 owes 0.1, 0.3, 0.4, 0.5, 0.6, 0.7, 0.8, 0.9, 0.11\n0.2 done 0\n\
            0.10 done 0\nmarked\n",
        size: 23,
        summary: "size 23 tasks 3 done 2 failed 1 waiting 0 owed 9 cycles 0 result -\nmarked\n",
        joins: NO_JOINS,
    },
    Case {
        shows: "sets of places that aren't there, or are a task's",
        lists: &[
            &[Fork(1, &[], &[]), Fork(2, &[], &[]), Fork(3, &[], &[])],
            &[Set(1, Pay::Num(5))],
            &[Set(0, Pay::Ref(1))],
            &[Set(0, Pay::Num(5))],
        ],
        cells: 4096,
        strict: false,
        report: "0 done 0\n0.1 failed kind\n0.2 failed kind\n0.3 failed kind\nmarked\n",
        size: 24,
        summary: "size 24 tasks 4 done 1 failed 3 waiting 0 owed 0 cycles 0 result 0\nmarked\n",
        joins: NO_JOINS,
    },
    Case {
        shows: "waits for places that aren't there, and an end with one",
        lists: &[
            &[Fork(1, &[], &[]), Fork(2, &[], &[]), Fork(3, &[], &[])],
            &[Join(1)],
            &[GetOr(1)],
            &[End(Pay::Ref(1))],
        ],
        cells: 4096,
        strict: false,
        report: "0 done 0\n0.1 failed kind\n0.2 failed kind\n0.3 failed kind\nmarked\n",
        size: 25,
        summary: "size 25 tasks 4 done 1 failed 3 waiting 0 owed 0 cycles 0 result 0\nmarked\n",
        joins: NO_JOINS,
    },
    Case {
        shows: "a promise passed twice has two places",
        lists: &[
            &[New, Fork(1, &[1, 1], &[1]), Get(1), Emit(7)],
            &[Set(2, Pay::Num(5)), Get(1), Emit(6)],
        ],
        cells: 4096,
        strict: false,
        report: "0 prints 7\n0 done 0\n0.2 prints 6\n0.2 done 0\nclean\n",
        size: 26,
        summary: "size 26 tasks 2 done 2 failed 0 waiting 0 owed 0 cycles 0 result 0\nclean\n",
        joins: NO_JOINS,
    },
    Case {
        shows: "a parent knows its children",
        lists: &[
            &[Fork(1, &[], &[]), Join(1)],
            &[Fork(2, &[], &[]), Fork(2, &[], &[]), Join(1), JoinOr(2)],
            &[],
        ],
        cells: 4096,
        strict: false,
        report: "0 done 0\n0.1 done 0\n0.1.1 done 0\n0.1.2 done 0\nclean\n",
        size: 27,
        summary: "size 27 tasks 4 done 4 failed 0 waiting 0 owed 0 cycles 0 result 0\nclean\n",
        joins: "0 joins 0.1 known\n0.1 joins 0.1.1 known\n0.1 joins 0.1.2 known\n\
            joins 3 known 3 along 0 against 0\n",
    },
    Case {
        shows: "joins of children, three levels deep",
        lists: &[
            &[Fork(1, &[], &[]), Join(1)],
            &[Fork(2, &[], &[]), Fork(3, &[], &[]), Join(1), Join(2)],
            &[Fork(3, &[], &[]), Fork(3, &[], &[]), Join(1), Join(2)],
            &[],
        ],
        cells: 4096,
        strict: false,
        report: "0 done 0\n0.1 done 0\n0.1.1 done 0\n0.1.1.1 done 0\n0.1.1.2 done 0\n0.1.2 done 0\nclean\n",
        size: 28,
        summary: "size 28 tasks 6 done 6 failed 0 waiting 0 owed 0 cycles 0 result 0\nclean\n",
        joins: "0 joins 0.1 known\n0.1 joins 0.1.1 known\n0.1 joins 0.1.2 known\n\
            0.1.1 joins 0.1.1.1 known\n0.1.1 joins 0.1.1.2 known\n\
            joins 5 known 5 along 0 against 0\n",
    },
    Case {
        shows: "a child's child, told by a promise",
        lists: &[
            &[New, Fork(1, &[1], &[1]), Get(1), Join(3)],
            &[Fork(2, &[], &[]), Set(1, Pay::Ref(2))],
            &[],
        ],
        cells: 4096,
        strict: false,
        report: "0 done 0\n0.2 done 0\n0.2.1 done 0\nclean\n",
        size: 29,
        summary: "size 29 tasks 3 done 3 failed 0 waiting 0 owed 0 cycles 0 result 0\nclean\n",
        joins: "0 joins 0.2.1 along\njoins 1 known 0 along 1 against 0\n",
    },
    Case {
        shows: "a child's child, after the join of the child",
        lists: &[
            &[New, Fork(1, &[1], &[1]), Get(1), Join(2), Join(3)],
            &[Fork(2, &[], &[]), Set(1, Pay::Ref(2))],
            &[],
        ],
        cells: 4096,
        strict: false,
        report: "0 done 0\n0.2 done 0\n0.2.1 done 0\nclean\n",
        size: 30,
        summary: "size 30 tasks 3 done 3 failed 0 waiting 0 owed 0 cycles 0 result 0\nclean\n",
        joins: "0 joins 0.2 known\n0 joins 0.2.1 known\njoins 2 known 2 along 0 against 0\n",
    },
    Case {
        shows: "a later sibling",
        lists: &[
            &[
                New,
                Fork(1, &[1], &[]),
                Fork(2, &[], &[]),
                Set(1, Pay::Ref(3)),
            ],
            &[Get(1), Join(2)],
            &[],
        ],
        cells: 4096,
        strict: false,
        report: "0 done 0\n0.2 done 0\n0.3 done 0\nclean\n",
        size: 31,
        summary: "size 31 tasks 3 done 3 failed 0 waiting 0 owed 0 cycles 0 result 0\nclean\n",
        joins: "0.2 joins 0.3 against\njoins 1 known 0 along 0 against 1\n",
    },
    Case {
        shows: "an earlier sibling is inherited",
        lists: &[&[Fork(2, &[], &[]), Fork(1, &[1], &[])], &[Join(1)], &[]],
        cells: 4096,
        strict: false,
        report: "0 done 0\n0.1 done 0\n0.2 done 0\nclean\n",
        size: 32,
        summary: "size 32 tasks 3 done 3 failed 0 waiting 0 owed 0 cycles 0 result 0\nclean\n",
        joins: "0.2 joins 0.1 known\njoins 1 known 1 along 0 against 0\n",
    },
];

/// Asserts that the texts of the program read as its case says.
fn ends_as_told(rt: &impl Abort, alloc: Global, case: &Case) {
    let lists = lists(rt, alloc, case.lists);
    if lists.is_empty() || !is_table(&lists) || case.cells == 0 || case.cells > 16_384 {
        panic!(rt; "no table");
    }
    let outcome = match plan(alloc, &TableBody::new(&lists, 0), case.cells, case.strict) {
        Ok(outcome) => outcome,
        Err(PlanFault::Full) => return reads(rt, case.shows, b"", case.report.as_bytes()),
        Err(PlanFault::Oom) => panic!(rt; "no memory"),
    };
    let Ok(text) = report_text(alloc, &outcome) else {
        panic!(rt; "no memory");
    };
    reads(rt, case.shows, text.as_slice(), case.report.as_bytes());
    let Ok(text) = summary_text(alloc, case.size, &outcome) else {
        panic!(rt; "no memory");
    };
    reads(rt, case.shows, text.as_slice(), case.summary.as_bytes());
    let Ok(lines) = acts(alloc, &TableBody::new(&lists, 0), case.cells) else {
        panic!(rt; "no joins");
    };
    let Ok(joins) = known_joins(alloc, &lines) else {
        panic!(rt; "no memory");
    };
    let Ok(text) = known_text(alloc, &joins) else {
        panic!(rt; "no memory");
    };
    reads(rt, case.shows, text.as_slice(), case.joins.as_bytes());
}

/// Asserts that each program ends as its case says.
fn each_ends_as_told(rt: &impl Abort, alloc: Global, cases: &[Case]) {
    for case in cases {
        ends_as_told(rt, alloc, case);
    }
}

#[test]
fn programs_end_as_told(rt: HostRuntime) {
    each_ends_as_told(&rt, rt.alloc(), ENDINGS);
}

#[test]
fn limits_places_and_joins_are_told(rt: HostRuntime) {
    each_ends_as_told(&rt, rt.alloc(), LIMITS_PLACES_AND_JOINS);
}
