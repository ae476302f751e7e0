//! Where tokens stand, by hand: line, column, and the bytes that they take.
use crate::shown::holds;
use std::alloc::Global;
use std::process::Abort;
use tj_lex::{MAX_TEXT, tokens};

/// A token's line and column, the byte where it begins, and the one behind it.
type Span = (u32, u32, u32, u32);

/// What a row shows, a text, and where its tokens stand.
const ROWS: &[(&str, &[u8], &[Span])] = &[
    ("an empty text", b"", &[(1, 1, 0, 0)]),
    (
        "two bytes make one mark, and apart they make two",
        b"<= < =",
        &[(1, 1, 0, 2), (1, 4, 3, 4), (1, 6, 5, 6), (1, 7, 6, 6)],
    ),
    (
        "tabs and carriage returns are a column each",
        b"\ta\r\n\r\tbc",
        &[(1, 2, 1, 2), (2, 3, 6, 8), (2, 5, 8, 8)],
    ),
    (
        "a comment ends its line",
        b"a # b\n# c\n  d",
        &[(1, 1, 0, 1), (3, 3, 12, 13), (3, 4, 13, 13)],
    ),
    (
        "a comment at the end without a line feed",
        b"ab # c",
        &[(1, 1, 0, 2), (1, 7, 6, 6)],
    ),
    (
        "a line feed at the end",
        b"12ab\n",
        &[(1, 1, 0, 2), (1, 3, 2, 4), (2, 1, 5, 5)],
    ),
];

/// Asserts that the tokens of the text stand so.
fn stand_so(rt: &impl Abort, alloc: Global, shows: &str, text: &[u8], spans: &[Span]) {
    if text.len() > MAX_TEXT {
        panic!(rt; "too long");
    }
    let Ok(found) = tokens(alloc, text) else {
        panic!(rt; "no tokens");
    };
    holds(rt, shows, found.len() == spans.len());
    for (token, span) in found.iter().zip(spans) {
        let is = (token.at.line, token.at.column, token.from, token.to);
        holds(rt, shows, is == *span);
    }
}

#[test]
fn tokens_stand_where_their_bytes_are(rt: HostRuntime) {
    for (shows, text, spans) in ROWS {
        stand_so(&rt, rt.alloc(), shows, text, spans);
    }
}
