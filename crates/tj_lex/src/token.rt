//! What stands in a script: tokens, and the faults of a text that is none.
use crate::place::Place;
use crate::word::Word;

/// A token, its position, and the bytes of the text that it takes: those from `from` up to `to`.
#[derive(Drop)]
pub struct Token {
    pub what: Tok,
    pub at: Place,
    pub from: u32,
    pub to: u32,
}

/// What a token is.
#[derive(Drop)]
pub enum Tok {
    Name(Word),
    Num(i64),
    Key(Key),
    Mark(Mark),
    End,
}

/// The keywords.
#[derive(Clone, Copy, PartialEq, Eq)]
pub enum Key {
    Task,
    Let,
    If,
    Else,
    While,
    Print,
    Set,
    Return,
    New,
    Fork,
    Own,
    Get,
    Join,
    Me,
    Or,
}

/// The marks, in the order `( ) { } , ; = == != < <= > >= + - * / %`.
#[derive(Clone, Copy, PartialEq, Eq)]
pub enum Mark {
    ParenOpen,
    ParenClose,
    BraceOpen,
    BraceClose,
    Comma,
    Semi,
    Assign,
    Eq,
    Ne,
    Lt,
    Le,
    Gt,
    Ge,
    Plus,
    Minus,
    Times,
    Over,
    Rest,
}

/// Why a text has no tokens.
// It has an `Oom` of its own, so that the crate uses nothing of tj_base.
#[derive(Clone, Copy, Debug)]
pub enum LexFault {
    /// A byte that begins no token.
    Byte(Place),
    /// A number that is too great, at its first digit.
    Number(Place),
    /// A name that is too long, at its first byte.
    Long(Place),
    /// Memory could not be had.
    Oom,
}
