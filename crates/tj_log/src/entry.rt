//! What a log says of a step. No value of these types is made; a clause reads an array as a list of any length.
ghost use Rattle.std.specs.Borrow.{ftrue};
ghost use Rattle.std.specs.Prelude.{List};
ghost use base.Stored.{coded_list};

use std::marker::{Model, PhantomData};

/// What a step does with its word.
pub enum Did {
    Load,
    Store,
    Swap,
    Add,
    Sub,
    Exchange,
}

/// A step: what it did with which word, its operands (0 where there is none), and the number that it found there; of a
/// store, the number that it stored.
pub struct Entry {
    pub did: Did,
    pub word: u64,
    pub first: u64,
    pub second: u64,
    pub found: u64,
}

/// The views that a seat had: lists that take no memory, whatever a view is.
pub struct Befores<V> {
    of: PhantomData<V>,
    /// Before each of its own steps, the last first.
    pub ghost views: { List V } by { coded_list V.code },
    /// For each log that it has taken in, those before the steps of that log.
    pub ghost taken: { List (List V) } by { coded_list (coded_list V.code) },
}

impl<V> Model for Befores<V> {
    ghost also_owns = { λ _. ftrue };
}

/// What a seat knows, beside its log.
pub struct Logged<V> {
    /// The caller's view.
    pub own: V,
    /// The seat's own steps, the last first.
    pub log: [Entry; 0],
    /// The logs of the seats that it has taken in, each whole.
    pub took: [[Entry; 0]; 0],
    /// Whether it is the first seat, which was never split and has taken in none.
    pub lone: bool,
    /// The numbers of the slots that its last step left it with, that of the slot taken last in front.
    pub slots: [u64; 0],
    /// The caller's view before each step of these logs.
    pub befores: Befores<V>,
}
