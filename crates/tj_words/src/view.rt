//! What a seat knows of the table, and what it still has to do: its view. No value of these types is
//! made; a clause reads an array as a list of any length. Cells stand here by their numbers.
use crate::head::Head;
use crate::offsets::Once;
use tj_base::{Items, Sort};
use tj_body::{Entry, Reference};
use tj_events::{Walker, Way};
use tj_record::Rec;

/// What never changes: the root's body, the number of cells, and whether the rule is strict.
#[derive(Drop)]
pub struct About<B> {
    pub root: B,
    pub cells: u32,
    pub strict: bool,
}

/// A cell that the seat has drawn and whose OWN isn't written yet.
#[derive(Drop)]
pub struct Hand {
    pub cell: u32,
    pub maker: u32,
    pub sort: Sort,
    /// Whether PHASE says that it is a promise.
    pub marked: bool,
}

/// What a task does that a seat holds.
#[derive(Drop)]
pub enum Does {
    /// It isn't ready yet.
    Unborn,
    /// It runs, and has had no event.
    Fresh,
    /// It runs.
    Running,
    /// It runs, and has raised OTHERS for a wait that comes next.
    Raised,
    /// It waits for the cell and walks.
    Walking(u32, Way, Walker),
    /// It waits for the cell and has alarmed, at the end of this walk.
    Alarmed(u32, Way, Walker),
}

/// A task that the seat holds.
#[derive(Drop)]
pub struct Custody<B> {
    pub task: u32,
    pub does: Does,
    /// The cells that it owns.
    pub owned: [u32; 0],
    /// How many things it has made, a cell in hand not among them.
    pub made: u32,
    /// Its record, where that lies at home already.
    pub home: Option<Rec<B>>,
}

/// A word that is written once, as the seat has seen or written it.
#[derive(Drop)]
pub struct SeenWord {
    pub cell: u32,
    pub word: Once,
    pub value: u64,
}

/// A word that is written once, which the seat is to write.
#[derive(Drop)]
pub struct Due {
    pub cell: u32,
    pub word: Once,
}

/// A cell with what becomes of it.
#[derive(Drop)]
pub struct Filled {
    pub cell: u32,
    pub entry: Entry,
}

/// A task that the seat parked on the cell. Its push to the chain is still to come, or, where the
/// head was found shut, the exchange that clears its wait.
#[derive(Drop)]
pub struct Push {
    pub task: u32,
    pub cell: u32,
    pub way: Way,
    /// What the seat stored last into NEXT of the task.
    pub next: Option<Head>,
}

/// What is left of the chain of a cell that the seat has shut.
#[derive(Drop)]
pub struct Rest {
    pub cell: u32,
    pub tasks: [u32; 0],
    /// The way of the wait of the first task, once it is read.
    pub way: Option<Way>,
}

/// The chain of a cell as the seat has found it.
#[derive(Drop)]
pub struct Found {
    pub cell: u32,
    pub chain: [u32; 0],
}

/// A step of which no other part of a view tells.
#[derive(Drop)]
pub enum Noted {
    /// A load of LIVE.
    Live,
    /// A load of STOP.
    Stop,
    /// A store of STOP.
    StoredStop,
    /// A load of COUNT.
    Count,
    /// A load of OWN of the cell.
    Owner(u32),
    /// A load of PHASE of the cell.
    Phase(u32),
    /// A load of NEXT of the task.
    Next(u32),
    /// An exchange of PHASE of the task that found another phase than it was to change.
    Missed(u32),
}

/// A step: the word that it found, or that it stored, where it is the store of STOP; and how many
/// words that are written once the seat had loaded before.
// By the count a value that was looked at after LIVE was 0 is told from one looked at before.
#[derive(Drop)]
pub struct Note {
    pub step: Noted,
    pub word: u64,
    pub once_loads: u64,
}

/// What a seat knows and has to do.
#[derive(Drop)]
pub struct View<B> {
    /// Nothing in a view that another has taken in.
    pub about: Option<About<B>>,

    /// How many of each of the next three the seat may have.
    pub lot: u32,
    /// Its draws that found no cell left.
    pub refused: u32,
    /// Its parts of LIVE.
    pub tokens: u32,
    /// The waits that it has cleared and for which it hasn't lowered OTHERS yet.
    pub cleared: u32,

    pub hand: Option<Hand>,
    pub tasks: Items<Custody<B>>,

    /// Cells that it knows to be there.
    pub known: [u32; 0],
    /// What the cells are, from cell 0 on, as far as it knows.
    pub born: [Reference; 0],
    /// Cells whose BITS it has written, with what they are to become.
    pub wrote: [Filled; 0],
    /// Cells of which it knows what has become.
    pub filled: [Filled; 0],

    pub seen: [SeenWord; 0],
    pub dues: [Due; 0],

    pub pushes: [Push; 0],
    /// Cells whose heads it is to shut.
    pub shuts: [u32; 0],
    pub rest: Option<Rest>,
    /// Cells whose heads it has found or made shut.
    pub closed: [u32; 0],
    pub found: [Found; 0],
    /// Whether it has loaded LIVE as 0.
    pub rested: bool,

    /// How many loads it has made that are no event.
    pub plain_loads: u64,
    /// How many words that are written once it has loaded.
    pub once_loads: u64,
    /// How many steps it has made.
    pub steps: u64,
    /// What it loaded from STOP last, 0 at first.
    pub stop: u64,
    /// What it stored into STOP, the last first.
    pub stored: [u64; 0],
    /// What it loaded from STOP, the last first.
    pub told: [u64; 0],
    /// Its steps of which nothing else here tells, the last first.
    pub notes: [Note; 0],
    /// The records that its steps took out of home, the last first, each as it lay there.
    pub records: Items<Rec<B>>,
    /// The records that its steps put home, the last first, each as it lay in its slot.
    pub put_home: Items<Rec<B>>,
}
