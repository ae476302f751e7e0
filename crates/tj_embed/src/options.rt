//! The limits of a run, the number of its workers and its rule, and how a root is run by them.
ghost use Rattle.std.specs.Prelude.{◌≡◌, false, IfOk, IfErr};
ghost use Rattle.tj_body.specs.Asks.{IsFresh};
ghost use Rattle.tj_body.specs.Programs.{program_of};
ghost use Rattle.tj_body.specs.Rounds.{IsFull};
ghost use Rattle.tj_embed.specs.Limits.{AreLimits};
ghost use Rattle.tj_run.specs.Runs.{RestsAt};

use std::alloc::Global;
use std::sync::Wait;
use std::thread::Threads;
use tj_body::Body;
use tj_ports::OpenGate;
use tj_ready::NewestFirstPool;
use tj_run::{RunFault, run_all};
use tj_words::RestWords;

/// How many workers run the tasks, from 1 to 64; how many cells, which are promises and tasks, they
/// may make, from 1 to 1,048,576; how many statements each task of a script may begin, from 1 to
/// 1,000,000; and whether a join against the fork order fails at once.
#[derive(Clone, Copy, Debug, PartialEq, Eq)]
pub struct Options {
    pub workers: u32,
    pub cells: u32,
    pub steps: u32,
    pub strict: bool,
}

impl Options {
    /// What the program `tj` takes where its words say nothing else.
    pub fn usual() -> Options
        // The options that stand where nothing else is said are within the limits: four workers,
        // 4,096 cells, 100,000 statements a task, no strict rule.
        ensures limits { AreLimits result }
        ensures exact { result ≡ record {
          workers = 4;
          cells = 4096;
          steps = 100000;
          strict = false;
        } }
    {
        Options {
            workers: 4,
            cells: 4096,
            steps: 100_000,
            strict: false,
        }
    }

    /// Runs a root and all that it forks to their rest, as these say.
    pub(crate) fn run<B: Body, R: Wait + Threads + Sync>(
        self,
        rt: &R,
        alloc: Global,
        root: B,
    ) -> Result<RestWords<B>, RunFault>
        requires limits { AreLimits self }
        requires root { IsFresh B.places B.awaits B.left 1 root }
        ensures rest { IfOk result (RestsAt
            (program_of B.places B.awaits B.left B.asks B.then) root self.cells self.strict) }
        ensures fits { IfOk result (λ _. ¬ IsFull
            (program_of B.places B.awaits B.left B.asks B.then self.strict root) self.cells) }
        ensures full { IfErr result (λ fault. fault ≡ RunFault.Full → IsFull
            (program_of B.places B.awaits B.left B.asks B.then self.strict root) self.cells) }
    {
        run_all::<B, NewestFirstPool, OpenGate, R>(
            rt,
            alloc,
            root,
            self.cells,
            self.workers,
            &OpenGate,
            self.strict,
        )
    }
}
