//! What a step tells: what the caller's play tells, and that the log is longer by this step.
ghost use Rattle.tj_log.specs.Logs.{cut, glued, gone, logging};

use crate::entry::Logged;
use crate::table::LogRule;
use atomic_table::{Join, Play, Split};
use std::marker::PhantomData;

/// What a step does with its word.
pub(crate) trait Does {
    ghost use Rattle.tj_log.specs.declared.entry.Did.{Did};

    ghost did: { Did };
}

pub(crate) struct Loads;

impl Does for Loads {
    ghost use Rattle.tj_log.specs.declared.entry.Did.TheVariants.{Load};

    ghost did = { Load };
}

pub(crate) struct Stores;

impl Does for Stores {
    ghost use Rattle.tj_log.specs.declared.entry.Did.TheVariants.{Store};

    ghost did = { Store };
}

pub(crate) struct Swaps;

impl Does for Swaps {
    ghost use Rattle.tj_log.specs.declared.entry.Did.TheVariants.{Swap};

    ghost did = { Swap };
}

pub(crate) struct Adds;

impl Does for Adds {
    ghost use Rattle.tj_log.specs.declared.entry.Did.TheVariants.{Add};

    ghost did = { Add };
}

pub(crate) struct Subs;

impl Does for Subs {
    ghost use Rattle.tj_log.specs.declared.entry.Did.TheVariants.{Sub};

    ghost did = { Sub };
}

pub(crate) struct Exchanges;

impl Does for Exchanges {
    ghost use Rattle.tj_log.specs.declared.entry.Did.TheVariants.{Exchange};

    ghost did = { Exchange };
}

/// The caller's play, with the step in the log.
pub(crate) struct Logging<M, O> {
    play: PhantomData<(M, O)>,
}

impl<S, V, M: Play<S, V>, O: Does> Play<S, Logged<V>> for Logging<M, O> {
    ghost then = { logging O.did M.then };
}

/// The caller's way to cut a view in two, and to make one of two.
pub(crate) struct Halves<S, K, P> {
    rule: PhantomData<(S, K, P)>,
}

impl<S, V, K, P: LogRule<S, V, K>> Split<Logged<V>> for Halves<S, K, P> {
    ghost left = { cut P.left };

    ghost right = { λ v. gone (P.right v.own) };
}

impl<S, V, K, P: LogRule<S, V, K>> Join<Logged<V>> for Halves<S, K, P> {
    ghost both = { glued P.both };

    ghost spent = { gone P.spent };
}
