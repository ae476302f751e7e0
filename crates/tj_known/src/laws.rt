//! The law of known joins. Code whose proof needs it calls its function, which does nothing.
ghost use Rattle.tj_known.specs.KnownLaws.{KnownJoinsAreAlong};

/// Whatever is told of the joins of a meaning, each known join is along the fork order.
pub fn known_is_along()
    // Law: whatever is told so of lines that meet the condition of `known_joins`, each known join
    // has its task before the joined one.
    ensures { KnownJoinsAreAlong }
{}
