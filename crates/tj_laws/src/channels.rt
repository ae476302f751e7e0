//! The laws of what a receive from a channel gives.
ghost use Rattle.tj_chan.specs.ChannelLaws.{rules_of};
ghost use Rattle.tj_laws.specs.ChannelSends.{AreMeantReceives, AreSendsOnce, ReceivesAreSends};

use tj_chan::Chatter;

/// What a task's i-th receive from a channel gives under the lists of a round is the value of an i-th
/// send into it that succeeds, in the history of a task of that round, whoever held the sending end.
pub fn receives_are_sends<C>()
    // What a task's receive number i from a channel is answered under the lists of a round is the
    // value of a send into that channel that succeeds when i values have been sent into it, in the
    // history of a task of that round, whoever made the end or held it before.
    ensures { ReceivesAreSends C }
{}

/// No two sends into a channel find the same number of values sent; so what a task's i-th receive
/// gives in a meaning that isn't full is the value of the one i-th send.
pub fn sends_are_one<C: Chatter>()
    // For lawful chatters and a root that is fit: of two sends into a channel, in the histories of a
    // round, that succeed when i values have been sent into it, the task is one, the step is one,
    // and the value is one.
    ensures once { AreSendsOnce (rules_of C.channels C.awaits C.left C.asks C.then) }
    // Where their meaning with a limit of cells isn't full, one send in it succeeds when i values
    // have been sent into a channel from which some task's receive number i is answered, and the
    // answer is its value.
    ensures meant { AreMeantReceives (rules_of C.channels C.awaits C.left C.asks C.then) }
{}
