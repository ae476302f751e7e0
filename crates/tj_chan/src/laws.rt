//! The law of channels. Code whose proof needs it calls its function, which does nothing, and the
//! proof cites what the call ensures.
ghost use Rattle.tj_chan.specs.ChannelLaws.{rules_of, ChannelsAreLists};

use crate::chatter::Chatter;

/// The program of a chatter's body is full exactly where the rounds over lists are, and its
/// outcome is theirs.
pub fn channels_are_lists<C: Chatter>()
    // Law: so it is for each lawful chatter and each root that is fit.
    ensures { ChannelsAreLists (rules_of C.channels C.awaits C.left C.asks C.then) }
{}
