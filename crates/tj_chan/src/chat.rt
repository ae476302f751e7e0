//! What a chatter asks of its channels, and what it is answered. A chatter names channels by
//! places in its task's list: first come the passed channels in order, then those that it opens.
use tj_base::{PlaceList, Trouble};

/// What a chatter is answered.
#[derive(Clone, Copy)]
pub enum ChatAnswer {
    /// It has asked nothing yet.
    Start,
    /// The channel is open, and has this place.
    Chan(u32),
    /// It is done.
    Done,
    /// The value received.
    Num(i64),
}

/// What a chatter asks.
#[derive(Drop)]
pub enum ChatAsk<C> {
    /// Opens a channel of so many items, and holds its sending end.
    Open(u32),
    /// Sends a value by the channel, whose end the task holds.
    Send {
        c: u32,
        v: i64,
    },
    /// Waits for the channel's next item that the task hasn't received yet.
    Recv {
        c: u32,
    },
    /// Starts a task that is passed these channels and given the ends of those.
    Spawn {
        body: C,
        pass: PlaceList,
        give: PlaceList,
    },
    /// Prints a number.
    Emit(i64),
    /// Ends well, with this result.
    End(i64),
    /// Fails.
    Fail(Trouble),
}
