//! A chatter as a body. Open becomes as many asks New as the channel has items, Send a Set, Recv
//! a Get, and Spawn a Fork that passes all promises of the passed channels and hands the unset
//! ones of the given. So a promise is set by the holder of the end alone, one after the other,
//! and a holder that ends owes and breaks those that it hasn't set.
ghost use Rattle.std.specs.Prelude.{◌≡◌, ◌<◌, ◌≤◌, length, IfOk, IsTrue};
ghost use Rattle.std.specs.List.{list_all};
ghost use Rattle.tj_body.specs.Asks as asks;
ghost use Rattle.tj_chan.specs.ChanBodies as bodies;
ghost use Rattle.tj_chan.specs.Inner.Replies as replies;

use crate::chat::{ChatAnswer, ChatAsk};
use crate::chatter::Chatter;
use crate::laws::channels_are_lists;
use crate::rows::{PromiseRow, RowList, row_at, with_row};
use crate::spawn::{Promises, can_spawn, child_rows, places_of, without_ends};
use std::alloc::Global;
use std::mem::replace;
use tj_base::{Items, Oom, Pay, PlaceList, Trouble};
use tj_body::{Answer, Ask, Body, new_places};

/// What a body is to be answered next.
#[derive(Clone, Copy)]
pub enum Due {
    /// The first answer.
    Start,
    /// The place of a promise of the channel that is being opened: of its `items` promises `more`
    /// are to be made after this one.
    Promise { more: u32, items: u32 },
    /// Word that a promise is set or a number printed.
    Done,
    /// The value of an item.
    Item,
    /// The place of a child.
    Child,
    /// Nothing after the last ask.
    Nothing,
}

/// The body of a task whose code is a chatter.
#[derive(Drop)]
pub struct ChanBody<C> {
    chatter: C,
    /// Its channels, in the order of their places.
    rows: RowList,
    /// How many places the task has in the runtime.
    places: u32,
    due: Due,
}

impl<C: Chatter> ChanBody<C> {
    ghost use Rattle.tj_body.specs.Asks.{IsFresh};
    ghost use Rattle.tj_chan.specs.Chats.{IsFreshChat};
    ghost use Rattle.tj_chan.specs.ChanBodies.{chan_places, chan_awaits, chan_left};
    ghost use Rattle.tj_chan.specs.ChannelLaws.{rules_of, IsMeantByLists};

    /// The body of a root with this chatter.
    // It asks for a chatter without a channel, since a root is passed none.
    pub fn new(alloc: Global, root: C) -> Result<ChanBody<C>, Oom>
        requires root { IsFreshChat C.channels C.awaits C.left 0 root }
        // The body of a root has asked nothing yet and has one place.
        ensures fresh { let rules = rules_of C.channels C.awaits C.left C.asks C.then in
            IfOk result (IsFresh chan_places (chan_awaits rules) (chan_left rules) 1) }
        // It is that of the root's chatter, without a channel.
        ensures root { IfOk result (λ body. body ≡ bodies.root_body root) }

        // Under either rule and with each number of cells, the body's program is full exactly if
        // the rounds over lists are. Its outcome is theirs: the i-th receive of a task from a
        // channel is answered by the i-th value of its list.
        ensures lists { let rules = rules_of C.channels C.awaits C.left C.asks C.then in
            IfOk result (λ body. IsMeantByLists rules root body) }
    {
        channels_are_lists::<C>();
        Ok(ChanBody {
            chatter: root,
            rows: Items::of(Vec::new(alloc)),
            places: 1,
            due: Due::Start,
        })
    }
}

impl<C: Drop> ChanBody<C> {
    ghost use Rattle.tj_chan.specs.ChanBodies.{is_row, most_rows, most_row_places};
    ghost use Rattle.tj_chan.specs.Chats.{most_channels};
    ghost use Rattle.tj_body.specs.declared.ask.Ask.TheVariants as ask;
    ghost use Rattle.tj_chan.specs.declared.chat.ChatAnswer.TheVariants as ChatAnswer;
    ghost use Rattle.tj_chan.specs.declared.body.Due.TheVariants as Due;

    /// What the chatter asks is asked.
    fn asked(&mut self, alloc: Global, ask: ChatAsk<C>) -> Result<Ask<Self>, Oom>
        requires few { replies.IsFew ask }
        requires rows { bodies.AreRows self.old.rows }
        requires places { IsTrue (list_all (is_row self.old.places) self.old.rows) }
        requires room { self.old.places ≤ most_row_places }
        ensures ask { IfOk result (λ x. x ≡ (bodies.ask_turn ask self.old).ask) }
        ensures body { IfOk result (λ _. self.new ≡ (bodies.ask_turn ask self.old).body) }
    {
        match ask {
            ChatAsk::Open(items) => Ok(self.make(items - 1, items)),
            ChatAsk::Send { c, v } => Ok(self.send(alloc, c, v)),
            ChatAsk::Recv { c } => Ok(self.receive(alloc, c)),
            ChatAsk::Spawn { body, pass, give } => self.spawn(alloc, body, &pass, &give),
            ChatAsk::Emit(i) => Ok(self.due_after(Ask::Emit(i), Due::Done)),
            ChatAsk::End(v) => Ok(self.due_after(Ask::End(Pay::Num(v)), Due::Nothing)),
            ChatAsk::Fail(trouble) => Ok(self.due_after(Ask::Fail(trouble), Due::Nothing)),
        }
    }

    /// What the chatter is told of the answer, with the channel whose last promise it is; nothing
    /// where the body goes on without its chatter.
    fn told(&mut self, a: Answer) -> Result<Option<ChatAnswer>, Oom>
        requires { replies.CanOpen self.old.due self.old.places (length self.old.rows) }
        ensures told { IfOk result (λ t. t
            ≡ replies.told_at self.old.due a (length self.old.rows)) }
        ensures body { IfOk result (λ _. self.new ≡ replies.opened self.old.due self.old) }
    {
        let due = self.due;
        match due {
            Due::Start => Ok(Some(ChatAnswer::Start)),
            Due::Promise { more, items } => {
                if more > 0 {
                    return Ok(None);
                }
                let opened = self.open(items)?;
                Ok(Some(opened))
            }
            Due::Done | Due::Child => Ok(Some(ChatAnswer::Done)),
            Due::Item => Ok(received(a)),
            Due::Nothing => Ok(None),
        }
    }

    /// The body goes on without its chatter: it makes the channel's next promise, or fails.
    fn go_on(&mut self) -> Ask<Self>
        ensures ask { result ≡ (replies.next_promise self.old.due self.old).ask }
        ensures body { self.new ≡ (replies.next_promise self.old.due self.old).body }
    {
        let due = self.due;
        match due {
            Due::Promise { more, items } => {
                if more > 0 {
                    self.make(more - 1, items)
                } else {
                    self.fault()
                }
            }
            Due::Start | Due::Done | Due::Item | Due::Child | Due::Nothing => self.fault(),
        }
    }

    /// The ask, with what is due after it.
    fn due_after(&mut self, ask: Ask<Self>, due: Due) -> Ask<Self>
        ensures ask { result ≡ ask }
        ensures due { self.new ≡ record self.old { due = due } }
    {
        self.due = due;
        ask
    }

    /// The task fails for a fault of kind.
    fn fault(&mut self) -> Ask<Self>
        ensures ask { result ≡ (bodies.fault self.old).ask }
        ensures body { self.new ≡ (bodies.fault self.old).body }
    {
        self.due_after(Ask::Fail(Trouble::Kind), Due::Nothing)
    }

    /// Makes a promise of a channel, after which so many more are to be made.
    fn make(&mut self, more: u32, items: u32) -> Ask<Self>
        ensures ask { result ≡ ask.New }
        ensures due { self.new ≡ record self.old { due = Due.Promise more items } }
    {
        self.due_after(Ask::New, Due::Promise { more, items })
    }

    /// Changes a row.
    fn change(&mut self, alloc: Global, row: PromiseRow)
        requires { row.first < length self.old.rows }
        ensures { self.new ≡ bodies.changed row self.old }
    {
        let rows = replace(&mut self.rows, Items::of(Vec::new(alloc)));
        self.rows = with_row(rows, row);
    }

    /// Sets the next promise of the channel.
    fn send(&mut self, alloc: Global, c: u32, v: i64) -> Ask<Self>
        requires rows { bodies.AreRows self.old.rows }
        requires places { IsTrue (list_all (is_row self.old.places) self.old.rows) }
        requires room { self.old.places ≤ most_row_places }
        ensures ask { result ≡ (bodies.send_turn (bodies.row_at self.old.rows c) v self.old).ask }
        ensures body { self.new
            ≡ (bodies.send_turn (bodies.row_at self.old.rows c) v self.old).body }
    {
        let Some(mut row) = row_at(self.rows.items(), c) else {
            return self.fault();
        };
        if !row.holds || row.sent >= row.items {
            return self.fault();
        }
        let set = Ask::Set {
            p: row.base + row.sent,
            v: Pay::Num(v),
        };
        row.sent += 1;
        self.change(alloc, row);
        self.due_after(set, Due::Done)
    }

    /// Asks for the next promise of the channel that the task hasn't asked for.
    fn receive(&mut self, alloc: Global, c: u32) -> Ask<Self>
        requires rows { bodies.AreRows self.old.rows }
        requires places { IsTrue (list_all (is_row self.old.places) self.old.rows) }
        requires room { self.old.places ≤ most_row_places }
        ensures ask { result ≡ (bodies.receive_turn (bodies.row_at self.old.rows c) self.old).ask }
        ensures body { self.new
            ≡ (bodies.receive_turn (bodies.row_at self.old.rows c) self.old).body }
    {
        let Some(mut row) = row_at(self.rows.items(), c) else {
            return self.fault();
        };
        if row.asked >= row.items {
            return self.fault();
        }
        let get = Ask::Get {
            p: row.base + row.asked,
        };
        row.asked += 1;
        self.change(alloc, row);
        self.due_after(get, Due::Item)
    }

    /// Forks a task with all promises of the passed channels and the unset ones of the given.
    fn spawn(
        &mut self,
        alloc: Global,
        chatter: C,
        pass: &PlaceList,
        give: &PlaceList,
    ) -> Result<Ask<Self>, Oom>
        requires few { length pass.now ≤ most_channels }
        requires rows { bodies.AreRows self.old.rows }
        requires places { IsTrue (list_all (is_row self.old.places) self.old.rows) }
        requires room { self.old.places ≤ most_row_places }
        ensures ask { IfOk result (λ ask. ask
            ≡ (bodies.spawn_turn chatter pass.now give.now self.old).ask) }
        ensures body { IfOk result (λ _. self.new
            ≡ (bodies.spawn_turn chatter pass.now give.now self.old).body) }
    {
        if !can_spawn(alloc, self.rows.items(), pass.items(), give.items())? {
            return Ok(self.fault());
        }
        let passed = places_of(alloc, self.rows.items(), pass.items(), Promises::All)?;
        let handed = places_of(alloc, self.rows.items(), give.items(), Promises::Unset)?;
        let body = ChanBody {
            chatter,
            rows: child_rows(alloc, self.rows.items(), pass.items(), give.items())?,
            places: passed.items().len() as u32 + 1,
            due: Due::Start,
        };
        let rows = replace(&mut self.rows, Items::of(Vec::new(alloc)));
        self.rows = without_ends(rows, give.items());
        let fork = Ask::Fork {
            body,
            pass: passed,
            hand: handed,
        };
        Ok(self.due_after(fork, Due::Child))
    }

    /// The channel whose promises were made last is open, and the task holds its end.
    fn open(&mut self, items: u32) -> Result<ChatAnswer, Oom>
        requires items { items ≤ self.old.places }
        requires few { length self.old.rows < most_rows }
        ensures place { IfOk result (λ a. a ≡ ChatAnswer.Chan (length self.old.rows)) }
        ensures row { IfOk result (λ _. self.new ≡ bodies.with_channel items self.old) }
    {
        let place = self.rows.items().len() as u32;
        self.rows.push(PromiseRow {
            first: place,
            base: self.places - items,
            items,
            sent: 0,
            asked: 0,
            holds: true,
        })?;
        Ok(ChatAnswer::Chan(place))
    }
}

/// What the chatter is told of an item's value; a promise of a channel is never set to a reference.
fn received(a: Answer) -> Option<ChatAnswer>
    ensures { result ≡ replies.told_of_item a }
{
    match a {
        Answer::Num(v) => Some(ChatAnswer::Num(v)),
        Answer::Start | Answer::Local(_) | Answer::Done | Answer::RefAt(_) | Answer::Lost => None,
    }
}

impl<C: Chatter> Body for ChanBody<C> {
    ghost use Rattle.tj_chan.specs.ChanBodies.{chan_places, chan_awaits, chan_left};
    ghost use Rattle.tj_chan.specs.ChanBodies.{chan_asks, chan_then};
    ghost use Rattle.tj_chan.specs.ChannelLaws.{rules_of};
    ghost use Rattle.tj_chan.specs.Inner.ChanBodyLaws.{chan_obeys};

    ghost places = { chan_places };

    ghost awaits = { chan_awaits (rules_of C.channels C.awaits C.left C.asks C.then) };

    ghost left = { chan_left (rules_of C.channels C.awaits C.left C.asks C.then) };

    ghost asks = { chan_asks (rules_of C.channels C.awaits C.left C.asks C.then) };

    ghost then = { chan_then (rules_of C.channels C.awaits C.left C.asks C.then) };

    fn next(&mut self, alloc: Global, a: Answer) -> Result<Ask<Self>, Oom> {
        self.places += new_places(a);
        match self.told(a)? {
            Some(told) => {
                let ask = self.chatter.next(alloc, told)?;
                self.asked(alloc, ask)
            }
            None => Ok(self.go_on()),
        }
    }

    fn twin(&self, alloc: Global) -> Result<Self, Oom> {
        Ok(ChanBody {
            chatter: self.chatter.twin(alloc)?,
            rows: Items::of(Vec::from_slice(alloc, self.rows.items())?),
            places: self.places,
            due: self.due,
        })
    }

    ghost obeys = { chan_obeys (rules_of C.channels C.awaits C.left C.asks C.then) C.obeys };
}
