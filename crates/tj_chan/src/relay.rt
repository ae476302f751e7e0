//! A relay: the root opens a channel and receives all its items; a first child sends the first
//! half and hands the end on to a child of its own, which sends the rest.
ghost use Rattle.std.specs.Prelude.{◌≡◌, ◌<◌, ◌≤◌, ◌+◌, IfOk};
ghost use Rattle.tj_chan.specs.Chats.{IsFreshChat, most_items};
ghost use Rattle.tj_chan.specs.Relays as relays;
ghost use Rattle.tj_chan.specs.Relays.{relay_channels, relay_awaits, relay_left};

use crate::chat::{ChatAnswer, ChatAsk};
use crate::chatter::Chatter;
use std::alloc::Global;
use tj_base::{Items, Oom, PlaceList, Trouble};

/// What a task of a relay does next.
#[derive(Clone, Copy)]
pub enum Part {
    /// The root opens the channel.
    Opens,
    /// It spawns the first child.
    Spawns,
    /// It receives an item, or ends.
    Receives,
    /// It prints the item.
    Prints,
    /// The first child sends an item of the first half, or spawns the second child.
    Sends,
    /// It ends.
    Ends,
    /// The second child sends an item of the second half, or ends.
    SendsRest,
    /// The task has ended.
    Over,
}

/// A task of a relay.
#[derive(Clone, Copy)]
pub struct Relay {
    part: Part,
    /// The number of items.
    size: u32,
    /// How many of them have been received or sent.
    count: u32,
    /// The sum of the items received.
    sum: i64,
}

/// The root of a relay of k items.
pub fn relay_root(k: u32) -> Relay
    requires size { (0 < k) × (k ≤ most_items) }
    // The relay's root is that of so many items.
    ensures root { result ≡ relays.root_relay k }
    // It has asked nothing yet and has no channel.
    ensures fresh { IsFreshChat relay_channels relay_awaits relay_left 0 result }
    // Answered by a place and by any k values whose partial sums are numbers, the root asks the
    // whole list: it opens the channel, spawns the first child with its end, prints each value as
    // it comes, and ends with their sum; the first child sends 1 to half of k and hands the end on,
    // and the second sends the rest.
    ensures gives { relays.GivesRelay k result }
{
    Relay {
        part: Part::Opens,
        size: k,
        count: 0,
        sum: 0,
    }
}

impl Relay {
    /// The ask, with what the task does next.
    fn turn_to(&mut self, ask: ChatAsk<Relay>, part: Part) -> ChatAsk<Relay>
        ensures ask { result ≡ ask }
        ensures part { self.new ≡ record self.old { part = part } }
    {
        self.part = part;
        ask
    }

    /// Spawns a child with the channel and its end, which begins with this part.
    fn hand_on(&self, alloc: Global, part: Part) -> Result<ChatAsk<Relay>, Oom>
        ensures { IfOk result (λ ask. ask ≡ relays.hand_on part self.now) }
    {
        let body = Relay {
            part,
            size: self.size,
            count: self.count,
            sum: 0,
        };
        Ok(ChatAsk::Spawn {
            body,
            pass: the_channel(alloc)?,
            give: the_channel(alloc)?,
        })
    }

    /// Sends the next item.
    fn send(&mut self) -> ChatAsk<Relay>
        requires { self.old.count < self.old.size }
        ensures ask { result ≡ relays.next_send self.old }
        ensures count { self.new ≡ record self.old { count = self.old.count + 1 } }
    {
        self.count += 1;
        ChatAsk::Send {
            c: 0,
            v: i64::from(self.count),
        }
    }

    /// Asks for the next item, or ends with the sum.
    fn receive_or_end(&mut self) -> ChatAsk<Relay>
        ensures ask { result ≡ (relays.root_turn self.old).ask }
        ensures relay { self.new ≡ (relays.root_turn self.old).relay }
    {
        if self.count < self.size {
            self.turn_to(ChatAsk::Recv { c: 0 }, Part::Prints)
        } else {
            let sum = self.sum;
            self.turn_to(ChatAsk::End(sum), Part::Over)
        }
    }

    /// Sends the next item of the first half, or hands the end on.
    fn send_or_hand_on(&mut self, alloc: Global) -> Result<ChatAsk<Relay>, Oom>
        ensures ask { IfOk result (λ ask. ask ≡ (relays.first_turn self.old).ask) }
        ensures relay { IfOk result (λ _. self.new ≡ (relays.first_turn self.old).relay) }
    {
        if self.count < self.size / 2 {
            return Ok(self.send());
        }
        let spawn = self.hand_on(alloc, Part::SendsRest)?;
        Ok(self.turn_to(spawn, Part::Ends))
    }

    /// Sends the next item of the second half, or ends.
    fn send_or_end(&mut self) -> ChatAsk<Relay>
        ensures ask { result ≡ (relays.second_turn self.old).ask }
        ensures relay { self.new ≡ (relays.second_turn self.old).relay }
    {
        if self.count < self.size {
            self.send()
        } else {
            self.turn_to(ChatAsk::End(0), Part::Over)
        }
    }

    /// Prints the item that was received, and adds it to the sum.
    fn print(&mut self, a: ChatAnswer) -> ChatAsk<Relay>
        requires { self.old.count < self.old.size }
        ensures ask { result ≡ (relays.print_turn a self.old).ask }
        ensures relay { self.new ≡ (relays.print_turn a self.old).relay }
    {
        let ChatAnswer::Num(v) = a else {
            return self.turn_to(ChatAsk::Fail(Trouble::Kind), Part::Over);
        };
        let Some(sum) = self.sum.checked_add(v) else {
            return self.turn_to(ChatAsk::Fail(Trouble::Arith), Part::Over);
        };
        self.sum = sum;
        self.count += 1;
        self.turn_to(ChatAsk::Emit(v), Part::Receives)
    }
}

/// The list of the one channel that each task of a relay has.
fn the_channel(alloc: Global) -> Result<PlaceList, Oom>
    ensures { IfOk result (λ list. list ≡ relays.the_channel) }
{
    Ok(Items::of(Vec::from_array(alloc, [0])?))
}

impl Chatter for Relay {
    ghost use Rattle.tj_chan.specs.Relays.{relay_channels, relay_awaits, relay_left};
    ghost use Rattle.tj_chan.specs.Relays.{relay_asks, relay_then};
    ghost use Rattle.tj_chan.specs.Inner.RelayLaws.{relay_obeys};

    ghost channels = { relay_channels };

    ghost awaits = { relay_awaits };

    ghost left = { relay_left };

    ghost asks = { relay_asks };

    ghost then = { relay_then };

    fn next(&mut self, alloc: Global, a: ChatAnswer) -> Result<ChatAsk<Self>, Oom> {
        let part = self.part;
        match part {
            Part::Opens => Ok(self.turn_to(ChatAsk::Open(self.size), Part::Spawns)),
            Part::Spawns => {
                let spawn = self.hand_on(alloc, Part::Sends)?;
                Ok(self.turn_to(spawn, Part::Receives))
            }
            Part::Receives => Ok(self.receive_or_end()),
            Part::Prints => Ok(self.print(a)),
            Part::Sends => self.send_or_hand_on(alloc),
            Part::SendsRest => Ok(self.send_or_end()),
            Part::Ends | Part::Over => Ok(self.turn_to(ChatAsk::End(0), Part::Over)),
        }
    }

    fn twin(&self, _alloc: Global) -> Result<Self, Oom> {
        Ok(*self)
    }

    ghost obeys = { relay_obeys };
}
