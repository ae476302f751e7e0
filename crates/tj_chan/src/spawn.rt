//! What a spawn passes and hands over, and the rows that the child begins with.
ghost use Rattle.std.specs.Prelude.{◌≡◌, ◌≤◌, ◌<◌, ◌^◌, ◌++◌, [], length, nat_eq, IfOk, IsTrue};
ghost use Rattle.std.specs.List.{flat_map, list_all, list_any};
ghost use Rattle.tj_chan.specs.ChanBodies as bodies;
ghost use Rattle.tj_chan.specs.Channels as channels;
ghost use Rattle.tj_chan.specs.Chats.{most_channels};
ghost use Rattle.tj_chan.specs.Inner.RowLaws.{Bounded};

use crate::rows::{PromiseRow, RowList, add_places, row_at, with_row};
use std::alloc::Global;
use tj_base::{Items, Oom, PlaceList};

/// Whether the channels are there, ends are given of passed channels alone, and each of these
/// ends is held, and given once.
pub fn can_spawn(
    alloc: Global,
    rows: &[PromiseRow],
    pass: &[u32],
    give: &[u32],
) -> Result<bool, Oom>
    requires { bodies.AreRows rows.now }
    ensures { IfOk result (λ can. can ≡ bodies.is_spawn rows.now pass.now give.now) }
{
    if are_there(rows, pass) && are_among(pass, give) {
        can_give(alloc, rows, give)
    } else {
        Ok(false)
    }
}

/// Whether each place is that of a channel.
fn are_there(rows: &[PromiseRow], places: &[u32]) -> bool
    ensures { result ≡ list_all (bodies.is_there rows.now) places.now }
{
    places.iter().all(|place| (*place as usize) < rows.len())
}

/// Whether each channel that is given is passed.
fn are_among(pass: &[u32], give: &[u32]) -> bool
    ensures { result ≡ channels.are_among pass.now give.now }
{
    give.iter().all(|place| is_among(pass, *place))
}

/// Whether the place is one of those that are passed.
fn is_among(pass: &[u32], place: u32) -> bool
    ensures { result ≡ list_any (nat_eq place) pass.now }
{
    pass.iter().any(|passed| place == *passed)
}

/// Whether the ends can be given, one after the other.
fn can_give(alloc: Global, rows: &[PromiseRow], give: &[u32]) -> Result<bool, Oom>
    requires { bodies.AreRows rows.now }
    ensures { IfOk result (λ can. can ≡ bodies.can_give rows.now give.now) }
{
    let mut left = Items::of(Vec::from_slice(alloc, rows)?);
    for place in give {
        if !has_end(left.items(), *place) {
            return Ok(false);
        }
        left = without_end(left, *place);
    }
    Ok(true)
}

/// Whether the task holds the end of the channel at the place.
fn has_end(rows: &[PromiseRow], place: u32) -> bool
    requires { bodies.AreRows rows.now }
    ensures { result ≡ bodies.has_end (bodies.row_at rows.now place) }
{
    match row_at(rows, place) {
        Some(row) => row.holds,
        None => false,
    }
}

/// The rows without the end of the channel at the place.
fn without_end(rows: RowList, place: u32) -> RowList
    requires { bodies.AreRows rows }
    ensures { result ≡ bodies.without_end rows (bodies.row_at rows place) }
{
    let found = row_at(rows.items(), place);
    match found {
        Some(row) => without_the_end(rows, row),
        None => rows,
    }
}

/// The rows without the end of this row.
fn without_the_end(rows: RowList, row: PromiseRow) -> RowList
    requires { row.first < length rows }
    ensures { result ≡ bodies.without_end rows (Some row) }
{
    let mut row = row;
    row.holds = false;
    with_row(rows, row)
}

/// The rows without the ends that are given.
pub fn without_ends(rows: RowList, give: &[u32]) -> RowList
    requires { bodies.AreRows rows }
    ensures { result ≡ bodies.without_ends rows give.now }
{
    let mut left = rows;
    for place in give {
        left = without_end(left, *place);
    }
    left
}

/// Which promises of a channel are meant.
#[derive(Clone, Copy)]
pub enum Promises {
    All,
    /// Those that are still to be set.
    Unset,
}

/// The places of these promises of the channels.
pub fn places_of(
    alloc: Global,
    rows: &[PromiseRow],
    channels: &[u32],
    meant: Promises,
) -> Result<PlaceList, Oom>
    requires rows { bodies.AreRows rows.now }
    requires room { IsTrue (list_all (bodies.is_row bodies.most_row_places) rows.now) }
    ensures { IfOk result (λ list. list
        ≡ flat_map (λ k. bodies.places_in (bodies.row_at rows.now k) meant) channels.now) }
{
    let mut places = Vec::new(alloc);
    for place in channels {
        if let Some(row) = row_at(rows, *place) {
            add_promises(&mut places, row, meant)?;
        }
    }
    Ok(Items::of(places))
}

/// Adds the places of these promises of the row.
fn add_promises(places: &mut Vec<u32>, row: PromiseRow, meant: Promises) -> Result<(), Oom>
    requires { Bounded bodies.most_row_places row }
    ensures { IfOk result (λ _. places.new.items
        ≡ places.old.items ++ bodies.places_in (Some row) meant) }
{
    match meant {
        Promises::All => add_places(places, row.base, row.items),
        Promises::Unset => add_places(places, row.base + row.sent, row.items - row.sent),
    }
}

/// The first place of the channel among those that have been passed, of which the first places
/// that the parent has are told.
fn position(firsts: &[u32], first: u32) -> u32
    requires { length firsts.now < 2 ^ 32 }
    ensures position { result ≡ bodies.position first firsts.now }
    ensures within { result ≤ length firsts.now }
{
    let found = firsts.iter().position(|seen| first == *seen);
    found.unwrap_or(firsts.len()) as u32
}

/// Whether the end of the channel with this first place is given.
fn is_given(rows: &[PromiseRow], give: &[u32], first: u32) -> bool
    requires { bodies.AreRows rows.now }
    ensures { result ≡ bodies.is_given rows.now give.now first }
{
    give.iter()
        .any(|place| first == first_place(row_at(rows, *place)))
}

/// The first place of the channel.
fn first_place(row: Option<PromiseRow>) -> u32
    ensures { result ≡ bodies.first_place row }
{
    match row {
        Some(row) => row.first,
        None => 0,
    }
}

/// The row of a passed channel as the child has it.
fn passed_row(first: u32, base: u32, holds: bool, row: PromiseRow) -> PromiseRow
    ensures { result ≡ bodies.passed_row first base holds (Some row) }
{
    PromiseRow {
        first,
        base,
        items: row.items,
        sent: if holds { row.sent } else { 0 },
        asked: 0,
        holds,
    }
}

/// The rows that the child begins with.
pub fn child_rows(
    alloc: Global,
    rows: &[PromiseRow],
    pass: &[u32],
    give: &[u32],
) -> Result<RowList, Oom>
    requires few { length pass.now ≤ most_channels }
    requires rows { bodies.AreRows rows.now }
    requires room { IsTrue (list_all (bodies.is_row bodies.most_row_places) rows.now) }
    requires there { IsTrue (list_all (bodies.is_there rows.now) pass.now) }
    ensures { IfOk result (λ list. list
        ≡ bodies.passed_rows rows.now give.now [] 1 pass.now) }
{
    let mut made = Vec::new(alloc);
    let mut firsts = Vec::new(alloc);
    let mut base = 1;
    for place in pass {
        // Each place is there, so it has a row.
        let Some(row) = row_at(rows, *place) else {
            return Ok(Items::of(made));
        };
        let holds = is_given(rows, give, row.first);
        let first = position(firsts.as_slice(), row.first);
        made.push(passed_row(first, base, holds, row))?;
        firsts.push(row.first)?;
        base += row.items;
    }
    Ok(Items::of(made))
}
