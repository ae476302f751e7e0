//! Channels as a task's body knows them: each is a row of promises, of which those in front are
//! set. A task may have one channel at two places; what it did with it stands at the first.
ghost use Rattle.std.specs.Prelude.{◌≡◌, ◌<◌, ◌+◌, ◌^◌, ◌++◌, length, IfOk, IfSome};
ghost use Rattle.tj_chan.specs.ChanBodies as bodies;

use tj_base::{Items, Oom};

/// A channel as the body of a task knows it.
#[derive(Clone, Copy)]
pub struct PromiseRow {
    /// The first place at which the task has this channel.
    pub first: u32,
    /// The place of the first promise in the task's list of references.
    pub base: u32,
    /// How many promises there are.
    pub items: u32,
    /// How many of them are set; it is right where the task holds the end.
    pub sent: u32,
    /// How many of them the task has asked for.
    pub asked: u32,
    /// Whether the task holds the sending end.
    pub holds: bool,
}

/// Rows of promises, by the places of their channels.
pub type RowList = Items<PromiseRow>;

/// The row that has what the task did with the channel at the place.
pub fn row_at(rows: &[PromiseRow], place: u32) -> Option<PromiseRow>
    requires { bodies.AreRows rows.now }
    ensures row { result ≡ bodies.row_at rows.now place }
    ensures there { IfSome result (λ r. (r.first < length rows.now) × (place < length rows.now)) }
{
    let at = place as usize;
    if at < rows.len() {
        Some(rows[rows[at].first as usize])
    } else {
        None
    }
}

/// The rows with this one at its first place.
pub fn with_row(rows: RowList, row: PromiseRow) -> RowList
    requires { row.first < length rows }
    ensures { result ≡ bodies.with_row rows row }
{
    let mut list = rows.into_vec();
    list[row.first as usize] = row;
    Items::of(list)
}

/// Adds the places of so many promises from this one on.
pub fn add_places(places: &mut Vec<u32>, from: u32, count: u32) -> Result<(), Oom>
    requires { from + count < 2 ^ 32 }
    ensures { IfOk result (λ _. places.new.items
        ≡ places.old.items ++ bodies.places_from from count) }
{
    for k in 0..count {
        places.push(from + k)?;
    }
    Ok(())
}
