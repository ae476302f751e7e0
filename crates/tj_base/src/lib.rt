//! Names of tasks and promises with their two orders, causes of failure, and the small lists,
//! counters and printed numbers that every crate above shares.
#![tactic(auto)]

mod cause;
mod cell;
mod climbs;
mod items;
mod memory;
mod name;
mod order;
mod step_count;
mod text;
mod value;

pub use cause::{Cause, Trouble};
pub use cell::{CellId, MAX_CELLS, Sort};
pub use items::{ByteList, CellList, Items, NameList, NumList, PlaceList};
pub use memory::Oom;
pub use name::Name;
pub use order::{name_cmp, path_before};
pub use step_count::Steps;
pub use text::{add_count, add_number, add_signed};
pub use value::{Pay, Shown};
