//! The fork order on tasks: as a plain list, by a tree with jump pointers, and over any reader of
//! nodes.
#![tactic(auto)]

mod before;
mod laws;
mod list;
mod node;
mod reader;
mod tree;

pub use before::before_in;
pub use laws::{
    later_forks_keep_order, links_lead_to_tasks, names_tell_order, none_is_before_itself,
    order_is_that_of_names, order_is_total, order_is_transitive,
};
pub use list::OrderList;
pub use node::{Node, NodeId, TaskNode};
pub use reader::NodeReader;
pub use tree::ForkTree;
