//! A new table: what its loads find, and that nothing has become of its cells.
use crate::shown::holds;
use std::test::Fail;
use tj_base::{CellId, Items};
use tj_body::{RowList, TableBody};
use tj_cells::{Seen, value};
use tj_words::{Head, Laid, Once};

#[test]
fn the_words_of_a_new_table(rt: HostRuntime) -> Result<(), Fail> {
    let lists: [RowList; 1] = [Items::of(Vec::new(rt.alloc()))];
    let (laid, mut seat) = Laid::new(rt.alloc(), 2, TableBody::new(&lists, 0), true)?;
    let root = CellId(0);
    holds(&rt, "the rule is the one given", laid.strict());
    holds(&rt, "the root is ready", laid.live(&mut seat) == 1);
    holds(&rt, "nobody has stopped it", laid.stopped(&mut seat) == 0);
    let parent = laid.see_once(&mut seat, root, Once::Parent);
    holds(&rt, "no parent", parent == 0);
    let depth = laid.see_once(&mut seat, root, Once::Depth);
    holds(&rt, "its depth", depth == 0);
    let jump = laid.see_once(&mut seat, root, Once::Jump);
    holds(&rt, "it jumps to itself", jump == 1);
    let head = laid.head(&mut seat, root);
    holds(&rt, "nobody waits", matches!(head, Head::Empty));
    let next = laid.next_of(&mut seat, CellId(1));
    holds(&rt, "no chain", matches!(next, Head::Empty));
    let seen = value(&laid, &mut seat, root);
    holds(&rt, "it has no value", seen == Seen::NotYet);
    Ok(())
}
