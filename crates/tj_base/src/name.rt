//! Names of cells. A task counts the things that it makes, tasks and promises together, from 1.
//! The k-th is named by its maker's name and k; the root's name is the empty list.
ghost use Rattle.std.specs.Prelude.{ℕ, ◌≡◌, List, [], ◌∷◌, ◌++◌, IfOk, OnErr, IfNone, IfSome, nat_eq, Some, length, refl};
ghost use Rattle.std.specs.Cmp.Lexicographic.{pointwise, nat_list_eq_equiv, on_texts};
ghost use Rattle.std.specs.Cmp.{partial_equiv_from_equiv, partial_order_from_agreeing_total};
ghost use Rattle.tj_base.specs.MapOrder.{key, map_order};
ghost use Rattle.tj_base.specs.MapOrderTies.{keys_tie};
ghost use Rattle.tj_base.specs.Texts.{name_text, parts_text};

use crate::climbs::{LEAP, is_same, leap_to, map_order, put_row};
use crate::memory::Oom;
use crate::text::add_count;
use std::alloc::Global;
use std::cmp::Ordering;
use std::fmt;
use std::marker::Model;
use std::sync::Arc;

/// A cell's name: the numbers from the root on.
// It is kept as its maker's name, which it shares with what else the maker made, and a number. The
// list of its numbers is made only where somebody asks for it. A name of 64 numbers, of 128 and so on
// has its last 64 in a row, too, by which long names are compared.
#[cycle(name)]
pub struct Name {
    // None stands for the root, which takes no memory.
    pub(crate) made: Option<Arc<Made, Global>>,
}

/// How something that a task made is named.
#[cycle(name)]
#[derive(Drop)]
pub struct Made {
    pub maker: Name,
    pub number: u32,
    /// How many numbers the name has.
    pub depth: usize,
    /// Where that is a multiple of `LEAP`: the last `LEAP` of them, and the name before these.
    pub leap: Option<Box<Leap, Global>>,
}

/// The last numbers of a name in a row, and the name before them.
#[cycle(name)]
#[derive(Drop)]
pub struct Leap {
    pub before: Name,
    pub numbers: Vec<u32>,
}

impl Model for Name {
    ghost use Rattle.std.specs.Prelude.{ℕ, ◌≡◌, ◌++◌, ◌∷◌, List, length, suc, IfSome};
    ghost use Rattle.std.specs.Prelude.{[]};
    ghost use Rattle.std.specs.Option.{option_map_or};
    ghost use Rattle.std.proofs.Common.{arith, length-append};
    ghost use Rattle.tj_base.specs.Leaps.{IsLeap};

    ghost Value = { List ℕ };

    ghost view = { λ n. option_map_or (λ made. made.value.maker ++ made.value.number ∷ []) n.made [] };

    ghost invariant = { λ n. IfSome n.made (λ made.
        (made.value.depth ≡ suc (length made.value.maker))
        × IfSome made.value.leap (λ leap. IsLeap (made.value.maker ++ made.value.number ∷ [])
        leap.value.before leap.value.numbers.items)) };

    ghost size = { length };

    ghost size_decreases = { λ a h. Prim.grind (arith, length-append) };
}

// A loop, so that a long name takes no stack.
impl Drop for Name {
    #[cycle(given_back)]
    fn drop(mut self) {
        loop {
            let Name { made } = self;
            let Some(made) = made else {
                return;
            };
            let Some(Made { maker, .. }) = Arc::into_inner(made) else {
                return;
            };
            self = maker;
        }
    }
}

impl Name {
    /// The name of the root task.
    pub fn root() -> Name
        // The root's name is the empty list.
        ensures { result ≡ [] }
    {
        Name { made: None }
    }

    /// The name of the k-th thing that this task makes.
    pub fn child(&self, alloc: Global, k: u32) -> Result<Name, Oom>
        // The name is that of the maker with k at its end.
        ensures { IfOk result (λ name. name ≡ self.now ++ k ∷ []) }
    {
        let Some(depth) = self.depth().checked_add(1) else {
            return Err(Oom);
        };
        let leap = if depth % LEAP == 0 {
            leap_to(self, alloc, k)?
        } else {
            None
        };
        let made = Made {
            maker: self.copy(alloc)?,
            number: k,
            depth,
            leap,
        };
        Ok(Name {
            made: Some(Arc::new(alloc, made)?),
        })
    }

    /// The name that goes on from this one with these numbers.
    pub fn descendant(&self, alloc: Global, numbers: &[u32]) -> Result<Name, Oom>
        // It has the numbers of this name, and then these.
        ensures { IfOk result (λ name. name ≡ self.now ++ numbers.now) }
    {
        let mut name = self.copy(alloc)?;
        for k in numbers {
            name = name.child(alloc, *k)?;
        }
        Ok(name)
    }

    /// An equal name.
    pub fn copy(&self, _alloc: Global) -> Result<Name, Oom>
        // The copy equals the name.
        ensures { IfOk result (λ name. name ≡ self.now) }
    {
        match &self.made {
            None => Ok(Name::root()),
            Some(made) => Ok(Name {
                made: Some(Arc::try_clone(made)?),
            }),
        }
    }

    /// How many numbers the name has.
    #[inline(always)]
    pub fn depth(&self) -> usize
        // It is the length of the name.
        ensures { result ≡ length self.now }
    {
        match &self.made {
            None => 0,
            Some(made) => made.depth,
        }
    }

    /// The last number, and the name of the task that made what is named.
    pub fn split_last(&self) -> Option<(u32, &Name)>
        // None comes exactly for the root.
        ensures none { IfNone result (self.now ≡ []) }
        // Else the name is that of the maker with the number at its end.
        ensures some { IfSome result (λ found. self.now ≡ found.1.now ++ found.0 ∷ []) }
    {
        match &self.made {
            None => None,
            Some(made) => Some((made.number, &made.maker)),
        }
    }

    /// The numbers of the name, from the root on.
    pub fn numbers(&self, alloc: Global) -> Result<Vec<u32>, Oom>
        // It gives the numbers of the name.
        ensures { IfOk result (λ numbers. numbers.items ≡ self.now) }
    {
        let mut numbers = vec![in alloc; 0; self.depth()]?;
        let mut at = self;
        while let Some(made) = &at.made {
            if let Some(leap) = &made.leap {
                let row = leap.numbers.as_slice();
                put_row(numbers.as_mut_slice(), leap.before.depth(), row);
                at = &leap.before;
            } else {
                put_row(numbers.as_mut_slice(), made.maker.depth(), &[made.number]);
                at = &made.maker;
            }
        }
        Ok(numbers)
    }

    /// Adds the printed name, as `0` for the root and `0.3.1` for a name of two numbers.
    pub fn text_into(&self, alloc: Global, out: &mut Vec<u8>) -> Result<(), Oom>
        // After `Ok` the text has grown by exactly the printed name.
        ensures ok { IfOk result (λ _. out.new.items ≡ out.old.items ++ name_text self.now) }
        // After an error the text is as before.
        ensures err { OnErr result (out.new.items ≡ out.old.items) }
    {
        let numbers = self.numbers(alloc)?;
        let mut text = Vec::from_slice(alloc, b"0")?;
        add_parts(numbers.as_slice(), &mut text)?;
        out.extend_from_slice(text.as_slice())?;
        Ok(())
    }
}

/// Adds the text of each of these numbers.
fn add_parts(numbers: &[u32], text: &mut Vec<u8>) -> Result<(), Oom>
    ensures { IfOk result (λ _. text.new.items ≡ text.old.items ++ parts_text numbers.now) }
{
    for number in numbers {
        add_count(text, b".", u128::from(*number))?;
    }
    Ok(())
}

impl fmt::Debug for Name {
    // Climbed from the last number on, as the list would take memory.
    fn fmt<W: fmt::Write>(&self, f: &mut fmt::Formatter<W>) -> fmt::Result {
        f.write_str("Name, from the last number on:")?;
        let mut at = self;
        while let Some(made) = &at.made {
            write!(f, " {}", made.number)?;
            at = &made.maker;
        }
        Ok(())
    }
}

impl PartialEq for Name {
    ghost eq = { pointwise nat_eq };

    ghost laws = { partial_equiv_from_equiv nat_list_eq_equiv };

    fn eq(&self, other: &Name) -> bool {
        is_same(self, other)
    }
}

impl Eq for Name {
    ghost laws = { nat_list_eq_equiv };
}

impl PartialOrd for Name {
    ghost partial_cmp = { λ a b. Some (map_order a b) };

    ghost laws = { partial_order_from_agreeing_total map_order (on_texts key) (λ _ _. refl) keys_tie };

    fn partial_cmp(&self, other: &Name) -> Option<Ordering> {
        Some(self.cmp(other))
    }
}

// The order of a map's keys, by length and then from the last number on: two names mostly differ
// there. Reports are in the order of `name_cmp`.
impl Ord for Name {
    ghost cmp = { map_order };

    ghost total = { on_texts key };

    ghost matches_partial_cmp = { λ _ _. refl };

    ghost matches_eq = { keys_tie };

    fn cmp(&self, other: &Name) -> Ordering {
        map_order(self, other)
    }
}
