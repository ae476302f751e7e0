//! Who made each cell, and the how-many-th thing of its maker it is: enough for its name. The fork
//! order of two tasks is found on the ways from them up to the root.
ghost use Rattle.std.specs.Prelude.{◌≡◌, ℕ, suc, ◌≤◌, ◌<◌, ◌||◌, ◌&&◌, nat_eq, nat_lt, length, slice_index_or, vec_capacity};
ghost use Rattle.tj_core.specs.declared.births.TheConstants.{MAX_CORE_CELLS};
ghost use Rattle.tj_core.specs.Inner.Births.{AreBorn};

use std::alloc::{AllocError, Global};

/// The most cells of a core.
// A number of its own: a root's limit is another, and a script's tasks are counted apart.
pub const MAX_CORE_CELLS: u32 = 1024;

/// The birth of a cell other than the root.
#[derive(Clone, Copy)]
pub(crate) struct Birth {
    pub(crate) maker: u32,
    pub(crate) number: u32,
}

/// The births of a run in order, with room for a given number of cells. The root has none.
#[derive(Drop)]
pub(crate) struct Births {
    pub(crate) births: Vec<Birth>,
    /// How many things each cell has made.
    pub(crate) made: Vec<u32>,
    /// The most cells of the run.
    pub(crate) limit: u32,
    ghost born: { AreBorn births.items },
    ghost few: { (c : ℕ) → slice_index_or made.items c 0 ≤ length births.items },
    ghost same: { length made.items ≡ suc (length births.items) },
    ghost fits: { length made.items ≤ limit },
    ghost room: { limit ≤ vec_capacity births },
    ghost made_room: { limit ≤ vec_capacity made },
    ghost small: { limit ≤ MAX_CORE_CELLS },
}

impl Births {
    ghost use Rattle.std.specs.Prelude.{◌≡◌, ℕ, suc, ◌+◌, ◌-◌, ◌<◌, ◌≤◌, ◌∷◌, ◌++◌, [], IfOk, length, take, slice_index_or, slice_set, replicate};
    ghost use Rattle.tj_base.specs.ForkOrder.{before};
    ghost use Rattle.tj_core.specs.Inner.Births.{name_of, maker_of, birth_at};

    /// The root alone, with room for so many cells.
    pub(crate) fn new(alloc: Global, cells: u32) -> Result<Births, AllocError>
        requires some { 0 < cells }
        requires small { cells ≤ MAX_CORE_CELLS }
        ensures births { IfOk result (λ new. new.births.items ≡ []) }
        ensures made { IfOk result (λ new. new.made.items ≡ 0 ∷ []) }
        ensures limit { IfOk result (λ new. new.limit ≡ cells) }
    {
        let births = Vec::with_capacity(alloc, cells as usize)?;
        let mut made = Vec::with_capacity(alloc, cells as usize)?;
        made.push(0)?;
        Ok(Births {
            births,
            made,
            limit: cells,
        })
    }

    /// How many cells are there.
    pub(crate) fn count(&self) -> u32
        ensures { result ≡ suc (length self.now.births.items) }
    {
        self.births.len() as u32 + 1
    }

    /// The cell `maker` makes one thing more.
    pub(crate) fn add(&mut self, maker: u32)
        requires maker { maker < suc (length self.old.births.items) }
        requires room { suc (length self.old.births.items) < self.old.limit }
        ensures births { let number = suc (slice_index_or self.old.made.items maker 0) in
            let births = self.old.births.items in
            self.new.births.items ≡ births ++ record { maker = maker; number = number } ∷ [] }
        ensures made { let number = suc (slice_index_or self.old.made.items maker 0) in
            self.new.made.items ≡ slice_set self.old.made.items maker number ++ 0 ∷ [] }
        ensures limit { self.new.limit ≡ self.old.limit }
    {
        self.made[maker as usize] += 1;
        let number = self.made[maker as usize];
        let pushed = self.births.push(Birth { maker, number }).is_ok();
        prove!(pushed);
        let pushed = self.made.push(0).is_ok();
        prove!(pushed);
    }

    /// The maker of a cell, the root for the root itself and for a cell that isn't there.
    pub(crate) fn maker(&self, c: u32) -> u32
        ensures maker { result ≡ maker_of self.now.births.items c }
        ensures below { 0 < c → result < c }
    {
        if c == 0 || c as usize > self.births.len() {
            return 0;
        }
        self.births[c as usize - 1].maker
    }

    /// How many makers are above a cell.
    fn depth(&self, c: u32) -> u32
        requires { c < suc (length self.now.births.items) }
        ensures { result ≡ length (name_of self.now.births.items c) }
    {
        let mut above = c;
        let mut depth = 0;
        while above != 0 {
            above = self.maker(above);
            depth += 1;
        }
        depth
    }

    /// The cell so many makers above a cell.
    fn climb(&self, c: u32, steps: u32) -> u32
        requires there { c < suc (length self.now.births.items) }
        requires above { steps ≤ length (name_of self.now.births.items c) }
        ensures there { result < suc (length self.now.births.items) }
        ensures name { let name = name_of self.now.births.items c in
            name_of self.now.births.items result ≡ take (length name - steps) name }
    {
        let mut above = c;
        let mut left = steps;
        while left != 0 {
            above = self.maker(above);
            left -= 1;
        }
        above
    }

    /// Whether task `a` is before task `b` in the fork order. On the way up from equally deep cells
    /// the last difference, the one next to the root, decides.
    fn is_before(&self, a: u32, b: u32) -> bool
        requires first { a < suc (length self.now.births.items) }
        requires second { b < suc (length self.now.births.items) }
        ensures { let births = self.now.births.items in
            result ≡ before (name_of births a) (name_of births b) }
    {
        let (deep_a, deep_b) = (self.depth(a), self.depth(b));
        let mut up_a = self.climb(a, deep_a.saturating_sub(deep_b));
        let mut up_b = self.climb(b, deep_b.saturating_sub(deep_a));
        let mut before = deep_a < deep_b;
        while up_a != 0 {
            let (x, y) = (self.number(up_a), self.number(up_b));
            before = is_later(x, y, before);
            up_a = self.maker(up_a);
            up_b = self.maker(up_b);
        }
        before
    }

    /// The cell itself, or the root for a cell that isn't there, which has as short a name.
    #[tactic(auto, using(crate::proofs::Columns::BirthNames::name_beyond))]
    fn named(&self, c: u32) -> u32
        ensures there { result < suc (length self.now.births.items) }
        ensures name { name_of self.now.births.items result ≡ name_of self.now.births.items c }
    {
        if c < self.count() { c } else { 0 }
    }

    /// Whether the name of `a` is before that of `b` in the fork order.
    pub(crate) fn precedes(&self, a: u32, b: u32) -> bool
        ensures { let births = self.now.births.items in
            result ≡ before (name_of births a) (name_of births b) }
    {
        self.is_before(self.named(a), self.named(b))
    }

    /// The how-many-th thing of its maker a cell is.
    fn number(&self, c: u32) -> u32
        requires some { 0 < c }
        requires there { c < suc (length self.now.births.items) }
        ensures { result ≡ (birth_at self.now.births.items (c - 1)).number }
    {
        self.births[c as usize - 1].number
    }
}

/// Whether the fork with the number x is later than that with y, or they are one and `below` holds.
fn is_later(x: u32, y: u32, below: bool) -> bool
    ensures { result ≡ (nat_lt y x || (nat_eq x y && below)) }
{
    y < x || (x == y && below)
}
