//! What is told, with what was told already.
ghost use Rattle.tj_body.specs.Points.{IsIn};
ghost use Rattle.std.specs.Prelude.{◌≡◌, ◌≢◌, ◌⊎◌, ◌++◌, ℕ, [], ◌∷◌, true, false, get_or};
ghost use Rattle.std.specs.Prelude.{Ok, IfOk, IfErr};
ghost use Rattle.std.specs.List.{list_any};
ghost use Rattle.tj_told.specs.Hearing.{HearsOn, IsStoppedOn};
ghost use Rattle.tj_told.specs.ToldNews.{AddsTo, tells_cycle};
ghost use Rattle.tj_told.specs.declared.news.News.TheVariants as told;

use crate::copies::{copy_of, copy_of_value, is_among};
use crate::listener::{Goes, Listener};
use crate::news::{News, NewsList, has_value};
use std::alloc::Global;
use tj_base::{CellId, Items, Name, Oom, Shown};
use tj_mean::LinkList;

/// A listener with what it was told, and the cells of which nothing more is to be told.
#[derive(Drop)]
pub(crate) struct Telling<T> {
    pub(crate) listener: T,
    pub(crate) news: NewsList,
    pub(crate) met: Vec<bool>,
}

impl<T: Listener> Telling<T> {
    /// Nothing was told yet.
    pub(crate) fn new(alloc: Global, listener: T) -> Telling<T>
        ensures listener { result.listener ≡ listener }
        ensures news { result.news ≡ [] }
    {
        Telling {
            listener,
            news: Items::of(Vec::new(alloc)),
            met: Vec::new(alloc),
        }
    }

    /// Whether this cycle was told.
    pub(crate) fn has(&self, links: &LinkList) -> bool
        ensures { result ≡ list_any (tells_cycle links.now) self.now.news }
    {
        is_among(links, self.news.items())
    }

    /// Tells a cycle that wasn't told yet.
    pub(crate) fn tell_new(&mut self, alloc: Global, links: &LinkList) -> Result<Goes, Oom>
        ensures adds { IfOk result (λ _. AddsTo (told.Cycle links.now) self.old.news
            self.new.news) }
        ensures only { (d : News) → IsIn d self.new.news
            → (d ≡ told.Cycle links.now) ⊎ IsIn d self.old.news }
        ensures met { self.new.met ≡ self.old.met }
        ensures goes { HearsOn T.tells self.old self.new (result ≢ Ok Goes.Stop) }
        ensures stops { IsStoppedOn T.tells self.old self.new (result ≡ Ok Goes.Stop) }
    {
        if self.has(links) {
            return Ok(Goes::On);
        }
        self.tell(alloc, links)
    }

    /// Tells a cycle.
    fn tell(&mut self, alloc: Global, links: &LinkList) -> Result<Goes, Oom>
        ensures news { IfOk result (λ _. self.new.news
            ≡ self.old.news ++ told.Cycle links.now ∷ []) }
        ensures tells { IfOk result (λ goes. T.tells self.old.listener (told.Cycle links.now) goes
            self.new.listener) }
        ensures listener { IfErr result (λ _. self.new.listener ≡ self.old.listener) }
        ensures same { IfErr result (λ _. self.new.news ≡ self.old.news) }
        ensures met { self.new.met ≡ self.old.met }
    {
        let copy = copy_of(alloc, links)?;
        self.news.push(News::Cycle(copy))?;
        Ok(self.listener.cycle(links))
    }

    /// Tells that a cell is broken.
    pub(crate) fn tell_broken(&mut self, alloc: Global, name: &Name) -> Result<Goes, Oom>
        ensures news { IfOk result (λ _. self.new.news
            ≡ self.old.news ++ told.Broken name.now ∷ []) }
        ensures tells { IfOk result (λ goes. T.tells self.old.listener (told.Broken name.now) goes
            self.new.listener) }
        ensures listener { IfErr result (λ _. self.new.listener ≡ self.old.listener) }
        ensures same { IfErr result (λ _. self.new.news ≡ self.old.news) }
        ensures met { self.new.met ≡ self.old.met }
    {
        let copy = name.copy(alloc)?;
        self.news.push(News::Broken(copy))?;
        Ok(self.listener.broken(name))
    }

    /// Tells the value of the watched cell, if none was told yet.
    pub(crate) fn tell_value(
        &mut self,
        alloc: Global,
        name: &Name,
        value: &Shown,
    ) -> Result<Goes, Oom>
        ensures only { (d : News) → IsIn d self.new.news
            → (d ≡ told.Value name.now value.now) ⊎ IsIn d self.old.news }
        ensures met { self.new.met ≡ self.old.met }
        ensures goes { HearsOn T.tells self.old self.new (result ≢ Ok Goes.Stop) }
        ensures stops { IsStoppedOn T.tells self.old self.new (result ≡ Ok Goes.Stop) }
    {
        if has_value(self.news.items()) {
            return Ok(Goes::On);
        }
        self.add_value(alloc, name, value)
    }

    /// Tells the value of the watched cell.
    fn add_value(&mut self, alloc: Global, name: &Name, value: &Shown) -> Result<Goes, Oom>
        ensures news { IfOk result (λ _. self.new.news
            ≡ self.old.news ++ told.Value name.now value.now ∷ []) }
        ensures tells { IfOk result (λ goes. T.tells self.old.listener
            (told.Value name.now value.now) goes self.new.listener) }
        ensures listener { IfErr result (λ _. self.new.listener ≡ self.old.listener) }
        ensures same { IfErr result (λ _. self.new.news ≡ self.old.news) }
        ensures met { self.new.met ≡ self.old.met }
    {
        let copy = name.copy(alloc)?;
        let value_copy = copy_of_value(alloc, value)?;
        self.news.push(News::Value(copy, value_copy))?;
        Ok(self.listener.value(name, value))
    }

    /// Whether this cell was met.
    pub(crate) fn has_met(&self, t: CellId) -> bool
        ensures { result ≡ get_or self.now.met.items t.0 false }
    {
        match self.met.as_slice().get(t.0 as usize) {
            Some(met) => *met,
            None => false,
        }
    }

    /// This cell is met, as all that were.
    pub(crate) fn meet(&mut self, t: CellId) -> Result<(), Oom>
        ensures listener { self.new.listener ≡ self.old.listener }
        ensures news { self.new.news ≡ self.old.news }
        ensures met { IfOk result (λ _. get_or self.new.met.items t.0 false ≡ true) }
        ensures kept { (c : ℕ) → get_or self.old.met.items c false ≡ true
            → get_or self.new.met.items c false ≡ true }
    {
        let missing = (t.0 as usize)
            .saturating_add(1)
            .saturating_sub(self.met.len());
        for _i in 0..missing {
            self.met.push(false)?;
        }
        self.met[t.0 as usize] = true;
        Ok(())
    }
}
