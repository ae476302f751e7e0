//! Names by their numbers, in the order in which they were declared.
ghost use Rattle.std.specs.Prelude.{◌≡◌, ◌<◌, ◌≤◌, [], ◌∷◌, ◌++◌, OnOk, OnErr, IfErr, IfSome, length, None};
ghost use Rattle.tj_syntax.specs.Marks.{index_of};

use crate::fault::Stop;
use crate::script::MAX_TASKS;
use std::alloc::Global;
use std::collections::BTreeMap;
use std::marker::Model;
use tj_lex::Word;

/// Up to so many names are looked through one by one.
const FEW: usize = 8;

/// Names, each with its number.
// Up to 8 names are looked through one by one, which takes half the time of the map; with the list
// alone 1,024 names with long common beginnings would take a hostile script's time.
#[derive(Drop)]
pub(crate) struct Names<'t> {
    list: Vec<Word>,
    numbers: BTreeMap<&'t [u8], u32>,
}

impl<'t> Model for Names<'t> {
    ghost use Rattle.std.specs.Prelude.{ℕ, List};

    ghost Value = { List (List ℕ) };

    ghost use Rattle.tj_syntax.specs.Inner.Index.{IsInStep};

    ghost view = { λ names. names.list.items };

    ghost invariant = { λ names. IsInStep names.list.items names.numbers };
}

impl<'t> Names<'t> {
    /// No names.
    pub(crate) fn new(alloc: Global) -> Names<'t>
        ensures { result ≡ [] }
    {
        Names {
            list: Vec::new(alloc),
            numbers: BTreeMap::new(alloc),
        }
    }

    pub(crate) fn len(&self) -> usize
        ensures value { result ≡ length self.now }
        ensures small { result ≤ MAX_TASKS }
    {
        self.list.len()
    }

    /// The number of a name.
    pub(crate) fn number_of(&self, name: &[u8]) -> Option<u32>
        ensures { result ≡ index_of self.now name.now }
    {
        if self.list.len() <= FEW {
            let at = index_among(self.list.as_slice(), name)?;
            Some(at as u32)
        } else {
            self.numbers.get(name).copied()
        }
    }

    /// Adds a name that isn't there yet.
    pub(crate) fn add(&mut self, alloc: Global, name: &'t [u8]) -> Result<(), Stop>
        requires new { index_of self.old name.now ≡ None }
        requires few { length self.old < MAX_TASKS }
        ensures ok { OnOk result (self.new ≡ self.old ++ name.now ∷ []) }
        ensures err { IfErr result (λ stop. stop ≡ Stop.Oom) }
        ensures kept { OnErr result (self.new ≡ self.old) }
    {
        let number = self.list.len() as u32;
        self.list.push(Word::copied(alloc, name)?)?;
        match self.numbers.insert(name, number) {
            Ok(_) => Ok(()),
            Err(_) => {
                self.list.pop();
                Err(Stop::Oom)
            }
        }
    }

    /// The names in their order.
    pub(crate) fn into_vec(self) -> Vec<Word>
        ensures { result.items ≡ self.entry }
    {
        self.list
    }
}

/// The index of a name among these.
fn index_among(names: &[Word], name: &[u8]) -> Option<usize>
    ensures index { result ≡ index_of names.now name.now }
    ensures within { IfSome result (λ at. at < length names.now) }
{
    names.iter().position(|known| known.bytes() == name)
}
