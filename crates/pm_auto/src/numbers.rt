//! Sets of numbers.
ghost use Rattle.std.specs.Prelude.{◌≡◌, ℕ, [], ◌||◌, IfOk, OnOk};
ghost use Rattle.pm_auto.specs.Members.{is_in};
ghost use Rattle.pm_auto.specs.States.{has};

use crate::bits::{join, put_each, widen};
use std::alloc::{AllocError, Global};
use std::marker::Model;

/// A set of small numbers, kept as the bits of words. A contract sees it as the list of its numbers, ascending.
#[derive(Drop, Debug)]
pub struct NumberSet {
    words: Vec<u64>,
}

impl Model for NumberSet {
    ghost use Rattle.std.specs.Prelude.{List, ℕ};
    ghost use Rattle.std.specs.Coded.{coded_list, coded_ℕ};
    ghost use Rattle.pm_auto.specs.Members.{members};

    ghost Value = { List ℕ };

    ghost coded = { coded_list coded_ℕ };

    ghost view = { λ s. members s.words.items };
}

impl NumberSet {
    /// The empty set. It takes no memory until a number comes.
    pub(crate) fn new(alloc: Global) -> NumberSet
        ensures { result ≡ [] }
    {
        NumberSet {
            words: Vec::new(alloc),
        }
    }

    /// The set of the numbers of the list.
    pub(crate) fn of(alloc: Global, numbers: &[usize]) -> Result<NumberSet, AllocError>
        ensures { IfOk result (λ s. (j : ℕ) → has j s ≡ has j numbers.now) }
    {
        let mut words = Vec::new(alloc);
        put_each(&mut words, numbers)?;
        Ok(NumberSet { words })
    }

    /// Puts the numbers of the list into the set.
    pub(crate) fn put_all(&mut self, numbers: &[usize]) -> Result<(), AllocError>
        ensures { OnOk result ((j : ℕ) → has j self.new ≡ (has j self.old || has j numbers.now)) }
    {
        put_each(&mut self.words, numbers)?;
        Ok(())
    }

    /// Puts the numbers of the other set into the set.
    pub(crate) fn join(&mut self, other: &NumberSet) -> Result<(), AllocError>
        ensures { OnOk result ((j : ℕ) → has j self.new ≡ (has j self.old || has j other.now)) }
    {
        widen(&mut self.words, other.words.len())?;
        join(&mut self.words, other.words.as_slice());
        Ok(())
    }

    /// The set as bits.
    pub(crate) fn as_bits(&self) -> &[u64]
        ensures { (j : ℕ) → is_in result.now j ≡ has j self.now }
    {
        self.words.as_slice()
    }
}
