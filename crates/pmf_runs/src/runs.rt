//! A total function from numbers to states that is kept as runs of equal states.

ghost use Rattle.std.specs.Prelude.{◌≡◌, ◌≤◌, ℕ, None, true, is_some, IfOk, OnOk, OnErr};

use crate::flagged::Flagged;
use crate::group::Group;
use crate::leaf::Leaf;
use crate::level::Level;
use crate::page::Page;
use crate::state::{Change, State};
use std::alloc::{AllocError, Global};
use std::fmt::{self, Debug, Formatter};

mod asking;
#[cfg(test)]
mod counting;

/// A state for each number, kept as runs of equal states in leaves of at most 64, under groups and a root.
#[derive(Drop)]
pub struct RunMap<S: State> {
    alloc: Global,
    /// The state of each number before the first change.
    gap: S,
    /// The groups of leaves, from the first change on.
    root: Option<Level<Flagged<Group<S>>>>,
}

impl<S: State> RunMap<S> {
    ghost use Rattle.pmf_runs.specs.Runs.{root_state, root_joined, state_at, IsJoined, KeepsStates, ChangesBetween};

    /// The map in which each number has the state `gap`. It takes no memory.
    #[tactic(auto, using(crate::proofs::RunRules::no_root))]
    pub fn new(alloc: Global, gap: S) -> RunMap<S>
        ensures states { (b : ℕ) → state_at result b ≡ gap }
        ensures joined { IsJoined result }
    {
        RunMap {
            alloc,
            gap,
            root: None,
        }
    }

    /// The state of a number.
    pub fn at(&self, place: u64) -> S
        ensures { result ≡ state_at self.now place }
    {
        match &self.root {
            None => self.gap,
            Some(root) => root.state_of(place),
        }
    }

    /// Changes the states of the numbers from `first` up to `end`, which is not one of them. Where
    /// neighbouring runs differ as they are kept, they do so after it. An empty range takes no memory. After an `Err`,
    /// which is want of memory, each number has the state that it had.
    #[inline(always)]
    #[tactic(auto, using(crate::proofs::RunRules::none_changed))]
    pub fn change<C: Change<S>>(
        &mut self,
        first: u64,
        end: u64,
        change: &C,
    ) -> Result<(), AllocError>
        ensures ok { OnOk result (ChangesBetween first end (C.changed change.now) self.old self.new) }
        ensures unchanged { OnErr result (KeepsStates self.old self.new) }
        ensures joined { OnOk result (IsJoined self.old → IsJoined self.new) }
    {
        if end <= first {
            return Ok(());
        }
        self.ensure_root()?;
        self.change_root(first, end, change)?;
        Ok(())
    }

    /// Makes a root where there is none.
    #[inline(always)]
    fn ensure_root(&mut self) -> Result<(), AllocError>
        ensures root { OnOk result (is_some self.new.root ≡ true) }
        ensures same { KeepsStates self.old self.new }
        ensures joined { OnOk result (IsJoined self.old → IsJoined self.new) }
    {
        if self.root.is_some() {
            return Ok(());
        }
        let root = self.first_root()?;
        self.root = Some(root);
        Ok(())
    }

    /// A root in which each number has the gap's state.
    fn first_root(&self) -> Result<Level<Flagged<Group<S>>>, AllocError>
        ensures states { IfOk result (λ root. (d : S) (b : ℕ) → root_state root d b ≡ self.now.gap) }
        ensures joined { IfOk result (λ root. root_joined root None None) }
    {
        let leaf = Leaf::new(self.alloc, self.gap)?;
        let level = Level::new(self.alloc, Flagged::plain(Page::around(leaf)))?;
        let root = Level::new(self.alloc, Flagged::plain(Group::around(level)))?;
        Ok(root)
    }

    #[inline(always)]
    fn change_root<C: Change<S>>(
        &mut self,
        first: u64,
        end: u64,
        change: &C,
    ) -> Result<(), AllocError>
        requires root { is_some self.old.root ≡ true }
        requires order { first ≤ end }
        ensures ok { OnOk result (ChangesBetween first end (C.changed change.now) self.old self.new) }
        ensures unchanged { OnErr result (KeepsStates self.old self.new) }
        ensures joined { OnOk result (IsJoined self.old → IsJoined self.new) }
    {
        match &mut self.root {
            None => unreachable!(),
            Some(root) => {
                root.change_range(first, end, change)?;
                Ok(())
            }
        }
    }
}

impl<S: State> Debug for RunMap<S> {
    fn fmt<W: fmt::Write>(&self, f: &mut Formatter<W>) -> fmt::Result {
        f.debug_struct("RunMap").finish_non_exhaustive()
    }
}
