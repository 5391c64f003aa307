//! Names that stand twice among sections.

ghost use Rattle.std.specs.Prelude.{◌≡◌, ◌↔◌, map, IfOk, MatchOption, IsPermutation, IsTrue};
ghost use Rattle.pmf_ledger.specs.Repeats.{AreOwn, DoNotFall, HaveOwnNames, IsLeastTwice, IsLeastTwiceIn};

use pmf_event::{Name, Section};
use std::alloc::{AllocError, Global};
use std::sync::Arc;

fn names_of(alloc: Global, sections: &[Arc<Section>]) -> Result<Vec<Name>, AllocError>
    ensures { IfOk result (λ names. names.items ≡ map (λ s. s.value.name) sections.now) }
{
    let mut names = Vec::with_capacity(alloc, sections.len())?;
    for section in sections {
        names.push(section.name())?;
    }
    Ok(names)
}

fn sorted(mut names: Vec<Name>) -> Vec<Name>
    ensures same { IsPermutation names.items result.items }
    ensures sorted { DoNotFall result.items }
{
    names.sort_unstable_by_key(|name| *name);
    names
}

fn is_same(a: Name, b: Name) -> bool
    ensures { IsTrue result ↔ (a ≡ b) }
{
    a == b
}

// The first name that stands twice in the order of names.
fn repeated(names: &[Name]) -> Option<Name>
    requires sorted { DoNotFall names.now }
    ensures { MatchOption result (AreOwn names.now) (IsLeastTwiceIn names.now) }
{
    for next in 1..names.len() {
        let name = names[next];
        if is_same(names[next - 1], name) {
            return Some(name);
        }
    }
    None
}

/// The least name that stands twice among the sections, if one does. Takes memory for the names as long as it looks, and the
/// time of a sort.
pub fn least_repeat(alloc: Global, sections: &[Arc<Section>]) -> Result<Option<Name>, AllocError>
    ensures { IfOk result (λ found. MatchOption found
        (HaveOwnNames (map (λ s. s.value) sections.now))
        (IsLeastTwice (map (λ s. s.value) sections.now))) }
{
    let names = sorted(names_of(alloc, sections)?);
    Ok(repeated(names.as_slice()))
}
