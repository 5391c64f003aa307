//! Names of records, and how many records have each.

ghost use Rattle.std.specs.Prelude.{◌≡◌, ◌-◌, ◌<◌, ◌^◌, map, slice_index_or, [], IfOk, length, All};
ghost use Rattle.pmf_storelog.specs.LogText.{is_skipped};
ghost use Rattle.pmf_query.specs.RecordNames.{known_names, name_of};
ghost use Rattle.pmf_lint.specs.Naming.{Count, counting, is_among, names_in};

use memchr::memchr;
use pmf_storelog::{Saying, read_record};
use std::alloc::{AllocError, Global};

/// How many names are listed at most: the first so many different ones.
pub const LISTED: usize = 32;

/// How many names a log's records may have that aren't skipped.
pub(crate) const KNOWN: usize = 13;

/// How many records, or stores, have a name.
#[derive(Clone, Copy, Debug, Drop)]
pub struct Named<'a> {
    /// The name, as it stands in the log or in the format's table.
    pub name: &'a [u8],
    /// The number of records, or stores.
    pub records: u64,
}

/// The known name of this index, in the order of the format's table.
#[tactic(auto, unfolding(pmf_query::specs::RecordNames::known_names))]
pub(crate) fn known_name(index: usize) -> &'static [u8]
    requires { index < 13 }
    ensures { result.now ≡ slice_index_or known_names index [] }
{
    match index {
        0 => b"STORE",
        1 => b"FLUSH",
        2 => b"FENCE",
        3 => b"PMT.PERSIST",
        4 => b"PMT.ORDERED",
        5 => b"PMT.EXCLUDE",
        6 => b"PMT.INCLUDE",
        7 => b"PMT.TXBEGIN",
        8 => b"PMT.TXADD",
        9 => b"PMT.TXEND",
        10 => b"PMT.CHECKSTART",
        11 => b"PMT.CHECKEND",
        _ => b"PMT.SECTION",
    }
}

/// The known names, each of no record.
#[tactic(auto, using(crate::proofs::NamingLemmas::Count_none, crate::proofs::NamingLemmas::known_more_names))]
pub(crate) fn known_counts<'a>(alloc: Global) -> Result<Vec<Named<'a>>, AllocError>
    ensures names { IfOk result (λ counts. names_in counts.items ≡ known_names) }
    ensures none { IfOk result (λ counts. Count counts.items []) }
{
    let mut counts = Vec::new(alloc);
    for index in 0..KNOWN {
        let name = known_name(index);
        counts.push(Named { name, records: 0 })?;
    }
    Ok(counts)
}

/// The name of a record.
#[tactic(auto, using(crate::proofs::NamingLemmas::name_found, crate::proofs::NamingLemmas::name_whole), unfolding(pmf_query::specs::RecordNames::name_of))]
pub(crate) fn name_of(text: &[u8]) -> &[u8]
    ensures { result.now ≡ name_of text.now }
{
    match memchr(b';', text) {
        Some(end) => &text[..end],
        None => text,
    }
}

/// Whether the record is skipped.
#[tactic(auto, unfolding(pmf_storelog::specs::LogText::is_skipped))]
pub(crate) fn is_skipped(text: &[u8]) -> bool
    ensures { result ≡ is_skipped text.now }
{
    match read_record(text) {
        Ok(Saying::Happens(_)) => false,
        Ok(Saying::Enters(_)) => false,
        Ok(Saying::Skipped) => true,
        Err(_) => false,
    }
}

/// Whether one of the counts is of this name.
#[tactic(auto, using(crate::proofs::NamingLemmas::among_at), unfolding(crate::specs::Naming::is_among))]
pub(crate) fn is_among(counts: &[Named<'_>], name: &[u8]) -> bool
    ensures { result ≡ is_among (names_in counts.now) name.now }
{
    for count in counts {
        if count.name == name {
            return true;
        }
    }
    false
}

/// Counts one more record of this name, where it is one of the counts'.
pub(crate) fn count_name(counts: &mut Vec<Named<'_>>, name: &[u8])
    requires { All (λ c. c.records < 2 ^ 64 - 1) counts.old.items }
    ensures { counts.new.items ≡ map (counting name.now) counts.old.items }
{
    for index in 0..counts.len() {
        let count = counts[index];
        counts[index] = count.counting(name);
    }
}

impl<'a> Named<'a> {
    // With one more record of this name.
    fn counting(self, name: &[u8]) -> Named<'a>
        requires { self.records < 2 ^ 64 - 1 }
        ensures { result ≡ counting name.now self.entry }
    {
        Named {
            name: self.name,
            records: self.records + u64::from(self.name == name),
        }
    }
}
