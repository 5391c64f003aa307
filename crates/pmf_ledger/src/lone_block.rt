//! A block of a ledger text that is read apart from the text, so that several are read side by side.

ghost use Rattle.std.specs.Prelude.{IfSome};
ghost use Rattle.pmf_ledger.specs.LoneBlock.{IsLone};

use crate::block_reader::BlockReader;
use pmf_event::Profile;
use pmf_verdict::Verdict;
use std::alloc::Global;

/// A block that was read apart from its text, and whose section was checked again.
#[derive(Drop)]
pub struct LoneBlock {
    /// Its section.
    pub verdict: Verdict,
    /// How many text lines it has.
    pub(crate) lines: u64,
}

impl LoneBlock {
    /// Reads the block that these bytes of a text by the profile are, if they are one, whole and right. Why else they are none, a
    /// [`BlockReader`] tells. Takes memory for the section.
    pub fn read(alloc: Global, profile: Profile, bytes: &[u8]) -> Option<LoneBlock>
        ensures { IfSome result (IsLone profile bytes.now) }
    {
        let mut reader = BlockReader::behind_version(alloc, profile);
        let Ok(fed) = reader.feed(alloc, bytes) else {
            return None;
        };
        if fed.taken != bytes.len() || !reader.is_between() {
            return None;
        }
        let lines = reader.lines.line() - 2;
        let verdict = fed.block?;
        Some(LoneBlock { verdict, lines })
    }
}
