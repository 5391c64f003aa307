//! The blocks that stand whole in a piece, read side by side before their turn.

ghost use Rattle.std.specs.Prelude.{◌≡◌, ◌≤◌, ◌<◌, ◌-◌, ℕ, List, [], IfSome, drop, false, length, take};
ghost use Rattle.pmf_ledger.specs.LoneBlock.{IsLone};
ghost use Rattle.pmf_merge.specs.Ahead.{IsAhead, IsSpan};

use pmf_event::Profile;
use pmf_ledger::{LoneBlock, first_block};
use std::alloc::Global;
use std::thread::{Threads, for_each_mut};

/// Bytes of a piece, from one place up to another, and the block that they are, if they are one.
#[derive(Drop)]
struct Span {
    from: usize,
    to: usize,
    block: Option<LoneBlock>,
}

impl Span {
    // Reads the block.
    fn read(&mut self, alloc: Global, profile: Profile, piece: &[u8])
        requires { IsSpan profile piece.now self.old }
        ensures { IsSpan profile piece.now self.new }
    {
        self.block = LoneBlock::read(alloc, profile, &piece[self.from..self.to]);
    }
}

/// Blocks of a piece that were read, and may be taken for a text by the profile once it is their turn.
#[derive(Drop)]
pub(crate) struct Ahead {
    profile: Profile,
    spans: Vec<Span>,
    turn: usize,
}

impl Ahead {
    /// None. Takes no memory.
    pub(crate) fn new(alloc: Global) -> Ahead
        ensures { (piece : List ℕ) → IsAhead piece result }
    {
        Ahead {
            profile: Profile::One,
            spans: Vec::new(alloc),
            turn: 0,
        }
    }

    /// Whether each was taken or passed over.
    pub(crate) fn is_over(&self) -> bool
        ensures { result ≡ false → self.now.turn < length self.now.spans.items }
    {
        self.turn >= self.spans.len()
    }

    /// There is another piece.
    pub(crate) fn clear(&mut self)
        ensures none { self.new.spans.items ≡ [] }
        ensures ahead { (piece : List ℕ) → IsAhead piece self.new }
    {
        self.spans.clear();
        self.turn = 0;
    }

    /// Reads the blocks that stand whole in a piece, one behind another, from this place on, by so many threads. There are none where memory
    /// for their places is refused.
    pub(crate) fn read<T: Threads + Sync>(
        &mut self,
        rt: &T,
        alloc: Global,
        workers: usize,
        profile: Profile,
        piece: &[u8],
        from: usize,
    )
        requires { (0 < workers) × (from ≤ length piece.now) }
        ensures { IsAhead piece.now self.new }
    {
        self.clear();
        self.profile = profile;
        let mut at = from;
        while let Some(block) = first_block(&piece[at..]) {
            let span = Span {
                from: at,
                to: at + block.taken,
                block: None,
            };
            if self.spans.push(span).is_err() {
                self.clear();
                return;
            }
            at += block.taken;
        }
        for_each_mut(
            rt,
            &mut self.spans,
            workers,
            &|_: usize, span: &mut Span|
                requires { IsSpan profile piece.now span.now }
                ensures { IsSpan profile piece.entry.now span.exit.now }
            { span.read(alloc, profile, piece) },
        );
    }

    /// The block that begins at this place of the piece, if it was read and no fault found, and the place where it ends.
    pub(crate) fn take(&mut self, at: usize) -> Option<(LoneBlock, usize)>
        ensures { (piece : List ℕ) → IsAhead piece self.old → IsAhead piece self.new
            × IfSome result (λ found. (at ≤ found.1) × (found.1 ≤ length piece) × IsLone self.old.profile (take (found.1 - at) (drop at piece)) found.0) }
    {
        if self.is_over() {
            return None;
        }
        let span = &mut self.spans[self.turn];
        self.turn += 1;
        if span.from != at {
            return None;
        }
        let block = span.block.take()?;
        Some((block, span.to))
    }
}
