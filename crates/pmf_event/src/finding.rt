//! What the checker finds of one event.

/// What the checker says of one event. Addresses are of bytes, or of cache lines by their first
/// byte.
#[derive(Clone, Copy, Debug, PartialEq, Eq)]
pub enum Finding {
    /// Every checked byte's persist interval is closed.
    PersistPass,
    /// The least checked byte whose persist interval is open.
    PersistFail { byte: u64 },
    /// No byte of the span is checked.
    PersistEmpty,
    /// No pair of checked bytes is unordered.
    OrderedPass,
    /// The least certified unordered pair, and the place after which a crash shows it.
    OrderedFail { byte: u64, after: u64, crash: u32 },
    /// The least unordered pair, where no unordered pair is certified.
    OrderedSameLine { byte: u64, after: u64 },
    /// One of the spans has no checked byte.
    OrderedEmpty,
    /// Lines that were written back already and not yet fenced: the least, and how many.
    FlushDoubled { line: u64, lines: u64 },
    /// Lines with nothing to write back: the least, and how many.
    FlushNeedless { line: u64, lines: u64 },
    /// The least included byte of a store in a transaction that no TXADD backs up.
    NoBackup { byte: u64 },
    /// The least byte of a TXADD that was backed up before.
    DupLog { byte: u64 },
    /// Every included byte of the scope is durable.
    CheckPass,
    /// The least included byte of the scope whose persist interval is open.
    CheckFail { byte: u64 },
    /// The scope was closed inside a transaction of this depth.
    TxStillOpen { depth: u32 },
    /// A TXEND with no transaction.
    Unmatched,
    /// A TXADD with no transaction.
    Outside,
    /// A CHECKSTART inside a scope.
    Nested,
    /// A CHECKEND with no scope.
    Unopened,
    /// The section ended in the scope that the event at this place opened.
    Unclosed { start: u32 },
}
