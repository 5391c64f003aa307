//! The state of the transaction checker after some events.

ghost use Rattle.std.specs.Prelude.{◌≡◌, ℕ, ◌+◌, ◌-◌, ◌<◌, ◌≤◌, ◌^◌, List, true, option_map, OnOk, OnErr, IfOk};
ghost use Rattle.pmf_event.specs.{declared.event.Event.{Event}, declared.span.TheConstants.{ADDRESS_LIMIT, SPAN_LIMIT}, Ranges.{first_from}, Transactions.{depth_at, in_transaction, in_scope, add_finding, close_finding, end_finding, start_finding}};
ghost use Rattle.pmf_shadow.specs.{Shadow.{StandsFor}, Told.{finding_as_told}};
ghost use Rattle.pmf_txcheck.specs.{Findings.{FindsOfCheckEnd, FindsOfStore, is_left_open_by, lacks_backup_by}, Tracking.{Follows, FollowsAt, ForEachList, Keeps, Tracks, depth_of}};

use pmf_event::{ADDRESS_LIMIT, Event, Finding, Span};
use pmf_runs::{IsIn, IsOut, PutIn, RunMap};
use pmf_shadow::Shadow;
use std::alloc::{AllocError, Global};

/// What is kept of some events: how many transactions run, the bytes that the running one has backed up,
/// and the open scope with the bytes that were stored to in it, inside transactions.
///
/// Each call takes O((k + 1) log n) steps for k runs of equal state that it meets and n that are held,
/// whatever the size of its span; `check_end` meets the runs of the scope. Memory follows the number of
/// runs: backed-up bytes are kept until the next outermost transaction begins, a scope's bytes until the
/// next scope opens.
#[derive(Debug, Drop)]
pub struct TxState {
    alloc: Global,
    depth: u32,
    pub(crate) backup: RunMap<bool>,
    scope: Option<u32>,
    pub(crate) stored: RunMap<bool>,
}

impl TxState {
    /// The state of no events. Takes no memory.
    pub fn new(alloc: Global) -> TxState
        ensures { (told : ℕ → ℕ) (es : List Event) → Tracks result told es 0 }
    {
        TxState {
            alloc,
            depth: 0,
            backup: RunMap::new(alloc, false),
            scope: None,
            stored: RunMap::new(alloc, false),
        }
    }

    /// How many transactions run.
    pub fn depth(&self) -> u32
        ensures value { result ≡ depth_of self.now }
        ensures depth { ForEachList self.now (λ told es p. result ≡ depth_at es p) }
    {
        self.depth
    }

    /// Follows a TXBEGIN. An outermost transaction begins with nothing backed up. Takes no memory.
    pub fn begin(&mut self)
        requires { depth_of self.old < 2 ^ 32 - 1 }
        ensures { Follows self.old self.new Event.TxBegin }
    {
        if self.depth == 0 {
            self.backup = RunMap::new(self.alloc, false);
        }
        self.depth += 1;
    }

    /// Follows a TXEND, and says UNMATCHED where no transaction runs. Takes no memory.
    pub fn end(&mut self) -> Option<Finding>
        ensures follows { Follows self.old self.new Event.TxEnd }
        ensures finds { ForEachList self.old (λ told es p. result ≡ end_finding es p) }
    {
        if self.depth == 0 {
            return Some(Finding::Unmatched);
        }
        self.depth -= 1;
        None
    }

    /// Follows a TXADD over the span. It says OUTSIDE where no transaction runs, and in a scope DUPLOG
    /// with the least byte that was backed up before. Memory: at most two runs. After an `Err` the state
    /// stands for what it stood for.
    pub fn add(&mut self, span: Span) -> Result<Option<Finding>, AllocError>
        ensures follows { OnOk result (Follows self.old self.new (Event.TxAdd span)) }
        ensures finds { IfOk result (λ finding. ForEachList self.old (λ told es p. finding ≡ add_finding es p span)) }
        ensures unchanged { OnErr result (Keeps self.old self.new) }
    {
        if self.depth == 0 {
            return Ok(Some(Finding::Outside));
        }
        let (first, end) = (span.first(), span.end());
        let finding = match self.scope {
            None => None,
            Some(_) => match self.backup.first_where(first, end, &IsIn) {
                None => None,
                Some(byte) => Some(Finding::DupLog { byte }),
            },
        };
        self.backup.change(first, end, &PutIn)?;
        Ok(finding)
    }

    /// Follows a store to the span. In a transaction and a scope it says NOBACKUP with the least byte that
    /// the shadow includes and that is not backed up: where the shadow has followed the store already, a byte
    /// is included as it is at the store. Memory: at most two runs. After an `Err` the state stands for what
    /// it stood for.
    pub fn store(&mut self, shadow: &Shadow, span: Span) -> Result<Option<Finding>, AllocError>
        ensures follows { OnOk result (Follows self.old self.new (Event.Store span)) }
        ensures finds { IfOk result (FindsOfStore self.old shadow.now span) }
        ensures unchanged { OnErr result (Keeps self.old self.new) }
    {
        if self.depth == 0 || self.scope.is_none() {
            return Ok(None);
        }
        let (first, end) = (span.first(), span.end());
        let finding = match self.least_bare(shadow, first, end) {
            None => None,
            Some(byte) => Some(Finding::NoBackup { byte }),
        };
        self.stored.change(first, end, &PutIn)?;
        Ok(finding)
    }

    /// Follows a CHECKSTART, keeps this place of it, and says NESTED in a scope. Takes no memory.
    pub fn check_start(&mut self, place: u32) -> Option<Finding>
        ensures follows { FollowsAt place self.old self.new Event.CheckStart }
        ensures finds { ForEachList self.old (λ told es p. result ≡ start_finding es p) }
    {
        if self.scope.is_some() {
            return Some(Finding::Nested);
        }
        self.scope = Some(place);
        self.stored = RunMap::new(self.alloc, false);
        None
    }

    /// Follows a CHECKEND, which closes the scope. It says UNOPENED where there is none, TXOPEN with the
    /// depth inside a transaction, else FAIL with the least included byte of the scope whose persist
    /// interval is open, or PASS. Takes no memory.
    pub fn check_end(&mut self, shadow: &Shadow) -> Finding
        ensures follows { Follows self.old self.new Event.CheckEnd }
        ensures finds { FindsOfCheckEnd self.old shadow.now result }
    {
        let finding = self.found_at_end(shadow);
        self.scope = None;
        finding
    }

    /// What is found where the section ends here: UNCLOSED in a scope, with the place that was told of the
    /// event that opened it.
    pub fn close_section(&self) -> Option<Finding>
        ensures { ForEachList self.now (λ told es p. result ≡ option_map (finding_as_told told) (close_finding es p)) }
    {
        match self.scope {
            None => None,
            Some(start) => Some(Finding::Unclosed { start }),
        }
    }

    // The least byte from `first` up to `end` that the shadow includes and that is not backed up: the
    // shadow is asked about each run of bytes that are not.
    fn least_bare(&self, shadow: &Shadow, first: u64, end: u64) -> Option<u64>
        requires ends { end ≤ ADDRESS_LIMIT }
        requires small { end ≤ first + SPAN_LIMIT }
        ensures { (told tells : ℕ → ℕ) (es fs : List Event) (p q : ℕ) → Tracks self.now told es p
            → in_transaction es p ≡ true → StandsFor shadow.now tells fs q
            → result ≡ first_from (lacks_backup_by es p fs q) first (end - first) }
    {
        let mut at = first;
        while let Some(bare) = self.backup.first_where(at, end, &IsOut) {
            let until = self.backup.first_where(bare, end, &IsIn).unwrap_or(end);
            if let Some(byte) = shadow.least_included(Span::between(bare, until)) {
                return Some(byte);
            }
            at = until;
        }
        None
    }

    // What a CHECKEND finds here.
    fn found_at_end(&self, shadow: &Shadow) -> Finding
        ensures { FindsOfCheckEnd self.now shadow.now result }
    {
        if self.scope.is_none() {
            return Finding::Unopened;
        }
        if self.depth > 0 {
            return Finding::TxStillOpen { depth: self.depth };
        }
        match self.least_left_open(shadow) {
            None => Finding::CheckPass,
            Some(byte) => Finding::CheckFail { byte },
        }
    }

    // The least byte of the scope that the shadow includes and whose persist interval is open. A run
    // of the scope's bytes that is longer than a span is asked about span by span.
    fn least_left_open(&self, shadow: &Shadow) -> Option<u64>
        ensures { (told tells : ℕ → ℕ) (es fs : List Event) (p q : ℕ) → Tracks self.now told es p
            → in_scope es p ≡ true → StandsFor shadow.now tells fs q
            → result ≡ first_from (is_left_open_by es p fs q) 0 ADDRESS_LIMIT }
    {
        let mut at = 0;
        while let Some(first) = self.stored.first_where(at, ADDRESS_LIMIT, &IsIn) {
            let end = self
                .stored
                .first_where(first, ADDRESS_LIMIT, &IsOut)
                .unwrap_or(ADDRESS_LIMIT);
            let span = Span::between(first, end);
            if let Some(byte) = shadow.least_open(span) {
                return Some(byte);
            }
            at = span.end();
        }
        None
    }
}
