//! What the events up to a place say of transactions, of the checker's scope, and of one byte.

ghost use Rattle.std.specs.Prelude.{◌≡◌, ◌<◌, ◌≤◌, ◌+◌, ◌-◌, ◌^◌, false, not, nat_lt, ◌&&◌, ◌||◌, if◌then◌else◌, length};
ghost use Rattle.pmf_event.specs.{Exclusion.{excludes, is_included, marks}, Store.{stores}, Transactions.{begins, closes_scope, depth_at, ends, in_scope, is_scoped, opens_scope}};

use pmf_event::{Event, Events};

/// The transactions and the scope at a place, and whether a byte is one of the scope's.
#[derive(Clone, Copy, Debug, PartialEq, Eq)]
pub struct Scope {
    /// How many transactions run.
    pub depth: u32,
    /// Whether there is a scope.
    pub is_open: bool,
    /// Whether the byte is one of the scope's: it was stored to in the scope, inside a transaction.
    pub has_byte: bool,
}

// The scope at the place, for the byte. One pass over the events.
pub fn scope_at(events: &Events, place: u32, byte: u64) -> Scope
    requires { place ≤ length events.now }
    ensures depth { result.depth ≡ depth_at events.now place }
    ensures scope { result.is_open ≡ in_scope events.now place }
    ensures byte { result.has_byte ≡ is_scoped events.now place byte }
{
    let mut scope = Scope {
        depth: 0,
        is_open: false,
        has_byte: false,
    };
    for index in 0..place as usize {
        let event = events.at(index);
        scope.follow(&event, byte);
    }
    scope
}

impl Scope {
    // One more event.
    #[inline]
    #[tactic(auto, unfolding(pmf_event::specs::Store::stores, pmf_event::specs::Transactions::begins, pmf_event::specs::Transactions::ends, pmf_event::specs::Transactions::opens_scope, pmf_event::specs::Transactions::closes_scope))]
    fn follow(&mut self, event: &Event, byte: u64)
        requires { self.old.depth + 1 < 2 ^ 32 }
        ensures depth { self.new.depth ≡ (if begins event.now then self.old.depth + 1
            else if ends event.now then self.old.depth - 1 else self.old.depth) }
        ensures scope { self.new.is_open
            ≡ (if closes_scope event.now then false else (opens_scope event.now || self.old.is_open)) }
        ensures byte { self.new.has_byte ≡ (if closes_scope event.now then false
            else (((stores byte event.now && nat_lt 0 self.old.depth) && self.old.is_open)
            || self.old.has_byte)) }
    {
        match event {
            Event::Store(span) => {
                if span.covers(byte) && self.depth > 0 && self.is_open {
                    self.has_byte = true;
                }
            }
            Event::TxBegin => self.depth += 1,
            Event::TxEnd => self.depth = self.depth.saturating_sub(1),
            Event::CheckStart => self.is_open = true,
            Event::CheckEnd => {
                self.is_open = false;
                self.has_byte = false;
            }
            _ => {}
        }
    }
}

// Whether the byte is included at the place. One pass over the events.
#[tactic(auto, using(std::proofs::lemmas::Grind::common_steps, crate::proofs::ScopeLemmas::inclusion))]
pub fn is_included(events: &Events, place: u32, byte: u64) -> bool
    requires { place ≤ length events.now }
    ensures { result ≡ is_included events.now place byte }
{
    let mut included = true;
    for index in 0..place as usize {
        let event = events.at(index);
        included = included_after(&event, byte, included);
    }
    included
}

// Whether the byte is included after the event, by whether it was before.
#[inline]
#[tactic(auto, unfolding(pmf_event::specs::Exclusion::marks, pmf_event::specs::Exclusion::excludes))]
fn included_after(event: &Event, byte: u64, included: bool) -> bool
    ensures { result ≡ (if marks byte event.now then not (excludes byte event.now) else included) }
{
    match event {
        Event::Exclude(span) => included && !span.covers(byte),
        Event::Include(span) => included || span.covers(byte),
        _ => included,
    }
}
