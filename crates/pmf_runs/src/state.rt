//! The states that a map holds, and what is done to them and asked of them.

ghost use Rattle.std.specs.Prelude.{◌≡◌, ◌↔◌, IsTrue, ℕ, Bool, true, false, Option, IfSome};
ghost use Rattle.pmf_event.specs.Ranges.{lesser};

/// A small state that a map may hold, with summaries, each of which covers some states.
pub trait State: Copy + Drop {
    /// What is kept of the states of a part of a map.
    type Summary: Copy + Drop;

    ghost covers: { Self.Summary → Self → Bool };

    ghost unsettled: { Self → Bool };

    ghost flagged: { Bool → Self → Self };

    /// The summary of this state alone.
    fn summary(&self) -> Self::Summary
        ensures { covers result self.now ≡ true };

    /// A summary that covers what either of the two covers.
    fn joined(one: Self::Summary, other: Self::Summary) -> Self::Summary
        ensures left { (s : Self) → covers one s ≡ true → covers result s ≡ true }
        ensures right { (s : Self) → covers other s ≡ true → covers result s ≡ true };

    /// Whether the state is unsettled, as a byte is that was stored to and not written back: a change
    /// may settle it, and a summary tells whether there is one.
    fn is_unsettled(&self) -> bool
        ensures { result ≡ unsettled self.now };

    /// Whether an unsettled state may be among those that the summary covers.
    fn may_be_unsettled(summary: Self::Summary) -> bool
        ensures { result ≡ false → (s : Self) → covers summary s ≡ true → unsettled s ≡ false };

    /// A summary of the settled ones of the states that this one covers.
    fn settled(summary: Self::Summary) -> Self::Summary
        ensures { (s : Self) → covers summary s ≡ true → unsettled s ≡ false → covers result s ≡ true };

    /// The state with its flag set so, as it says of a byte whether it is excluded. A state without a flag stays as it is.
    fn flagged(self, flag: bool) -> Self
        ensures { result ≡ flagged flag self };

    /// A summary of the covered states with their flags set so.
    fn summary_flagged(summary: Self::Summary, flag: bool) -> Self::Summary
        ensures { (s : Self) → covers summary s ≡ true → covers result (flagged flag s) ≡ true };

    /// Whether the two are the same state.
    fn is_same(&self, other: Self) -> bool
        ensures { IsTrue result ↔ (self.now ≡ other) };

    /// Whether two summaries are alike. It bears on speed alone.
    fn are_alike(one: Self::Summary, other: Self::Summary) -> bool;

    // A flag that is set makes the one before it forgotten.
    ghost forgets: { (first last : Bool) (s : Self) → flagged last (flagged first s) ≡ flagged last s };
}

/// What becomes of a summary where a change takes a state away. It bears on speed alone.
#[derive(Clone, Copy, Debug, PartialEq, Eq, Drop)]
pub enum Effect {
    /// No state is altered.
    None,
    /// The widened summary is a good one.
    Widens,
    /// It is a good one too, unless no unsettled state is left.
    Settles,
    /// A new summary is worth its time, once for several such changes.
    Narrows,
    /// A new summary is worth its time at once.
    Remakes,
}

impl Effect {
    /// The greater effect of the two.
    pub(crate) fn or(self, other: Effect) -> Effect {
        match (self, other) {
            (Effect::Remakes, _) => Effect::Remakes,
            (_, Effect::Remakes) => Effect::Remakes,
            (Effect::Narrows, _) => Effect::Narrows,
            (_, Effect::Narrows) => Effect::Narrows,
            (Effect::Settles, _) => Effect::Settles,
            (_, Effect::Settles) => Effect::Settles,
            (Effect::Widens, _) => Effect::Widens,
            (Effect::None, _) => other,
        }
    }
}

/// What is done to the states of a range.
pub trait Change<S: State> {
    ghost changed: { Self → S → S };

    /// The state that takes the place of this one.
    fn changed(&self, state: S) -> S
        ensures { result ≡ changed self.now state };

    /// Whether the change may alter a state that the summary covers.
    fn may_alter(&self, summary: S::Summary) -> bool
        ensures { result ≡ false → (s : S) → S.covers summary s ≡ true → changed self.now s ≡ s };

    /// A summary that covers what this one covers, before and after the change.
    fn widened(&self, summary: S::Summary) -> S::Summary
        ensures before { (s : S) → S.covers summary s ≡ true → S.covers result s ≡ true }
        ensures after { (s : S) → S.covers summary s ≡ true → S.covers result (changed self.now s) ≡ true };

    /// What becomes of the summary where the change alters this state. It bears on speed alone.
    fn effect(&self, summary: S::Summary, state: S) -> Effect;

    /// The flag that the change sets in each state, if that is all it does.
    fn flag(&self) -> Option<bool>
        ensures { IfSome result (λ flag. (s : S) → changed self.now s ≡ S.flagged flag s) }
    {
        None
    }
}

/// What a question asks of a state.
pub trait Test<S: State> {
    ghost passes: { Self → S → Bool };

    /// Whether the state passes.
    fn passes(&self, state: S) -> bool
        ensures { result ≡ passes self.now state };

    /// Whether a state that the summary covers may pass.
    fn may_pass(&self, summary: S::Summary) -> bool
        ensures { result ≡ false → (s : S) → S.covers summary s ≡ true → passes self.now s ≡ false };
}

/// A number that some states have.
pub trait Key<S: State> {
    ghost key: { Self → S → Option ℕ };

    /// The state's number, if it has one.
    fn key(&self, state: S) -> Option<u32>
        ensures { result ≡ key self.now state };

    /// Whether a state that the summary covers may have a lesser key than the least so far.
    fn may_lower(&self, summary: S::Summary, least: Option<u32>) -> bool
        ensures { result ≡ false → (s : S) → S.covers summary s ≡ true → lesser least (key self.now s) ≡ least };

    /// A number that the key of no covered state is likely to lie below, or none if no state has a key. It bears on
    /// speed alone.
    fn bound(&self, summary: S::Summary) -> Option<u32>;
}
