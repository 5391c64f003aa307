//! Laws of how requests are answered, each the clause of an empty function.

ghost use Rattle.pmf_command.specs.{Answered.{StatusZeroKeepsAll, StrictStatusZeroIsTrusted, StrictWordsAreTrusted}, ExplanationTold.{ExplanationsTellTheirRows}, MergesAreJoins.{MergesAreJoins}};

/// Where `check` ends with status 0, what was read is a log, and all that it asserts holds in every crash image.
pub fn status_zero_keeps_all()
    ensures { StatusZeroKeepsAll }
{}

/// Where `check --strict` does, some row passes, too, and `lint` has no warning of what was read.
pub fn strict_status_zero_is_trusted()
    ensures { StrictStatusZeroIsTrusted }
{}

/// Where words of `check --strict` do, the log that they name, read by their run and their profile, is such a one.
pub fn strict_words_are_trusted()
    ensures { StrictWordsAreTrusted }
{}

/// The text that explains an event tells, text line by text line, just the rows that were found there, where their numbers are below 2^64.
pub fn explanations_tell_their_rows()
    ensures { ExplanationsTellTheirRows }
{}

/// What `join --stream` writes of ledgers is what `join` writes of them, byte for byte, where both are done.
pub fn merges_are_joins()
    ensures { MergesAreJoins }
{}
