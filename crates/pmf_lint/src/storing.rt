//! The names of stores: where in the source they were made, or their addresses.

ghost use Rattle.std.specs.Prelude.{◌≡◌, ◌+◌, ◌<◌, ◌≤◌, ◌^◌, ℕ, Bool, List, [], ◌∷◌, ◌++◌, length, map, sum_by, slice_get, if◌then◌else◌, IfOk, OnOk};
ghost use Rattle.pmf_event.specs.Section.{Trace};
ghost use Rattle.pmf_storelog.specs.declared.fault.TheConstants.{SECTION_LIMIT};
ghost use Rattle.pmf_query.specs.{declared.locate.Located.{Located}, Standing.{Stands}};
ghost use Rattle.pmf_lint.specs.{Counting.{Lists}, Marks.{Marks}, StoreNames.{AreNamed, AreNamesIn, is_asked, name_there, names_among, store_name}};

use crate::listing::Listing;
use crate::looking::Looked;
use crate::summing::look_through;
use pmf_event::Section;
use pmf_query::{Located, Standing, field};
use std::alloc::{AllocError, Global};
use std::sync::Arc;

/// The names of the stores of a log that lack something, each with how many stores have it. A store's name is the first field of its
/// record behind those that are read: where in the source it was made. Where that one is empty or missing, it is the store's address.
#[derive(Debug, Drop)]
pub struct StoreNames<'a> {
    /// Of those with a byte that is not durable at the end of their section, since no write-back follows.
    pub unwritten: Listing<'a>,
    /// Of the others with a byte that is not durable there, since no fence follows.
    pub unfenced: Listing<'a>,
    /// Of those that no later assertion covers, where these are asked for.
    pub unasserted: Listing<'a>,
}

/// The names of the stores of a log's sections, and where it is asked those of the stores that no later assertion covers.
///
/// Takes memory for a location of each event of the log, and a few bytes more for each, and for the shadow of one section at a time.
pub fn name_stores<'a>(
    alloc: Global,
    log: &'a [u8],
    sections: &[Arc<Section>],
    unasserted: bool,
) -> Result<StoreNames<'a>, AllocError>
    requires { length sections.now ≤ SECTION_LIMIT }
    ensures { IfOk result (AreNamesIn log.now unasserted (map (λ s. s.value) sections.now)) }
{
    let (_, looked) = look_through(alloc, sections)?;
    let standing = Standing::of(alloc, log)?;
    let names = name_all(alloc, log, &standing, &looked, unasserted)?;
    Ok(names)
}

/// The same of sections that were looked through, by where the events of the log stand.
pub(crate) fn name_all<'a>(
    alloc: Global,
    _log: &'a [u8],
    standing: &Standing<'a>,
    sections: &[Looked],
    unasserted: bool,
) -> Result<StoreNames<'a>, AllocError>
    requires few { length sections.now ≤ SECTION_LIMIT }
    requires stands { Stands _log.now standing.now }
    ensures { IfOk result (AreNamesIn _log.now unasserted (map (λ l. l.section.value) sections.now)) }
{
    let mut names = StoreNames::none(alloc);
    for looked in sections {
        let located = standing.kept_of(looked.section.name().number);
        names.take(alloc, looked, located, unasserted)?;
    }
    Ok(names)
}

impl<'a> StoreNames<'a> {
    fn none(alloc: Global) -> StoreNames<'a>
        ensures { (stands : ℕ → List Located) (asked : Bool) → AreNamed stands asked [] result }
    {
        StoreNames {
            unwritten: Listing::new(alloc),
            unfenced: Listing::new(alloc),
            unasserted: Listing::new(alloc),
        }
    }

    // With those of one section more, whose events stand there.
    fn take(
        &mut self,
        alloc: Global,
        looked: &Looked,
        located: &[Located<'a>],
        unasserted: bool,
    ) -> Result<(), AllocError>
        requires { (stands : ℕ → List Located) × (sections : List Trace) × AreNamed stands unasserted sections self.old
            × (sum_by (λ (t : Trace). length t.events) sections + length looked.now.section.value.events < 2 ^ 64) }
        ensures { (stands : ℕ → List Located) (sections : List Trace) → AreNamed stands unasserted sections self.old
            → stands looked.now.section.value.name.number ≡ located.now
            → OnOk result (AreNamed stands unasserted (sections ++ looked.now.section.value ∷ []) self.new) }
    {
        let unfenced = looked.left.all_unfenced(alloc)?;
        take_marked(&mut self.unwritten, &looked.left.unwritten, located)?;
        take_marked(&mut self.unfenced, &unfenced, located)?;
        take_uncovered(&mut self.unasserted, looked, located, unasserted)?;
        Ok(())
    }
}

// Counts the names of those stores of a section that no later assertion covers, where these are asked for.
fn take_uncovered<'a>(
    listing: &mut Listing<'a>,
    looked: &Looked,
    located: &[Located<'a>],
    asked: bool,
) -> Result<(), AllocError>
    requires { (names : List (List ℕ)) × Lists listing.old names × (length names + length looked.now.section.value.events < 2 ^ 64) }
    ensures { (names : List (List ℕ)) → Lists listing.old names
        → OnOk result (Lists listing.new (names ++ names_among (is_asked asked looked.now.section.value.events) located.now
        (length looked.now.section.value.events))) }
{
    if !asked {
        return Ok(());
    }
    take_marked(listing, &looked.uncovered, located)?;
    Ok(())
}

// Counts the names of those stores whose places are marked.
fn take_marked<'a>(
    listing: &mut Listing<'a>,
    marks: &[bool],
    located: &[Located<'a>],
) -> Result<(), AllocError>
    requires { (names : List (List ℕ)) × Lists listing.old names × (length names + length marks.now < 2 ^ 64) }
    ensures { (names : List (List ℕ)) (test : ℕ → Bool) (n : ℕ) → Lists listing.old names → Marks test n marks.now
        → OnOk result (Lists listing.new (names ++ names_among test located.now n)) }
{
    for index in 0..marks.len() {
        take_if(listing, marks[index], located, index)?;
    }
    Ok(())
}

// Counts the name of the store whose record stands at the index, where this is so.
fn take_if<'a>(
    listing: &mut Listing<'a>,
    marked: bool,
    located: &[Located<'a>],
    index: usize,
) -> Result<(), AllocError>
    requires { (names : List (List ℕ)) × Lists listing.old names × (length names + 1 < 2 ^ 64) }
    ensures { (names : List (List ℕ)) → Lists listing.old names
        → OnOk result (Lists listing.new (names ++ (if marked then name_there (slice_get located.now index) else []))) }
{
    if !marked {
        return Ok(());
    }
    if index < located.len() {
        listing.take(store_name(located[index].text))?;
    }
    Ok(())
}

/// The name of the store that the record tells.
#[tactic(auto, unfolding(crate::specs::StoreNames::store_name))]
fn store_name(text: &[u8]) -> &[u8]
    ensures { result.now ≡ store_name text.now }
{
    let made = field(text, 4);
    if made.is_empty() {
        return field(text, 1);
    }
    made
}
