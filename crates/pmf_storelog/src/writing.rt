//! The canonical text of a section.

ghost use Rattle.std.specs.Prelude.{◌≡◌, ◌++◌, ◌∷◌, [], ◌<◌, ◌^◌, Ok, OnOk, IfOk, string_bytes};
ghost use Rattle.pmf_storelog.specs.{Canonical.{canonical_text, field_of, fields_of_span, fields_of_event, line_of_event, line_of_marker, name_of}, LogText.{log_of}, Spelling.{AllValid, IsValid}};

use pmf_event::{Event, Section, Span};
use std::alloc::{AllocError, Global};

#[tactic(auto, unfolding(crate::specs::Canonical::field_of))]
fn push_field(text: &mut String, number: u64) -> Result<(), AllocError>
    ensures { OnOk result (string_bytes text.new ≡ string_bytes text.old ++ field_of number) }
{
    write!(text, ";0x{number:x}")
}

#[tactic(auto, unfolding(crate::specs::Canonical::fields_of_span))]
fn push_span(text: &mut String, span: &Span) -> Result<(), AllocError>
    ensures text { OnOk result
        (string_bytes text.new ≡ string_bytes text.old ++ fields_of_span span.now) }
    ensures valid { OnOk result (IsValid span.now) }
{
    push_field(text, span.first())?;
    push_field(text, span.size())?;
    Ok(())
}

// The name of the record that spells an event.
#[tactic(auto, unfolding(crate::specs::Canonical::name_of))]
fn name_of(event: &Event) -> &'static str
    ensures { result.now ≡ name_of event.now }
{
    match event {
        Event::Store(_) => "STORE",
        Event::Flush(_) => "FLUSH",
        Event::Fence => "FENCE",
        Event::Persist(_) => "PMT.PERSIST",
        Event::Ordered(_, _) => "PMT.ORDERED",
        Event::Exclude(_) => "PMT.EXCLUDE",
        Event::Include(_) => "PMT.INCLUDE",
        Event::TxBegin => "PMT.TXBEGIN",
        Event::TxAdd(_) => "PMT.TXADD",
        Event::TxEnd => "PMT.TXEND",
        Event::CheckStart => "PMT.CHECKSTART",
        Event::CheckEnd => "PMT.CHECKEND",
    }
}

#[tactic(auto, unfolding(crate::specs::Canonical::fields_of_event))]
fn push_fields(text: &mut String, event: &Event) -> Result<(), AllocError>
    ensures text { OnOk result
        (string_bytes text.new ≡ string_bytes text.old ++ fields_of_event event.now) }
    ensures valid { OnOk result (AllValid event.now) }
{
    match event {
        Event::Store(span) => {
            push_field(text, span.first())?;
            text.push_str(";0x0")?;
            push_field(text, span.size())?;
        }
        Event::Ordered(before, after) => {
            push_span(text, before)?;
            push_span(text, after)?;
        }
        Event::Flush(span)
        | Event::Persist(span)
        | Event::Exclude(span)
        | Event::Include(span)
        | Event::TxAdd(span) => push_span(text, span)?,
        Event::Fence | Event::TxBegin | Event::TxEnd | Event::CheckStart | Event::CheckEnd => {}
    }
    Ok(())
}

/// Writes the canonical text line of the event behind the text. After an `Err` some of it may stand there.
pub fn push_event(text: &mut String, event: &Event) -> Result<(), AllocError>
    ensures text { OnOk result
        (string_bytes text.new ≡ string_bytes text.old ++ line_of_event event.now) }
    ensures valid { OnOk result (AllValid event.now) }
{
    text.push_str(name_of(event))?;
    push_fields(text, event)?;
    text.push_str("\n")?;
    Ok(())
}

#[tactic(auto, unfolding(crate::specs::Canonical::line_of_marker))]
fn push_marker(text: &mut String, number: u64) -> Result<(), AllocError>
    ensures text { OnOk result
        (string_bytes text.new ≡ string_bytes text.old ++ line_of_marker number) }
    ensures small { number < 2 ^ 64 }
{
    text.push_str("PMT.SECTION")?;
    push_field(text, number)?;
    text.push_str("\n")?;
    Ok(())
}

/// The canonical text of the section: its marker, and one text line for each event. The text is a log
/// that says this section and nothing else. Takes memory for the text alone.
#[tactic(auto, using(std::proofs::lemmas::Grind::common_steps, crate::proofs::ReadBackLemmas::read_back))]
pub fn write_section(alloc: Global, section: &Section) -> Result<Vec<u8>, AllocError>
    ensures text { IfOk result (λ text. text.items ≡ canonical_text section.now) }
    ensures reads_back { IfOk result (λ text. log_of section.now.name.run text.items
        ≡ Ok (record { sections = section.now ∷ []; skipped = 0 })) }
{
    let mut text = String::new(alloc);
    push_marker(&mut text, section.name().number)?;
    let events = section.events();
    for index in 0..events.len() {
        push_event(&mut text, &events.at(index))?;
    }
    Ok(text.into_bytes())
}
