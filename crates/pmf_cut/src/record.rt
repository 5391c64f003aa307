//! The records that are put into a log, each with the separator behind it.

ghost use Rattle.std.specs.Prelude.{IfOk};
ghost use Rattle.pmf_storelog.specs.{declared.record.Saying.TheVariants.{Enters, Happens}};
ghost use Rattle.pmf_cut.specs.Outputs.{Spells};

use pmf_event::Event;
use pmf_storelog::push_event;
use std::alloc::{AllocError, Global};

/// A record that says the event.
#[tactic(auto, using(crate::proofs::OutputLemmas::spells_event))]
pub(crate) fn event_record(alloc: Global, event: &Event) -> Result<Vec<u8>, AllocError>
    ensures { IfOk result (λ bytes. Spells bytes.items (Happens event.now)) }
{
    let mut line = String::new(alloc);
    push_event(&mut line, event)?;
    let mut bytes = line.into_bytes();
    bytes.pop();
    bytes.push(b'|')?;
    Ok(bytes)
}

/// A marker of the section with this number.
#[tactic(auto, using(crate::proofs::OutputLemmas::spells_marker))]
pub(crate) fn marker(alloc: Global, number: u64) -> Result<Vec<u8>, AllocError>
    ensures { IfOk result (λ bytes. Spells bytes.items (Enters number)) }
{
    let text = format!(in alloc; "PMT.SECTION;{number}|")?;
    Ok(text.into_bytes())
}
