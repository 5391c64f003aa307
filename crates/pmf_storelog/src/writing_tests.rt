//! The canonical text of a section, and what the reader makes of it.

use super::*;
use pmf_event::{Event, Name, Section, Span};
use std::alloc::Global;
use std::test::Fail;

const NAME: Name = Name { run: 5, number: 26 };

// A section with an event of each kind, and its text.
fn each_kind(alloc: Global) -> Result<Section, Fail> {
    let bytes = Span::make(0x1000, 8)?;
    let line = Span::make(0xabcdef40, 64)?;
    let mut section = Section::new(alloc, NAME);
    for event in [
        Event::Store(bytes),
        Event::Flush(line),
        Event::Fence,
        Event::Persist(bytes),
        Event::Ordered(bytes, line),
        Event::Exclude(line),
        Event::Include(line),
        Event::TxBegin,
        Event::TxAdd(bytes),
        Event::TxEnd,
        Event::CheckStart,
        Event::CheckEnd,
    ] {
        section.push(event)?;
    }
    Ok(section)
}

const EACH_KIND: &[u8] = b"\
PMT.SECTION;0x1a
STORE;0x1000;0x0;0x8
FLUSH;0xabcdef40;0x40
FENCE
PMT.PERSIST;0x1000;0x8
PMT.ORDERED;0x1000;0x8;0xabcdef40;0x40
PMT.EXCLUDE;0xabcdef40;0x40
PMT.INCLUDE;0xabcdef40;0x40
PMT.TXBEGIN
PMT.TXADD;0x1000;0x8
PMT.TXEND
PMT.CHECKSTART
PMT.CHECKEND
";

#[test]
fn each_event_has_its_line_and_each_line_its_event(rt: HostRuntime) -> Result<(), Fail> {
    let section = each_kind(rt.alloc())?;
    let text = write_section(rt.alloc(), &section)?;
    assert!(rt; text.as_slice() == EACH_KIND);
    let log = read_log(rt.alloc(), EACH_KIND, NAME.run)?;
    assert_eq!(rt; log.skipped(), 0);
    assert_eq!(rt; log.sections().len(), 1);
    assert!(rt; log.sections()[0].same_as(&section));
    Ok(())
}
