//! Changes for which room is refused. With ample memory this test only follows its events; under
//! `tests/refuse-memory` each change fails in turn, and `found_of` then asks all that was kept before.

use super::{BASE, found_of};
use pmf_event::{Event, Span};
use std::test::Fail;

#[test]
fn a_refused_backup_or_store_changes_nothing(rt: HostRuntime) -> Result<(), Fail> {
    let alloc = rt.alloc();
    let mut backups = Vec::new(alloc);
    backups.push(Event::CheckStart)?;
    backups.push(Event::TxBegin)?;
    for index in 0..64 {
        backups.push(Event::TxAdd(Span::make(BASE + index * 37 % 256, 1)?))?;
    }
    found_of(&rt, alloc, backups.as_slice())?;
    let mut stores = Vec::new(alloc);
    stores.push(Event::Exclude(Span::make(BASE, 256)?))?;
    stores.push(Event::CheckStart)?;
    stores.push(Event::TxBegin)?;
    for index in 0..32 {
        stores.push(Event::Store(Span::make(BASE + index * 37 % 256, 1)?))?;
        stores.push(Event::TxAdd(Span::make(BASE + index * 8, 3)?))?;
    }
    found_of(&rt, alloc, stores.as_slice())?;
    Ok(())
}
