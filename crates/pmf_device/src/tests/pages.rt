//! A text of two parts, whole or cut off.

use crate::device::Device;
use crate::memory::ByteSink;
use crate::page::{Page, Stop};

const FRONT: &[u8] = b"4 PERSIST ";

const PART: &[u8] = b"PASS\n";

#[test]
fn a_page_tells_the_bytes_of_the_whole_text(rt: HostRuntime) {
    for room in 0..FRONT.len() + PART.len() {
        let mut sink = ByteSink::new(rt.alloc()).failing_after(room);
        let mut page = Page::new();
        let front = page.put(&mut sink, FRONT);
        let result = match front {
            Ok(()) => page.put(&mut sink, PART),
            Err(stop) => Err(stop),
        };
        let written = room as u64;
        assert_eq!(rt; result, Err(Stop::Failed { written }));
        assert_eq!(rt; sink.failures(), 1);
    }
    let mut sink = ByteSink::new(rt.alloc());
    let mut page = Page::new();
    assert_eq!(rt; page.put(&mut sink, FRONT), Ok(()));
    assert_eq!(rt; page.put(&mut sink, PART), Ok(()));
    assert!(rt; sink.bytes() == b"4 PERSIST PASS\n".as_slice());
    assert_eq!(rt; page, Page { written: 15 });
}

#[test]
fn a_text_of_too_many_bytes_stops_before_its_last_part(rt: HostRuntime) {
    let mut sink = ByteSink::new(rt.alloc());
    let mut page = Page { written: u64::MAX };
    assert_eq!(rt; page.put(&mut sink, b""), Ok(()));
    assert_eq!(rt; page.put(&mut sink, b"P"), Err(Stop::OutOfMemory));
    assert!(rt; sink.bytes().is_empty());
}
