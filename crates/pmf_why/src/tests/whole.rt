//! Causes and cures of whole logs.

use crate::tell_why;
use pmf_device::{ByteSink, Stop};
use pmf_event::Profile;
use pmf_query::{EventFault, EventRefusal, Unanswered};
use pmf_request::{Reasons, Sought};
use std::test::Fail;

const LOG: &[u8] =
    b"STORE;0x10040;0x1;0x18;append (append_log.c:59)|FLUSH;0x10040;0x40|STORE;0x10000;0x1;0x8;append (append_log.c:63)|PMT.ORDERED;0x10040;0x18;0x10000;0x8|FLUSH;0x10000;0x40|FENCE|PMT.PERSIST;0x10040;0x8|STORE;0x20000;1;8|PMT.PERSIST;0x20000;8|FLUSH;0x20000;0x40|FLUSH;0x20000;0x40|PMT.TXEND|PMT.CHECKSTART";

const TEXT: &str = "0.0 4 ORDERED FAIL byte=0x10040 after=0x10000 crash=3
  lost     record 1 STORE;0x10040;0x1;0x18;append (append_log.c:59)
  kept     record 3 STORE;0x10000;0x1;0x8;append (append_log.c:63)
  cause    not fenced: written back by record 2, no fence before record 3; too late by record 6
  cure     before record 3: FENCE
           this row then passes
0.0 9 PERSIST FAIL byte=0x20000 crash=9
  lost     record 8 STORE;0x20000;1;8
  cause    not written back before record 9: too late by record 10
  cure     before record 9: FLUSH;0x20000;0x40
           before record 9: FENCE
           this row then passes
0.0 11 FLUSH DOUBLED line=0x20000 lines=1
  event    record 11 FLUSH;0x20000;0x40
  cause    written back already, by record 10
  cure     leave out record 11
           this row is then gone
0.0 12 TXEND UNMATCHED
  event    record 12 PMT.TXEND
  cause    no transaction has begun
  cure     leave out record 12
           this row is then gone
0.0 14 SECTION UNCLOSED start=13
  event    the section's end
  cause    the scope that record 13 opened is still open
  cure     at the end: PMT.CHECKEND
           this row is then gone
rows=5 told=5 untold=0; with all cures: pass=4 fail=0
";

fn asked_for() -> Reasons {
    Reasons {
        run: 0,
        profile: Profile::One,
        section: None,
        event: None,
        first: 20,
        all: false,
    }
}

#[test]
fn each_row_has_its_cause_and_its_cure(rt: HostRuntime) -> Result<(), Fail> {
    let mut text = ByteSink::new(rt.alloc());
    assert_eq!(rt; tell_why(rt.alloc(), LOG, asked_for(), &mut text), Ok(()));
    assert!(rt; text.bytes() == TEXT.as_bytes());
    Ok(())
}

// Three stores that are not written back, two of them by one line of the source, in two sections.
const ALIKE: &[u8] =
    b"STORE;0x0;1;8;a (x.c:1)|FENCE|PMT.PERSIST;0x0;8|PMT.SECTION;4|STORE;0x40;1;8;a (x.c:1)|PMT.PERSIST;0x40;8
STORE;0x80;1;8;b (x.c:9);main|PMT.PERSIST;0x80;8";

const FIRST: &str = "0.0 3 PERSIST FAIL byte=0x0 crash=3
  lost     record 1 STORE;0x0;1;8;a (x.c:1)
  cause    not written back: no write-back of its line behind the store
  cure     before record 2: FLUSH;0x0;0x40
           this row then passes
";

const LAST: &str = "0.4 4 PERSIST FAIL byte=0x80 crash=4
  lost     record 7 STORE;0x80;1;8;b (x.c:9);main
  cause    not written back: no write-back of its line behind the store
  cure     before record 8: FLUSH;0x80;0x40
           before record 8: FENCE
           this row then passes
";

#[test]
fn rows_of_one_place_in_the_source_are_told_once(rt: HostRuntime) -> Result<(), Fail> {
    let alloc = rt.alloc();
    let one_more = "1 more like 0.0 3 PERSIST FAIL byte=0x0 crash=3\n";
    let end = "; with all cures: pass=3 fail=0\n";
    let cases: [(Reasons, String); 4] = [
        (
            asked_for(),
            format!(in alloc; "{FIRST}{LAST}{one_more}rows=3 told=2 untold=0{end}")?,
        ),
        (
            Reasons {
                first: 1,
                ..asked_for()
            },
            format!(in alloc; "{FIRST}{one_more}rows=3 told=1 untold=1{end}")?,
        ),
        (
            Reasons {
                section: Some(4),
                event: Some(4),
                ..asked_for()
            },
            format!(in alloc; "{LAST}rows=1 told=1 untold=0; with all cures: pass=2 fail=0\n")?,
        ),
        (
            Reasons {
                event: Some(2),
                section: Some(0),
                ..asked_for()
            },
            format!(in alloc; "no row at event 2\n")?,
        ),
    ];
    for (asked, want) in cases {
        let mut text = ByteSink::new(alloc);
        assert_eq!(rt; tell_why(alloc, ALIKE, asked, &mut text), Ok(()));
        assert!(rt; text.bytes() == want.as_bytes(), "{asked:?}");
    }
    Ok(())
}

// What a sink takes that fails is the front of the whole text.
#[test]
fn rows_are_told_up_to_the_write_that_fails(rt: HostRuntime) {
    let mut whole = ByteSink::new(rt.alloc());
    assert_eq!(rt;
        tell_why(rt.alloc(), ALIKE, asked_for(), &mut whole),
        Ok(())
    );
    for room in 0..whole.bytes().len() {
        let mut text = ByteSink::new(rt.alloc()).failing_after(room);
        let written = room as u64;
        let stopped = tell_why(rt.alloc(), ALIKE, asked_for(), &mut text);
        assert_eq!(rt; stopped, Err(Unanswered::Stopped(Stop::Failed { written })));
        assert!(rt; text.bytes() == &whole.bytes()[..room], "{room}");
    }
}

#[test]
fn a_section_that_is_named_has_to_be_there(rt: HostRuntime) {
    let asked = Reasons {
        run: 9,
        section: Some(7),
        ..asked_for()
    };
    let missing = EventRefusal {
        sought: Sought {
            run: 9,
            section: 7,
            event: 0,
        },
        fault: EventFault::NoSection,
    };
    let mut text = ByteSink::new(rt.alloc());
    let refused = tell_why(rt.alloc(), ALIKE, asked, &mut text);
    assert_eq!(rt; refused, Err(Unanswered::Refused(missing)));
    let faulty = tell_why(rt.alloc(), b"FLUSH;1", asked, &mut text);
    assert!(rt;
        matches!(
            faulty,
            Err(Unanswered::Refused(EventRefusal {
                fault: EventFault::Log(_),
                ..
            }))
        )
    );
    assert!(rt; text.bytes().is_empty());
}
