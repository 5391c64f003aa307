//! Logs with their cures.

use crate::{PatchRefusal, patch_text};
use pmf_event::Profile;
use pmf_query::{EventFault, EventRefusal};
use pmf_request::{Patches, Sought};
use std::test::Fail;

fn asked_for(section: Option<u64>) -> Patches {
    Patches {
        run: 9,
        profile: Profile::One,
        section,
    }
}

// Changes within a section and at its end, in two sections that come in turns.
const LOG: &[u8] =
    b"STORE;0x40;1;8;a (x.c:1)|PMT.SECTION;4\r\nSTORE;0x80;1;8\n\n# four|PMT.SECTION;0|PMT.PERSIST;0x40;8|PMT.CHECKSTART\t|\tPMT.SECTION;4|FLUSH;0x80;64|FLUSH;0x80;64;b (x.c:7)\xff|FENCE|PMT.PERSIST;0x80;8";

#[test]
fn a_log_with_its_cures_is_the_log_but_for_them(rt: HostRuntime) -> Result<(), Fail> {
    let cases: [(Option<u64>, &[u8]); 3] = [
        (
            None,
            b"STORE;0x40;1;8;a (x.c:1)|PMT.SECTION;4\r\nSTORE;0x80;1;8\n\n# four|PMT.SECTION;0|FLUSH;0x40;0x40\nFENCE\nPMT.PERSIST;0x40;8|PMT.CHECKSTART\nPMT.CHECKEND\t|\tPMT.SECTION;4|FLUSH;0x80;64||FENCE|PMT.PERSIST;0x80;8",
        ),
        (
            Some(0),
            b"STORE;0x40;1;8;a (x.c:1)|PMT.SECTION;4\r\nSTORE;0x80;1;8\n\n# four|PMT.SECTION;0|FLUSH;0x40;0x40\nFENCE\nPMT.PERSIST;0x40;8|PMT.CHECKSTART\nPMT.CHECKEND\t|\tPMT.SECTION;4|FLUSH;0x80;64|FLUSH;0x80;64;b (x.c:7)\xff|FENCE|PMT.PERSIST;0x80;8",
        ),
        (
            Some(4),
            b"STORE;0x40;1;8;a (x.c:1)|PMT.SECTION;4\r\nSTORE;0x80;1;8\n\n# four|PMT.SECTION;0|PMT.PERSIST;0x40;8|PMT.CHECKSTART\t|\tPMT.SECTION;4|FLUSH;0x80;64||FENCE|PMT.PERSIST;0x80;8",
        ),
    ];
    for (section, want) in cases {
        let text = patch_text(rt.alloc(), LOG, asked_for(section))?;
        assert!(rt; text.as_slice() == want, "{section:?}");
    }
    Ok(())
}

#[test]
fn a_log_with_nothing_to_cure_stays(rt: HostRuntime) -> Result<(), Fail> {
    // One store writes both bytes of the last one, so that no change helps.
    let cases: [&[u8]; 4] = [
        b"",
        b" \r\n||",
        b"STORE;0;1;8|FLUSH;0;64|FENCE|PMT.PERSIST;0;8|PMT.SECTION;3|no event;\xff",
        b"STORE;0x1000;7;16|PMT.ORDERED;0x1000;8;0x1008;8",
    ];
    for log in cases {
        let text = patch_text(rt.alloc(), log, asked_for(None))?;
        assert!(rt; text.as_slice() == log, "{log:?}");
    }
    Ok(())
}

#[test]
fn a_section_of_which_each_event_is_left_out_stays_one(rt: HostRuntime) -> Result<(), Fail> {
    let cases: [(&[u8], &[u8]); 4] = [
        (b"PMT.TXEND", b"PMT.SECTION;0\n"),
        (b"x|FLUSH;0;64|FLUSH;0;64", b"PMT.SECTION;0\nx||"),
        (
            b"PMT.TXEND|PMT.SECTION;1|FENCE",
            b"PMT.SECTION;0\n|PMT.SECTION;1|FENCE",
        ),
        (b"PMT.SECTION;1|PMT.TXEND", b"PMT.SECTION;1|"),
    ];
    for (log, want) in cases {
        let text = patch_text(rt.alloc(), log, asked_for(None))?;
        assert!(rt; text.as_slice() == want, "{log:?}");
    }
    Ok(())
}

#[test]
fn a_log_is_refused_as_by_why(rt: HostRuntime) {
    let missing = EventRefusal {
        sought: Sought {
            run: 9,
            section: 7,
            event: 0,
        },
        fault: EventFault::NoSection,
    };
    let refused = patch_text(rt.alloc(), LOG, asked_for(Some(7))).err();
    assert_eq!(rt; refused, Some(PatchRefusal::Why(missing)));
    let faulty = patch_text(rt.alloc(), b"FLUSH;1", asked_for(Some(7)));
    assert!(rt;
        matches!(
            faulty,
            Err(PatchRefusal::Why(EventRefusal {
                fault: EventFault::Log(_),
                ..
            }))
        )
    );
}
