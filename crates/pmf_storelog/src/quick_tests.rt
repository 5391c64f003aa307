//! The quick reading: where it answers. That it says what the plain one does is proved.

use crate::quick::{read_part, read_quickly};
use crate::record::Saying;

#[test]
fn the_usual_spelling_is_read_quickly(rt: HostRuntime) {
    for text in [
        "STORE;0x1000;0x0;0x8",
        "STORE;0x7FFFffffFFFFffff;;0x0001",
        "FLUSH;0x1000;0x8",
        "FENCE",
        "PMT.PERSIST;0x1000;0x8",
        "PMT.ORDERED;0x1000;0x8;0x7fffffffffffffff;0x1",
        "PMT.TXADD;0x1000;0x8",
    ] {
        let quick = read_quickly(text.as_bytes());
        assert!(rt; matches!(&quick, Some(Saying::Happens(_))), "at {text}");
    }
}

#[test]
fn a_name_that_begins_as_none_of_the_known_is_skipped_quickly(rt: HostRuntime) {
    for text in ["START", "STOR", "REGISTER_FILE;0x1000;8", "F;1", ";", "PMT"] {
        let quick = read_quickly(text.as_bytes());
        assert!(rt; matches!(&quick, Some(Saying::Skipped)), "at {text}");
    }
}

#[test]
fn a_part_is_read_up_to_its_separator(rt: HostRuntime) {
    for text in [
        "FLUSH;0x1000;0x8|",
        "FLUSH;0x1000;0x8\nFENCE",
        "FLUSH;0x1000;0x8\r\n",
    ] {
        let part = read_part(text.as_bytes());
        assert!(rt; part.is_some(), "at {text}");
    }
}
