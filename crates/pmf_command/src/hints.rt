//! What is said behind the line of a fault: what may help.

use crate::shelf::Unread;
use pmf_lint::near;
use pmf_storelog::{Cause, read_number_in_front};
use std::fmt::Display;
use std::io::Eprint;
use std::{fmt, io};

/// How many bytes of a field are shown, at most.
const SHOWN: usize = 60;

/// How the system tells that a process has no descriptor left.
const TOO_MANY_FILES: i32 = 24;

/// Says what may help against the fault of a log, by the record in which it stands.
pub(crate) fn print_hint<R: Eprint>(rt: &R, cause: Cause, record: &[u8]) {
    match cause {
        Cause::UnknownMarker => print_near(rt, cut(record).0),
        Cause::BadNumber => print_field(rt, record),
        Cause::TooManyEvents => say(rt, "`pmfarm cut` cuts a long section into parts"),
        Cause::TooLong => say(
            rt,
            "`pmfarm cut --files PREFIX` cuts a long log into several",
        ),
        _ => {}
    }
}

/// Says what the system said of a read that failed, where that is known.
pub(crate) fn print_reason<R: Eprint>(rt: &R, reason: Option<io::Error>) {
    if let Some(error) = reason {
        say(rt, error);
    }
}

/// Says of a file that is opened beside others if that are too many.
pub(crate) fn print_limit<R: Eprint>(rt: &R, why: Unread) {
    if let Unread::Failed(Some(error)) = why {
        if error.raw_os_error() == Some(TOO_MANY_FILES) {
            say(
                rt,
                "`ulimit -n` raises how many files are open at once, and a tree of joins takes some at a time",
            );
        }
    }
}

/// Says of a file that is not there if its name may be one of a list with carriage returns.
pub(crate) fn print_end<R: Eprint>(rt: &R, name: &str) {
    if name.as_bytes().last() == Some(&b'\r') {
        say(
            rt,
            "the name ends in a carriage return: lines of a list end in a line feed alone",
        );
    }
}

/// Says what may help.
pub(crate) fn say<R: Eprint, D: Display + Drop>(rt: &R, hint: D) {
    let _ = eprintln!(rt; "pmfarm: hint: {hint}");
}

// The marker that may be meant.
fn print_near<R: Eprint>(rt: &R, name: &[u8]) {
    if let Some(known) = near(name) {
        let _ = eprintln!(rt;
            "pmfarm: hint: {}: {}?",
            Shown { bytes: name },
            Shown { bytes: known }
        );
    }
}

// The field that is no number. Where the name of a record stands in it, two writers may have shared a file.
fn print_field<R: Eprint>(rt: &R, record: &[u8]) {
    let Some(field) = no_number(record) else {
        return;
    };
    let shown = Shown { bytes: field };
    let _ = match glued(field) {
        Some(name) => {
            eprintln!(rt;
                "pmfarm: hint: {shown}: {name} within a field: give each thread a log of its own, or write whole records at once"
            )
        }
        None => {
            eprintln!(rt;
                "pmfarm: hint: {shown}: a number is decimal, or 0x and hexadecimal digits, below 2^64"
            )
        }
    };
}

// The first field that is to be a number and is none.
fn no_number(record: &[u8]) -> Option<&[u8]> {
    let (name, mut rest) = cut(record);
    for index in 1..5 {
        let (field, more) = cut(rest?);
        rest = more;
        let is_value = index == 2 && name == b"STORE".as_slice();
        if !is_value && !is_number(field) {
            return Some(field);
        }
    }
    None
}

fn is_number(field: &[u8]) -> bool {
    match field.strip_prefix(b"0x") {
        Some(digits) => {
            !digits.is_empty()
                && digits.len() <= 16
                && digits.iter().all(|it| it.is_ascii_hexdigit())
        }
        None => matches!(read_number_in_front(field), Some((_, [])))
    }
}

// The name of a record that stands in the field.
fn glued(field: &[u8]) -> Option<&'static str> {
    for name in ["STORE", "FLUSH", "FENCE", "PMT."] {
        if has_within(field, name.as_bytes()) {
            return Some(name);
        }
    }
    None
}

fn has_within(text: &[u8], word: &[u8]) -> bool {
    for start in 0..text.len() {
        if text[start..].starts_with(word) {
            return true;
        }
    }
    false
}

// The first field, and the text behind it where a semicolon ends it.
fn cut(text: &[u8]) -> (&[u8], Option<&[u8]>) {
    for end in 0..text.len() {
        if text[end] == b';' {
            return (&text[..end], Some(&text[end + 1..]));
        }
    }
    (text, None)
}

// The first bytes as ASCII, each that it does not print as `?`.
#[derive(Drop)]
struct Shown<'a> {
    bytes: &'a [u8],
}

impl Display for Shown<'_> {
    fn fmt<W: fmt::Write>(&self, f: &mut fmt::Formatter<W>) -> fmt::Result {
        if self.bytes.is_empty() {
            return f.write_str("an empty field");
        }
        for byte in self.bytes.iter().take(SHOWN) {
            let is_printed = byte.is_ascii_graphic() || *byte == b' ';
            f.write_char(if is_printed { *byte as char } else { '?' })?;
        }
        if self.bytes.len() > SHOWN {
            f.write_str("..")?;
        }
        Ok(())
    }
}
