//! Whether a log ends in the middle of a record.

ghost use Rattle.std.specs.Prelude.{◌≡◌, ◌≤◌, drop, length};
ghost use Rattle.pmf_storelog.specs.Separators.{is_separator, trimmed};
ghost use Rattle.pmf_lint.specs.Ending.{is_open_ended, last_part};

use pmf_storelog::trim;

/// Whether the last record may be cut off: no separator ends it, and it is not `STOP`.
#[tactic(auto, unfolding(crate::specs::Ending::is_open_ended))]
pub(crate) fn is_open_ended(log: &[u8]) -> bool
    ensures { result ≡ is_open_ended log.now }
{
    let last = last_part(log);
    !last.is_empty() && last != b"STOP".as_slice()
}

// What stands behind the last separator, without the blanks at both ends.
fn last_part(log: &[u8]) -> &[u8]
    ensures { result.now ≡ last_part log.now }
{
    trim(&log[start_of_last(log)..])
}

// Where the bytes behind the last separator begin.
fn start_of_last(log: &[u8]) -> usize
    ensures within { result ≤ length log.now }
    ensures there { trimmed (drop result log.now) ≡ last_part log.now }
{
    let mut start = log.len();
    while start > 0 {
        if ends_record(log[start - 1]) {
            return start;
        }
        start -= 1;
    }
    start
}

fn ends_record(byte: u8) -> bool
    ensures { result ≡ is_separator byte }
{
    byte == b'|' || byte == b'\n' || byte == b'\r'
}
