//! The files that a list names.

ghost use Rattle.std.specs.Prelude.{◌≡◌, ◌++◌, map, All, IfOk, IsUtf8, MatchOption};
ghost use Rattle.pmf_command.specs.Answered.{names_in};

use std::alloc::{AllocError, Global};
use std::str;

/// These names, and behind them those of the list: each of its text lines that is not empty. None where one of these is not UTF-8.
pub(crate) fn all_names<'a>(
    alloc: Global,
    words: &[&'a str],
    list: &'a [u8],
) -> Result<Option<Vec<&'a str>>, AllocError>
    ensures { IfOk result (λ made. MatchOption made (All IsUtf8 (names_in list.now) → ⊥)
        (λ names. All IsUtf8 (names_in list.now)
        × (map (λ name. name.now) names.items ≡ map (λ name. name.now) words.now ++ names_in list.now))) }
{
    let mut names = Vec::new(alloc);
    names.extend_from_slice(words)?;
    for line in list.split(|&byte| byte == b'\n') {
        if line.is_empty() {
            continue;
        }
        match str::from_utf8(line) {
            Ok(name) => names.push(name)?,
            Err(_) => return Ok(None),
        }
    }
    Ok(Some(names))
}
