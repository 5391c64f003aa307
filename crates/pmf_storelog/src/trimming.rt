//! A record without the blanks at both ends.

ghost use Rattle.std.specs.Prelude.{◌≡◌};
ghost use Rattle.pmf_storelog.specs.Separators.{is_blank, trimmed, without_end_blanks, without_front_blanks};

/// The bytes without the spaces and tabs at both ends.
#[inline]
pub fn trim(part: &[u8]) -> &[u8]
    ensures { result.now ≡ trimmed part.now }
{
    trim_end(trim_front(part))
}

#[inline]
fn blank(byte: u8) -> bool
    ensures { result ≡ is_blank byte }
{
    byte == b' ' || byte == b'\t'
}

#[inline]
#[tactic(auto, unfolding(crate::specs::Separators::without_front_blanks))]
fn trim_front(part: &[u8]) -> &[u8]
    ensures { result.now ≡ without_front_blanks part.now }
{
    let mut start = 0;
    while start < part.len() && blank(part[start]) {
        start += 1;
    }
    &part[start..]
}

#[inline]
#[tactic(auto, unfolding(crate::specs::Separators::without_end_blanks))]
fn trim_end(part: &[u8]) -> &[u8]
    ensures { result.now ≡ without_end_blanks part.now }
{
    let mut end = part.len();
    while end > 0 && blank(part[end - 1]) {
        end -= 1;
    }
    &part[..end]
}
