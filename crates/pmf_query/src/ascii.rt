//! Bytes of a log as text in ASCII.

ghost use Rattle.std.specs.Prelude.{◌≡◌, [], ◌∷◌, ◌++◌, true, OnOk, flat_map, string_bytes};
ghost use Rattle.pmf_query.specs.Ascii.{escaped, is_printed, is_text, shown_byte, shown_text};

use std::alloc::AllocError;

/// Whether each byte of the name is a character that ASCII prints.
#[tactic(auto, unfolding(crate::specs::Ascii::is_text))]
pub fn is_text(name: &[u8]) -> bool
    ensures { result ≡ is_text name.now }
{
    for byte in name {
        if !is_printed(*byte) {
            return false;
        }
    }
    true
}

#[tactic(auto, unfolding(crate::specs::Ascii::is_printed))]
fn is_printed(byte: u8) -> bool
    ensures { result ≡ is_printed byte }
{
    0x20 <= byte && byte <= 0x7e
}

/// Writes bytes of a log in ASCII behind the text: up to so many of them, and `..` where there are more. A backslash is written twice,
/// and a byte that is no printed character as `\xHH`. After an `Err` some of it may stand there.
#[tactic(auto, using(crate::proofs::AsciiLemmas::short_text), unfolding(crate::specs::Ascii::shown_text))]
pub fn push_ascii(text: &mut String, bytes: &[u8], most: usize) -> Result<(), AllocError>
    ensures { OnOk result (string_bytes text.new ≡ string_bytes text.old ++ shown_text most bytes.now) }
{
    if bytes.len() <= most {
        return push_bytes(text, bytes);
    }
    let (front, _) = bytes.split_at(most);
    push_bytes(text, front)?;
    text.push_str("..")
}

/// Writes all bytes so.
pub(crate) fn push_bytes(text: &mut String, bytes: &[u8]) -> Result<(), AllocError>
    ensures { OnOk result (string_bytes text.new
        ≡ string_bytes text.old ++ flat_map (λ b. shown_byte b) bytes.now) }
{
    for byte in bytes {
        push_byte(text, *byte)?;
    }
    Ok(())
}

#[tactic(auto, unfolding(crate::specs::Ascii::shown_byte))]
fn push_byte(text: &mut String, byte: u8) -> Result<(), AllocError>
    ensures { OnOk result (string_bytes text.new ≡ string_bytes text.old ++ shown_byte byte) }
{
    if byte == b'\\' {
        return text.push_str("\\\\");
    }
    if is_printed(byte) {
        return push_printed(text, byte);
    }
    push_escaped(text, byte)
}

#[tactic(auto, using(crate::proofs::AsciiLemmas::printed_alone))]
fn push_printed(text: &mut String, byte: u8) -> Result<(), AllocError>
    requires { is_printed byte ≡ true }
    ensures { OnOk result (string_bytes text.new ≡ string_bytes text.old ++ byte ∷ []) }
{
    text.push(char::from(byte))?;
    Ok(())
}

#[tactic(auto, using(std::proofs::lemmas::Fmt::hex_byte))]
fn push_escaped(text: &mut String, byte: u8) -> Result<(), AllocError>
    ensures { OnOk result (string_bytes text.new ≡ string_bytes text.old ++ escaped byte) }
{
    write!(text, "\\x{byte:02x}")?;
    Ok(())
}
