//! The numbers that a text spells.

ghost use Rattle.std.specs.{Prelude.{◌≡◌, ◌<◌, ◌≤◌, None, Some, MatchOption}, Char.{digit_value}};
ghost use Rattle.pmf_storelog.specs.Numbers.{digits_in_front, number_in_front, number_of, numeral_of};

/// The number that the text spells, or None where it spells none below 2^64.
#[tactic(auto, unfolding(crate::specs::Numbers::number_of))]
pub(crate) fn read_number(text: &[u8]) -> Option<u64>
    ensures { result ≡ number_of text.now }
{
    if text.starts_with(b"0x") {
        read_numeral(&text[2..], 16, 16)
    } else {
        read_numeral(text, 10, 20)
    }
}

/// The number below 2^64 that the decimal digits at the front of the text spell, 1 to 20 and all that stand
/// there, and the text behind them. None where they spell no such number. Takes no memory.
#[tactic(auto, unfolding(crate::specs::Numbers::number_in_front))]
pub fn read_number_in_front(text: &[u8]) -> Option<(u64, &[u8])>
    ensures { MatchOption result (number_in_front text.now ≡ None)
        (λ found. number_in_front text.now ≡ Some (found.0, found.1.now)) }
{
    let (digits, rest) = text.split_at(count_digits(text));
    match read_numeral(digits, 10, 20) {
        Some(number) => Some((number, rest)),
        None => None,
    }
}

// How many decimal digits the text begins with.
fn count_digits(text: &[u8]) -> usize
    ensures { result ≡ digits_in_front text.now }
{
    let mut count = 0;
    while count < text.len() && digit_of(text[count]) < 10 {
        count += 1;
    }
    count
}

// The number below 2^64 that 1 to `most` digits spell in this radix.
#[tactic(auto, using(std::proofs::lemmas::Grind::common_steps, crate::proofs::NumberLemmas::numeral_of_empty, crate::proofs::NumberLemmas::numeral_of_long, crate::proofs::NumberLemmas::at_other, crate::proofs::NumberLemmas::at_large, crate::proofs::NumberLemmas::at_digit, crate::proofs::NumberLemmas::at_end))]
fn read_numeral(text: &[u8], radix: u64, most: usize) -> Option<u64>
    requires { 0 < radix }
    ensures { result ≡ numeral_of radix most text.now }
{
    if text.is_empty() || text.len() > most {
        return None;
    }
    let mut value: u64 = 0;
    for &byte in text {
        let digit = digit_of(byte);
        if digit >= radix {
            return None;
        }
        value = value.checked_mul(radix)?.checked_add(digit)?;
    }
    Some(value)
}

// The value of each byte as a digit or as a letter of either case, or 36.
const DIGITS: [u8; 256] = [
    36, 36, 36, 36, 36, 36, 36, 36, 36, 36, 36, 36, 36, 36, 36, 36, 36, 36, 36, 36, 36, 36, 36, 36,
    36, 36, 36, 36, 36, 36, 36, 36, 36, 36, 36, 36, 36, 36, 36, 36, 36, 36, 36, 36, 36, 36, 36, 36,
    0, 1, 2, 3, 4, 5, 6, 7, 8, 9, 36, 36, 36, 36, 36, 36, 36, 10, 11, 12, 13, 14, 15, 16, 17, 18,
    19, 20, 21, 22, 23, 24, 25, 26, 27, 28, 29, 30, 31, 32, 33, 34, 35, 36, 36, 36, 36, 36, 36, 10,
    11, 12, 13, 14, 15, 16, 17, 18, 19, 20, 21, 22, 23, 24, 25, 26, 27, 28, 29, 30, 31, 32, 33, 34,
    35, 36, 36, 36, 36, 36, 36, 36, 36, 36, 36, 36, 36, 36, 36, 36, 36, 36, 36, 36, 36, 36, 36, 36,
    36, 36, 36, 36, 36, 36, 36, 36, 36, 36, 36, 36, 36, 36, 36, 36, 36, 36, 36, 36, 36, 36, 36, 36,
    36, 36, 36, 36, 36, 36, 36, 36, 36, 36, 36, 36, 36, 36, 36, 36, 36, 36, 36, 36, 36, 36, 36, 36,
    36, 36, 36, 36, 36, 36, 36, 36, 36, 36, 36, 36, 36, 36, 36, 36, 36, 36, 36, 36, 36, 36, 36, 36,
    36, 36, 36, 36, 36, 36, 36, 36, 36, 36, 36, 36, 36, 36, 36, 36, 36, 36, 36, 36, 36, 36, 36, 36,
    36, 36, 36, 36, 36, 36, 36, 36, 36, 36, 36, 36, 36, 36,
];

// The value of a digit or of a letter of either case; 36 for any other byte.
#[inline]
#[tactic(auto, using(crate::proofs::DigitLemmas::table_value))]
pub(crate) fn digit_of(byte: u8) -> u64
    ensures value { result ≡ digit_value byte }
{
    u64::from(DIGITS[byte as usize])
}
