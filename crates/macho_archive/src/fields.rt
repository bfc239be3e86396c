//! Fields of a header: texts filled with spaces, and decimal numbers.
ghost use Rattle.std.specs.Prelude.{◌≡◌, ◌≤◌, ◌==◌, length};
ghost use Rattle.std.specs.Char.{is_ascii_digit};
ghost use Rattle.std.specs.List.{list_all, suffix_len};
ghost use Rattle.macho_archive.specs.Fields.{trimmed, decimal_of};

/// How many bytes of one value a text ends with.
fn fill_count(text: &[u8], fill: u8) -> usize
    ensures count { result ≡ suffix_len (λ b. b == fill) text.now }
    ensures within { result ≤ length text.now }
{
    text.iter().rev().take_while(|b| **b == fill).count()
}

/// A text without the bytes of one value at its end.
#[tactic(auto, unfolding(crate::specs::Fields::trimmed))]
pub(crate) fn trimmed(text: &[u8], fill: u8) -> &[u8]
    ensures text { result.now ≡ trimmed fill text.now }
    ensures shorter { length result.now ≤ length text.now }
{
    &text[..text.len() - fill_count(text, fill)]
}

/// Whether each byte is a decimal digit.
fn is_digits(text: &[u8]) -> bool
    ensures { result ≡ list_all is_ascii_digit text.now }
{
    text.iter().all(|b| b.is_ascii_digit())
}

/// The number that decimal digits write.
#[tactic(auto, unfolding(crate::specs::Fields::decimal_of))]
pub(crate) fn decimal(text: &[u8]) -> Option<u64>
    requires { length text.now ≤ 16 }
    ensures { result ≡ decimal_of text.now }
{
    if text.is_empty() || !is_digits(text) {
        return None;
    }
    let mut value = 0u64;
    for digit in text {
        value = value * 10 + (*digit - b'0') as u64;
    }
    Some(value)
}
