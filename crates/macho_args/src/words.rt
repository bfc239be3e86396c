//! Tests of words.

ghost use Rattle.std.specs.Prelude.{◌≡◌, nat_eq, map, length, drop, if◌then◌else◌, Some, None};
ghost use Rattle.std.specs.List.{list_any, starts_with, ends_with as ends_with_text};
ghost use Rattle.std.specs.Option.{option_copied};
ghost use Rattle.std.specs.Str.{bytes_eq};
ghost use Rattle.std.specs.String.{string_bytes};

/// Whether the word begins with this text.
pub(crate) fn begins_with(word: &str, text: &str) -> bool
    ensures { result ≡ starts_with nat_eq word.now text.now }
{
    word.starts_with(text)
}

/// Whether one of the texts is this text.
pub(crate) fn contains_text(texts: &[String], text: &str) -> bool
    ensures { result ≡ list_any (λ one. bytes_eq one text.now) (map string_bytes texts.now) }
{
    for one in texts {
        if one.as_str() == text {
            return true;
        }
    }
    false
}

/// What follows this text in the word, if the word begins with it.
pub(crate) fn after_prefix<'a>(word: &'a str, prefix: &str) -> Option<&'a str>
    ensures { option_copied result
        ≡ (if starts_with nat_eq word.now prefix.now then Some (drop (length prefix.now) word.now) else None) }
{
    word.strip_prefix(prefix)
}

/// Whether the word ends with this text.
pub(crate) fn ends_with(word: &str, text: &str) -> bool
    ensures { result ≡ ends_with_text nat_eq word.now text.now }
{
    word.ends_with(text)
}
