//! Numbers in decimal digits.

ghost use Rattle.std.specs.Prelude.{◌≡◌, ◌≤◌, IfSome};
ghost use Rattle.std.specs.Char.{is_ascii_digit};
ghost use Rattle.std.specs.List.{list_all};
ghost use Rattle.macho_args.specs.Numbers.{number_up_to as number_of};

/// The number that a text of decimal digits writes, if it is at most `most`. A sign is no digit.
pub fn number_up_to(most: u32, text: &str) -> Option<u32>
    ensures found { result ≡ number_of most text.now }
    ensures small { IfSome result (λ number. number ≤ most) }
{
    if !is_digits(text) {
        return None;
    }
    let Ok(number) = text.parse::<u32>() else {
        return None;
    };
    if number <= most { Some(number) } else { None }
}

// Whether each character is a decimal digit.
fn is_digits(text: &str) -> bool
    ensures { result ≡ list_all is_ascii_digit text.now }
{
    text.bytes().all(|byte| byte.is_ascii_digit())
}
