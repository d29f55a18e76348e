//! Numbers that words spell.

ghost use Rattle.std.specs.Prelude.{◌≡◌, ◌≤◌, ◌<◌, ◌^◌, true, length, IfSome};
ghost use Rattle.std.specs.List.{list_all};
ghost use Rattle.std.specs.Char.{is_ascii_digit};
ghost use Rattle.std.specs.Str.Parse.{digits_value};
ghost use Rattle.stp_frac.specs.Reading.{is_group};
ghost use Rattle.stp_cli.specs.Words.{number_in};

/// Whether a text is a digit or more and nothing else.
fn is_group(text: &[u8]) -> bool
    ensures { result ≡ is_group text.now }
{
    text.len() > 0 && are_digits(text)
}

/// Whether a text is nothing but digits.
fn are_digits(text: &[u8]) -> bool
    ensures { result ≡ list_all is_ascii_digit text.now }
{
    text.iter().all(|byte| byte.is_ascii_digit())
}

/// The number that at most 8 digits write.
fn digits_value(digits: &[u8]) -> u32
    requires digits { list_all is_ascii_digit digits.now ≡ true }
    requires few { length digits.now ≤ 8 }
    ensures value { result ≡ digits_value 10 digits.now }
    ensures size { result < 10 ^ length digits.now }
{
    let mut value = 0;
    for digit in digits {
        value = value * 10 + u32::from(digit - b'0');
    }
    value
}

/// The number that 1 to so many digits spell, where it lies within these bounds.
pub fn number_in(digits: usize, least: u32, most: u32, word: &str) -> Option<u32>
    requires { digits ≤ 8 }
    ensures number { result ≡ number_in digits least most word.now }
    ensures within { IfSome result (λ n. (least ≤ n) × (n ≤ most)) }
{
    let text = word.as_bytes();
    if !is_group(text) || text.len() > digits {
        return None;
    }
    let number = digits_value(text);
    if number < least || number > most {
        return None;
    }
    Some(number)
}
