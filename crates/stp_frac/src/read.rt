//! Reading numbers.

ghost use Rattle.std.specs.Prelude.{◌≡◌, ◌<◌, ◌≤◌, ◌^◌, true, length, take};
ghost use Rattle.std.specs.List.{list_all};
ghost use Rattle.std.specs.Char.{is_ascii_digit};
ghost use Rattle.std.specs.Str.Parse.{digits_value};
ghost use Rattle.stp_frac.specs.Reading.{is_group, leading, Spelling, judged, unsigned_number_of, number_of, read_value};

use crate::fault::NumberFault;
use crate::frac::Frac;

impl Frac {
    /// The number that a text spells. No text of more digits than the limits is read, and none whose
    /// denominator is 0.
    #[tactic(auto, unfolding(crate::specs::Reading::number_of))]
    pub fn read(text: &[u8]) -> Result<Frac, NumberFault>
        ensures { read_value result ≡ number_of text.now }
    {
        match text {
            [b'-', body @ ..] => read_unsigned(true, body),
            _ => read_unsigned(false, text),
        }
    }
}

/// The number that a text without a sign spells.
fn read_unsigned(negative: bool, body: &[u8]) -> Result<Frac, NumberFault>
    ensures { read_value result ≡ unsigned_number_of negative body.now }
{
    if is_group(body) {
        return read_whole(negative, body);
    }
    let count = leading(body);
    if count == 0 || count == body.len() {
        return Err(NumberFault::NotANumber);
    }
    let before = &body[..count];
    let after = &body[count + 1..];
    if !is_group(after) {
        return Err(NumberFault::NotANumber);
    }
    match body[count] {
        b'.' => read_point(negative, before, after),
        b'/' => read_over(negative, before, after),
        _ => Err(NumberFault::NotANumber),
    }
}

/// Whether a text is a digit or more and nothing else.
fn is_group(text: &[u8]) -> bool
    ensures { result ≡ is_group text.now }
{
    text.len() > 0 && are_digits(text)
}

/// Whether a text is nothing but digits.
fn are_digits(text: &[u8]) -> bool
    ensures { result ≡ list_all is_ascii_digit text.now }
{
    text.iter().all(|b| b.is_ascii_digit())
}

/// How many digits stand in front.
fn leading(text: &[u8]) -> usize
    ensures value { result ≡ leading text.now }
    ensures within { result ≤ length text.now }
    ensures digits { list_all is_ascii_digit (take result text.now) ≡ true }
{
    for (place, byte) in text.iter().enumerate() {
        if !byte.is_ascii_digit() {
            return place;
        }
    }
    text.len()
}

/// The number that at most 18 digits write.
fn digits_value(digits: &[u8]) -> u128
    requires digits { list_all is_ascii_digit digits.now ≡ true }
    requires few { length digits.now ≤ 18 }
    ensures value { result ≡ digits_value 10 digits.now }
    ensures size { result < 10 ^ length digits.now }
{
    let mut value = 0;
    for digit in digits {
        value = value * 10 + u128::from(digit - b'0');
    }
    value
}

/// The number of a group of digits.
fn read_whole(negative: bool, digits: &[u8]) -> Result<Frac, NumberFault>
    requires { list_all is_ascii_digit digits.now ≡ true }
    ensures { read_value result ≡ judged negative (Spelling.Whole digits.now) }
{
    if digits.len() > 9 {
        return Err(NumberFault::TooLong);
    }
    Ok(Frac::lowest(negative, digits_value(digits), 1))
}

/// The number of two groups of digits with a point between them.
fn read_point(negative: bool, before: &[u8], after: &[u8]) -> Result<Frac, NumberFault>
    requires before { list_all is_ascii_digit before.now ≡ true }
    requires after { list_all is_ascii_digit after.now ≡ true }
    ensures { read_value result ≡ judged negative (Spelling.Point before.now after.now) }
{
    if before.len() > 9 || after.len() > 9 {
        return Err(NumberFault::TooLong);
    }
    let scale = 10u128.pow(after.len() as u32);
    let top = digits_value(before) * scale + digits_value(after);
    Ok(Frac::lowest(negative, top, scale))
}

/// The number of two groups of digits with a bar between them.
fn read_over(negative: bool, before: &[u8], after: &[u8]) -> Result<Frac, NumberFault>
    requires before { list_all is_ascii_digit before.now ≡ true }
    requires after { list_all is_ascii_digit after.now ≡ true }
    ensures { read_value result ≡ judged negative (Spelling.Over before.now after.now) }
{
    if before.len() > 18 || after.len() > 9 {
        return Err(NumberFault::TooLong);
    }
    let bottom = digits_value(after);
    if bottom == 0 {
        return Err(NumberFault::ZeroDenominator);
    }
    Ok(Frac::lowest(negative, digits_value(before), bottom))
}
