//! Numbers, their sums and products, and grids.

use std::alloc::Global;
use std::cmp::Ordering;
use stp_base::{Memory, Text};
use stp_frac::{Frac, NumberFault};

/// The number that a text spells.
fn number(text: &str) -> Option<Frac> {
    Frac::read(text.as_bytes()).ok()
}

/// Whether a text is refused so.
fn is_refused(text: &str, fault: NumberFault) -> bool {
    Frac::read(text.as_bytes()).err() == Some(fault)
}

const REFUSED: [(&str, NumberFault); 28] = [
    ("", NumberFault::NotANumber),
    ("-", NumberFault::NotANumber),
    ("--1", NumberFault::NotANumber),
    ("1.", NumberFault::NotANumber),
    (".5", NumberFault::NotANumber),
    ("1/", NumberFault::NotANumber),
    ("/2", NumberFault::NotANumber),
    ("1.2.3", NumberFault::NotANumber),
    ("1/2/3", NumberFault::NotANumber),
    ("1./2", NumberFault::NotANumber),
    ("+1", NumberFault::NotANumber),
    ("a", NumberFault::NotANumber),
    ("1a", NumberFault::NotANumber),
    (" 1", NumberFault::NotANumber),
    ("1 ", NumberFault::NotANumber),
    ("1/-2", NumberFault::NotANumber),
    ("1,2", NumberFault::NotANumber),
    ("1234567890", NumberFault::TooLong),
    ("-0000000001", NumberFault::TooLong),
    ("1234567890.1", NumberFault::TooLong),
    ("1.1234567890", NumberFault::TooLong),
    ("1234567890123456789/1", NumberFault::TooLong),
    ("1/1234567890", NumberFault::TooLong),
    ("1/0000000000", NumberFault::TooLong),
    ("1/0", NumberFault::ZeroDenominator),
    ("0/0", NumberFault::ZeroDenominator),
    ("-1/000000000", NumberFault::ZeroDenominator),
    ("123456789012345678/0", NumberFault::ZeroDenominator),
];

#[test]
fn refused_numbers(rt: HostRuntime) {
    for (text, fault) in REFUSED.iter() {
        assert!(rt; is_refused(text, *fault), "{text}");
    }
}

/// The text of a number.
fn printed(alloc: Global, number: Frac) -> Result<Text, Memory> {
    let mut text = Text::new(alloc);
    number.print(&mut text)?;
    Ok(text)
}

/// Whether a number has this text.
fn has_text(alloc: Global, number: Option<Frac>, wanted: &str) -> bool {
    let Some(number) = number else {
        return false;
    };
    match printed(alloc, number) {
        Ok(text) => text.as_slice() == wanted.as_bytes(),
        Err(_memory) => false,
    }
}

const PRINTED: [(&str, &str); 15] = [
    ("0", "0"),
    ("-0", "0"),
    ("007", "7"),
    ("999999999", "999999999"),
    ("-999999999", "-999999999"),
    ("0.5", "1/2"),
    ("-2.50", "-5/2"),
    ("4.0", "4"),
    ("8/2", "4"),
    ("-6/4", "-3/2"),
    ("999999999.999999999", "999999999999999999/1000000000"),
    ("0.000000001", "1/1000000000"),
    ("999999999999999999/999999999", "1000000001"),
    (
        "999999999999999998/999999997",
        "999999999999999998/999999997",
    ),
    ("0/999999999", "0"),
];

#[test]
fn printed_in_lowest_terms(rt: HostRuntime) {
    for (text, wanted) in PRINTED.iter() {
        assert!(rt; has_text(rt.alloc(), number(text), wanted), "{text}");
    }
}

/// Whether two numbers have this sum, and it less the second is the first.
fn has_sum(left: &str, right: &str, sum: &str) -> Option<bool> {
    let (left, right, sum) = (number(left)?, number(right)?, number(sum)?);
    Some(left.plus(right) == Some(sum) && sum.minus(right) == Some(left))
}

const SUMS: [(&str, &str, &str); 9] = [
    ("1/2", "1/3", "5/6"),
    ("1/2", "1/2", "1"),
    ("1/6", "-1/2", "-1/3"),
    ("-1/6", "1/2", "1/3"),
    ("-1/2", "-1/3", "-5/6"),
    ("1/2", "-1/2", "0"),
    ("999999999999999999/1", "-999999999999999998/1", "1"),
    (
        "499999999999999999/1",
        "500000000000000000/1",
        "999999999999999999/1",
    ),
    ("1/999999998", "-1/999999998", "0"),
];

/// Whether two numbers have this product, and it through the second is the first.
fn has_product(left: &str, right: &str, product: &str) -> Option<bool> {
    let (left, right, product) = (number(left)?, number(right)?, number(product)?);
    Some(left.times(right) == Some(product) && product.over(right) == Some(left))
}

const PRODUCTS: [(&str, &str, &str); 6] = [
    ("1/2", "2/3", "1/3"),
    ("-1/2", "2/3", "-1/3"),
    ("-1/2", "-2/3", "1/3"),
    ("0", "-2/3", "0"),
    ("999999999999999998/3", "3/2", "499999999999999999/1"),
    ("999999999999999999/1", "1/999999999", "1000000001/1"),
];

#[test]
fn sums_and_products(rt: HostRuntime) {
    for (left, right, sum) in SUMS.iter() {
        assert!(rt; has_sum(left, right, sum) == Some(true), "{left} + {right}");
    }
    for (left, right, product) in PRODUCTS.iter() {
        assert!(rt;
            has_product(left, right, product) == Some(true),
            "{left} * {right}"
        );
    }
}

/// Whether what is out of range is no number, and what is just within it is one.
fn ranges_are_kept() -> Option<bool> {
    let (one, zero, most) = (number("1")?, number("0")?, number("999999999999999999/1")?);
    let even = number("999999999999999998/1")?;
    Some(
        most.plus(one).is_none()
            && number("-1")?.minus(most).is_none()
            && number("1/999999999")?
                .plus(number("1/999999998")?)
                .is_none()
            && one.over(zero).is_none()
            && even.times(number("3/2")?).is_none(),
    )
}

/// The square of a millionth, whose denominator is the greatest.
fn trillionth() -> Option<Frac> {
    let least = number("0.000001")?;
    least.times(least)
}

/// Whether the greatest denominator is kept, and a greater one is not.
fn denominators_are_kept() -> Option<bool> {
    let least = trillionth()?;
    let past = number("1/10001")?.times(number("1/99990001")?);
    Some(least.plus(least).is_some() && past.is_none())
}

#[test]
fn ranges(rt: HostRuntime) {
    assert!(rt; ranges_are_kept() == Some(true));
    assert!(rt; denominators_are_kept() == Some(true));
    assert!(rt; has_text(rt.alloc(), trillionth(), "1/1000000000000"));
}

/// Whether two numbers compare so, and the other way round when they are exchanged.
fn compares(left: &str, right: &str, order: Ordering) -> Option<bool> {
    let (left, right) = (number(left)?, number(right)?);
    Some(left.compare(right) == order && right.compare(left) == order.reverse())
}

const ORDERS: [(&str, &str, Ordering); 6] = [
    ("1/3", "1/2", Ordering::Less),
    ("-1/2", "1/3", Ordering::Less),
    ("-1/2", "-1/3", Ordering::Less),
    ("0", "-1", Ordering::Greater),
    ("2/4", "1/2", Ordering::Equal),
    (
        "999999999999999999/999999998",
        "999999999999999998/999999998",
        Ordering::Greater,
    ),
];

#[test]
fn orders(rt: HostRuntime) {
    for (left, right, order) in ORDERS.iter() {
        assert!(rt;
            compares(left, right, *order) == Some(true),
            "{left} and {right}"
        );
    }
}

/// Whether numbers lie on grids as they should.
fn lie_on_grids() -> Option<bool> {
    let half = number("3/2")?;
    Some(
        half.on_grid(4) == Some(6)
            && half.on_grid(3).is_none()
            && number("-3/2")?.on_grid(4).is_none()
            && number("-0")?.on_grid(1) == Some(0)
            && number("999999999")?.on_grid(999_999_999) == Some(999_999_998_000_000_001),
    )
}

/// Whether moments of grids are the numbers that they should be.
fn come_from_grids() -> bool {
    Frac::from_grid(6, 4) == number("3/2")
        && Frac::from_grid(999_999_999_999_999_999, 1) == number("999999999999999999/1")
        && Frac::from_grid(1_000_000_000_000_000_000, 1).is_none()
        && Frac::from_grid(u128::MAX, 1).is_none()
}

/// Whether whole numbers are told.
fn are_whole() -> Option<bool> {
    let (half, below) = (number("1/2")?, number("-4")?);
    Some(
        number("8/2")?.whole() == Some(4)
            && below.whole().is_none()
            && half.whole().is_none()
            && below.is_whole()
            && !half.is_whole(),
    )
}

/// Whether grids are joined to the least common one, up to a limit.
fn grids_are_joined() -> Option<bool> {
    let quarter = number("1/4")?;
    Some(
        Frac::join_grid(6, quarter, 12) == Some(12)
            && Frac::join_grid(6, quarter, 11).is_none()
            && Frac::join_grid(12, number("5/4")?, 12) == Some(12)
            && Frac::join_grid(1, number("7")?, 1) == Some(1)
            && Frac::join_grid(999_999_998, number("1/999999999")?, 999_999_999).is_none(),
    )
}

#[test]
fn grids(rt: HostRuntime) {
    assert!(rt; lie_on_grids() == Some(true));
    assert!(rt; come_from_grids());
    assert!(rt; are_whole() == Some(true));
    assert!(rt; grids_are_joined() == Some(true));
}
