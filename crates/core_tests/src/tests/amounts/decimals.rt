use crate::tests::asserting::same;
use amount::{Amount, MAX_DIGITS};

const LARGEST: &str = "340282366920938463463374607431768211455";

#[test]
fn reads_what_an_amount_is_written_as(rt: HostRuntime) {
    for (text, amount) in [
        ("0", Amount::ZERO),
        ("100", Amount::new(100)),
        (LARGEST, Amount::MAX),
    ] {
        same(&rt, text, Amount::read_decimal(text), Some(amount));
    }
}

#[test]
fn reads_nothing_else(rt: HostRuntime) {
    for text in [
        "",
        "01",
        "00",
        "+1",
        "-0",
        "1 ",
        " 1",
        "1a",
        "340282366920938463463374607431768211456",
        "1000000000000000000000000000000000000000",
    ] {
        same(&rt, text, Amount::read_decimal(text), None);
    }
}

// What an earlier amount left behind the digits is of no meaning.
#[test]
fn writes_the_digits_in_front(rt: HostRuntime) {
    let mut digits = [0; MAX_DIGITS];
    for (text, amount) in [
        (LARGEST, Amount::MAX),
        ("907", Amount::new(907)),
        ("0", Amount::ZERO),
    ] {
        let len = amount.write_decimal(&mut digits);
        same(&rt, text, &digits[..len], text.as_bytes());
    }
}
