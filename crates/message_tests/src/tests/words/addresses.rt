//! Addresses as words.
use crate::tests::asserting::same;
use command_texts::{Fault, address};
use std::net::{IpAddr, Ipv4Addr, Ipv6Addr};

#[test]
fn reads_addresses(rt: HostRuntime) {
    for (text, want) in [
        ("127.0.0.1", IpAddr::V4(Ipv4Addr::LOCALHOST)),
        ("0.0.0.0", IpAddr::V4(Ipv4Addr::UNSPECIFIED)),
        ("192.0.2.255", IpAddr::V4(Ipv4Addr::new(192, 0, 2, 255))),
        ("::1", IpAddr::V6(Ipv6Addr::LOCALHOST)),
        ("::", IpAddr::V6(Ipv6Addr::UNSPECIFIED)),
        (
            "2001:DB8::192.0.2.1",
            IpAddr::V6(Ipv6Addr::new(0x2001, 0xdb8, 0, 0, 0, 0, 0xc000, 0x201)),
        ),
    ] {
        same(&rt, text, address(text), Ok(want));
    }
}

const NO_ADDRESSES: [&str; 10] = [
    "",
    "localhost",
    "127.1",
    "127.0.0.01",
    "256.0.0.1",
    " 127.0.0.1",
    "127.0.0.1:80",
    "[::1]",
    "::1%1",
    ":::",
];

#[test]
fn refuses_other_words(rt: HostRuntime) {
    for text in NO_ADDRESSES {
        same(&rt, text, address(text), Err(Fault::BadAddress));
    }
}
