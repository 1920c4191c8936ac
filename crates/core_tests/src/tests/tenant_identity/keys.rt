use crate::tests::asserting::{debugs, same};
use sha2::{Digest, Sha256};
use std::test::Fail;
use tenants::{Key, digest};

// The second is the message of 256 bits among NIST's short messages for SHA-256.
#[test]
fn digests_keys(rt: HostRuntime) -> Result<(), Fail> {
    let zeros = "0000000000000000000000000000000000000000000000000000000000000000";
    let of_zeros = "66687aadf862bd776c8fc18b8e9f8e20089714856ee233b3902a591d0d5f2925";
    let short = "09fc1accc230a205e4a208e64a8f204291f581a12756392da4b8c0cf5ef02b95";
    let of_short = "4f44c1c7fbebb6f9601829f3897bfd650c56fa07844be76489076356ac1886a4";
    for (text, want) in [(zeros, of_zeros), (short, of_short)] {
        let key = Key::read(text.as_bytes()).ok_or("refused")?;
        let digits = hex::encode(rt.alloc(), digest(&key).as_slice())?;
        same(&rt, text, digits.as_str(), want);
    }
    Ok(())
}

// A key is known by the digest of its bytes.
#[test]
fn reads_either_case(rt: HostRuntime) -> Result<(), Fail> {
    let mut bytes = [0xab; 32];
    bytes[0] = 0x0f;
    bytes[31] = 0xc9;
    let lower = "0fababababababababababababababababababababababababababababababc9";
    let first = Key::read(lower.as_bytes()).ok_or("refused")?;
    for text in [
        lower,
        "0FABABABABABABABABABABABABABABABABABABABABABABABABABABABABABABC9",
        "0FababABaBAbababababababababABABABababababababababababababababC9",
    ] {
        let key = Key::read(text.as_bytes()).ok_or("refused")?;
        same(&rt, text, digest(&key), Sha256::digest(bytes.as_slice()));
        same(&rt, text, key, first);
    }
    Ok(())
}

#[test]
fn refuses_other_texts(rt: HostRuntime) {
    for text in [
        "",
        "000000000000000000000000000000000000000000000000000000000000000",
        "00000000000000000000000000000000000000000000000000000000000000",
        "00000000000000000000000000000000000000000000000000000000000000000",
        "000000000000000000000000000000000000000000000000000000000000000000",
        "000000000000000000000000000000000000000000000000000000000000000g",
        "G000000000000000000000000000000000000000000000000000000000000000",
        " 000000000000000000000000000000000000000000000000000000000000000",
        "000000000000000000000000000000000000000000000000000000000000000 ",
        "0000000000000000000000000000000000000000000000000000000000000000 ",
        "+000000000000000000000000000000000000000000000000000000000000000",
        "-000000000000000000000000000000000000000000000000000000000000000",
        "0x00000000000000000000000000000000000000000000000000000000000000",
        "é00000000000000000000000000000000000000000000000000000000000000",
    ] {
        same(&rt, text, Key::read(text.as_bytes()), None);
    }
}

#[test]
fn does_not_show_a_key(rt: HostRuntime) -> Result<(), Fail> {
    let text = "abababababababababababababababababababababababababababababababab";
    let key = Key::read(text.as_bytes()).ok_or("refused")?;
    debugs(&rt, rt.alloc(), &key, "Key(..)")?;
    Ok(())
}
