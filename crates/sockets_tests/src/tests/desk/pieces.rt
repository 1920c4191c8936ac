//! Pieces of an account's statement.
use super::scene::{at, calls, is_refused, is_told};
use amount::Amount;
use chain::AccountEntry;
use command_texts::{Fault, name};
use control::{Call, Desk, Order, PieceAsked, entries_body, entries_in, message};
use records::{Balances, Sums, Transfer, TransferFlags};
use std::alloc::Global;
use std::test::Fail;

const MESSAGE: &str = "POST /control/statement HTTP/1.1\r\nhost: control\r\nconnection: close\r\n\
    content-length: 130\r\n\r\n{\"tenant\":\"north-desk\",\
    \"account\":\"340282366920938463463374607431768211455\",\"from\":\"0\",\
    \"to\":\"18446744073709551615\",\"reversed\":true}";

// What is asked for is what is ordered.
#[test]
fn asks_for_a_piece(rt: HostRuntime) -> Result<(), Fail> {
    let path = "piece.control";
    let mut desk = Desk::open(&rt, path)?;
    let piece = PieceAsked {
        tenant: name("north-desk")?,
        account: u128::MAX,
        from: 0,
        to: u64::MAX,
        is_reversed: true,
    };
    let call = Call::Statement { piece };
    assert_eq!(rt; message(rt.alloc(), &call)?.as_slice(), MESSAGE.as_bytes());
    let mut caller = calls(&rt, path, &call)?;
    assert_eq!(rt; desk.next(at(1)), Some(Order::Statement(piece)));
    desk.answer(at(1), Err(Fault::NoAccount));
    assert!(rt; is_told(&rt, &mut caller, &Err(Fault::NoAccount))?);
    desk.close(&rt);
    Ok(())
}

// Bodies that ask for none, and the word of the refusal.
const REFUSED: [(&str, &str); 8] = [
    (
        "{\"tenant\":\"n\",\"account\":\"1\",\"from\":\"2\",\"to\":\"3\",\"reversed\":false,\"more\":0}",
        "bad_request",
    ),
    (
        "{\"tenant\":\"n\",\"account\":\"1\",\"from\":\"2\",\"to\":\"3\"}",
        "bad_request",
    ),
    (
        "{\"tenant\":\"\",\"account\":\"1\",\"from\":\"2\",\"to\":\"3\",\"reversed\":false}",
        "bad_name",
    ),
    (
        "{\"tenant\":\"n\",\"account\":\"01\",\"from\":\"2\",\"to\":\"3\",\"reversed\":false}",
        "bad_request",
    ),
    (
        "{\"tenant\":\"n\",\"account\":1,\"from\":\"2\",\"to\":\"3\",\"reversed\":false}",
        "bad_request",
    ),
    (
        "{\"tenant\":\"n\",\"account\":\"1\",\"from\":\"18446744073709551616\",\"to\":\"3\",\
        \"reversed\":false}",
        "bad_request",
    ),
    (
        "{\"tenant\":\"n\",\"account\":\"1\",\"from\":\"2\",\"to\":\"+3\",\"reversed\":false}",
        "bad_request",
    ),
    (
        "{\"tenant\":\"n\",\"account\":\"1\",\"from\":\"2\",\"to\":\"3\",\"reversed\":\"false\"}",
        "bad_request",
    ),
];

#[test]
fn refuses_what_is_no_piece(rt: HostRuntime) -> Result<(), Fail> {
    let path = "no-piece.control";
    let mut desk = Desk::open(&rt, path)?;
    for (body, word) in REFUSED {
        let size = body.len();
        let message = format!(in rt.alloc();
            "POST /control/statement HTTP/1.1\r\ncontent-length: {size}\r\n\r\n{body}"
        )?;
        if !is_refused(
            &rt,
            path,
            &mut desk,
            message.as_str(),
            "400 Bad Request",
            word,
        )? {
            return Err(Fail::new(format_args!("of {body}")));
        }
    }
    desk.close(&rt);
    Ok(())
}

// An entry whose numbers all differ.
fn entry() -> AccountEntry {
    AccountEntry {
        transfer: Transfer {
            id: 1,
            debit_account_id: 2,
            credit_account_id: 3,
            amount: Amount::new(u128::MAX),
            pending_id: 4,
            user_data_128: 5,
            user_data_64: 6,
            user_data_32: 7,
            timeout: 8,
            ledger: 9,
            code: 10,
            flags: TransferFlags(2),
            timestamp: 11,
            at: u64::MAX,
        },
        balances: Balances {
            debits: Sums {
                pending: Amount::new(12),
                posted: Amount::new(13),
            },
            credits: Sums {
                pending: Amount::new(14),
                posted: Amount::new(15),
            },
        },
    }
}

const TOLD: &str = "{\"clock\":\"16\",\"entries\":[{\"id\":\"1\",\"debit_account_id\":\"2\",\
    \"credit_account_id\":\"3\",\"amount\":\"340282366920938463463374607431768211455\",\
    \"pending_id\":\"4\",\"user_data_128\":\"5\",\"user_data_64\":\"6\",\"user_data_32\":\"7\",\
    \"timeout\":\"8\",\"ledger\":\"9\",\"code\":\"10\",\"flags\":\"2\",\"timestamp\":\"11\",\
    \"at\":\"18446744073709551615\",\"debits_pending\":\"12\",\"debits_posted\":\"13\",\
    \"credits_pending\":\"14\",\"credits_posted\":\"15\"}]}";

// Whether what a body tells of entries is read again.
fn are_read_again(alloc: Global, clock: u64, entries: &[AccountEntry]) -> Result<bool, Fail> {
    let body = entries_body(alloc, clock, entries)?;
    let told = entries_in(alloc, body.as_slice())?;
    Ok(told.clock == clock && told.entries.as_slice() == entries)
}

#[test]
fn tells_entries(rt: HostRuntime) -> Result<(), Fail> {
    let body = entries_body(rt.alloc(), 16, &[entry()])?;
    assert_eq!(rt; body.as_slice(), TOLD.as_bytes());
    assert!(rt; are_read_again(rt.alloc(), 16, &[entry()])?);
    assert!(rt; are_read_again(rt.alloc(), u64::MAX, &[entry(), entry()])?);
    Ok(())
}

// Bodies that tell none.
#[test]
fn takes_no_other_entries(rt: HostRuntime) -> Result<(), Fail> {
    let bodies = [
        "",
        "{}",
        "{\"clock\":\"1\"}",
        "{\"entries\":[]}",
        "{\"clock\":1,\"entries\":[]}",
        "{\"clock\":\"1\",\"entries\":{}}",
        "{\"clock\":\"1\",\"entries\":[{\"id\":\"1\"}]}",
    ];
    for body in bodies {
        let told = entries_in(rt.alloc(), body.as_bytes());
        assert!(rt; matches!(told, Err(Fault::Unavailable)), "of {body}");
    }
    let none = entries_in(rt.alloc(), b"{\"clock\":\"1\",\"entries\":[]}")?;
    assert_eq!(rt; none.clock, 1);
    assert!(rt; none.entries.is_empty());
    Ok(())
}
