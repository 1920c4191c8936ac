//! A tenant's seal. The expected digests come from Python's `hashlib`, over the columns as
//! `docs/DECISIONS.md` has them ('Seals').

use amount::Amount;
use records::{Account, AccountFlags, Transfer, TransferFlags};
use seals::{Record, Seal};

const AFTER_ACCOUNT: [u8; 32] = [
    0x79, 0x41, 0x3c, 0xac, 0x5e, 0x6f, 0x5c, 0x92, 0xcd, 0xdd, 0xa9, 0x16, 0x34, 0x2e, 0x8d, 0xd9,
    0x12, 0xf1, 0x8e, 0x01, 0xa3, 0x94, 0xa7, 0x9c, 0xd9, 0x38, 0xb4, 0x3d, 0xff, 0xb6, 0x83, 0x55,
];

const AFTER_TRANSFER: [u8; 32] = [
    0xa7, 0xa9, 0xdc, 0xa4, 0x48, 0xef, 0x84, 0xb7, 0xb3, 0xa9, 0x47, 0xdc, 0x63, 0xe9, 0x43, 0x3f,
    0xff, 0xb1, 0xb5, 0xfb, 0xdf, 0xe5, 0x9e, 0x65, 0x33, 0x01, 0x8a, 0x9f, 0x50, 0x57, 0x7d, 0x03,
];

fn account() -> Record {
    Record::Account(Account {
        id: (1 << 127) + 3,
        user_data_128: 5,
        user_data_64: 6,
        user_data_32: 7,
        ledger: 978,
        code: 10,
        flags: AccountFlags(2),
        timestamp: 1_795_690_658_458_691_891,
    })
}

fn transfer() -> Record {
    Record::Transfer(Transfer {
        id: 100,
        debit_account_id: 1,
        credit_account_id: 3,
        amount: Amount::new(5000),
        pending_id: 0,
        user_data_128: u128::MAX,
        user_data_64: 11,
        user_data_32: 12,
        timeout: 60,
        ledger: 978,
        code: 1,
        flags: TransferFlags(2),
        timestamp: 1_795_690_658_529_049_140,
        at: 1_795_690_658_529_049_141,
    })
}

#[test]
fn a_new_tenant_has_a_seal_of_zeros(rt: HostRuntime) {
    assert_eq!(rt; Seal::first().to_bytes(), [0; 32]);
}

#[test]
fn each_record_moves_the_seal_one_step(rt: HostRuntime) {
    let first = Seal::first().next(&account());
    assert_eq!(rt; first.to_bytes(), AFTER_ACCOUNT);
    assert_eq!(rt; first.next(&transfer()).to_bytes(), AFTER_TRANSFER);
}

#[test]
fn a_seal_that_was_kept_goes_on(rt: HostRuntime) {
    let kept = Seal::from_bytes(AFTER_ACCOUNT);
    assert_eq!(rt; kept.next(&transfer()).to_bytes(), AFTER_TRANSFER);
}
