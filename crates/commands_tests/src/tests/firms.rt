//! A firm, and the messages that it sends.
use chain::Ledgers;
use service::respond;
use std::alloc::Global;

/// The key of the firm.
pub const KEY: &str = "0000000000000000000000000000000000000000000000000000000000000000";

/// The words that add the firm, as `a`.
pub const ADDING: &str = concat!(
    "tenant-add --name=a --key=",
    "0000000000000000000000000000000000000000000000000000000000000000"
);

// A request of the firm by POST, with the length of its body.
macro_rules! message {
    ($path:literal, $length:literal, $($body:literal),*) => {
        concat!(
            "POST ", $path, " HTTP/1.1\r\nx-ledger-key: ",
            "0000000000000000000000000000000000000000000000000000000000000000",
            "\r\ncontent-length: ", $length, "\r\n\r\n" $(, $body)*
        )
    };
}

/// The firm's batch of no transfers.
pub const NO_TRANSFERS: &str = message!("/transfers", "2", "[]");

/// What it asks to see its account 1.
pub const LOOKUP: &str = message!("/accounts/lookup", "5", "[\"1\"]");

/// Its post of the hold 1005, of which 1 is held.
pub const POST_OF_HOLD: &str = message!(
    "/transfers",
    "58",
    "[{\"id\":\"9005\",\"pending_id\":\"1005\",\"amount\":\"1\",\"flags\":4}]"
);

/// The key of another firm, and its batch of no transfers.
pub const OTHER_KEY: &str = "1111111111111111111111111111111111111111111111111111111111111111";

pub const OF_OTHER: &str = concat!(
    "POST /transfers HTTP/1.1\r\nx-ledger-key: ",
    "1111111111111111111111111111111111111111111111111111111111111111",
    "\r\ncontent-length: 2\r\n\r\n[]"
);

// The accounts 1 to 4.
const ACCOUNTS: &str = message!(
    "/accounts",
    "140",
    "[{\"id\":\"1\",\"ledger\":7,\"code\":10},{\"id\":\"2\",\"ledger\":7,\"code\":10},",
    "{\"id\":\"3\",\"ledger\":7,\"code\":10,\"flags\":10},",
    "{\"id\":\"4\",\"ledger\":7,\"code\":10}]"
);

// A pending transfer of 100 from account 1 to account 2, and a post of 40.
const TRANSFERS: &str = message!(
    "/transfers",
    "162",
    "[{\"id\":\"100\",\"debit_account_id\":\"1\",\"credit_account_id\":\"2\",",
    "\"amount\":\"100\",\"ledger\":7,\"code\":1,\"flags\":2},",
    "{\"id\":\"101\",\"pending_id\":\"100\",\"amount\":\"40\",\"flags\":4}]"
);

// A transfer of 7 back, with user data of its own.
const BACK: &str = message!(
    "/transfers",
    "243",
    "[{\"id\":\"340282366920938463463374607431768211454\",\"debit_account_id\":\"2\",",
    "\"credit_account_id\":\"1\",\"amount\":\"7\",\"ledger\":7,\"code\":3,",
    "\"user_data_128\":\"340282366920938463463374607431768211453\",",
    "\"user_data_64\":\"18446744073709551615\",\"user_data_32\":9}]"
);

/// Messages of the firm.
#[derive(Clone, Copy)]
pub enum Messages {
    /// Those of 'posted in part': its accounts, a pending transfer, and its post.
    PostedInPart,
    /// Its transfer of 7 back, which takes the nanosecond behind this moment.
    Back(u64),
}

impl Messages {
    /// Sends them.
    pub fn send<L: Ledgers>(self, alloc: Global, ledgers: &mut L) {
        match self {
            Messages::PostedInPart => {
                let _reply = respond(alloc, ledgers, ACCOUNTS.as_bytes(), 0);
                let _reply = respond(alloc, ledgers, TRANSFERS.as_bytes(), 0);
            }
            Messages::Back(moment) => {
                let _reply = respond(alloc, ledgers, BACK.as_bytes(), moment);
            }
        }
    }
}
