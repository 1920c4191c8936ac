//! Messages and replies as bytes.

/// The key of the first firm.
pub(crate) const FIRST: &str = "0000000000000000000000000000000000000000000000000000000000000000";

/// The key of another firm.
pub(crate) const SECOND: &str = "abababababababababababababababababababababababababababababababab";

/// A batch of the first firm with no event.
pub(crate) const BATCH: &str = concat!(
    "POST /transfers HTTP/1.1\r\nx-ledger-key: ",
    "0000000000000000000000000000000000000000000000000000000000000000",
    "\r\ncontent-length: 2\r\n\r\n[]"
);

/// The same as the last message of its connection, and behind it another one that nobody answers.
pub(crate) const LAST_AND_ONE_MORE: &str = concat!(
    "POST /transfers HTTP/1.1\r\nConnection: keep-alive, Close\r\nx-ledger-key: ",
    "0000000000000000000000000000000000000000000000000000000000000000",
    "\r\ncontent-length: 2\r\n\r\n[]",
    "POST /accounts HTTP/1.1\r\nx-ledger-key: ",
    "0000000000000000000000000000000000000000000000000000000000000000",
    "\r\ncontent-length: 34\r\n\r\n",
    "[{\"id\":\"1\",\"ledger\":7,\"code\":1}]"
);

/// The reply to the one that is answered.
pub(crate) const TO_LAST: &str = concat!(
    "HTTP/1.1 200 OK\r\ncontent-length: 29\r\ncontent-type: application/json\r\n\r\n",
    "{\"clock\":\"1000\",\"results\":[]}"
);

/// The first line of a statement.
pub(crate) const HEADER: &str = concat!(
    "timestamp,transfer_id,side,kind,amount,",
    "debits_pending,debits_posted,credits_pending,credits_posted\n"
);

/// Three messages of the first firm: accounts, transfers between them, and a path that leads
/// nowhere.
pub(crate) const OF_FIRST: &str = concat!(
    "POST /accounts HTTP/1.1\r\nx-ledger-key: ",
    "0000000000000000000000000000000000000000000000000000000000000000",
    "\r\ncontent-length: 63\r\n\r\n",
    "[{\"id\":\"1\",\"ledger\":7,\"code\":1},{\"id\":\"2\",\"ledger\":7,\"code\":1}]",
    "POST /transfers HTTP/1.1\r\nx-ledger-key: ",
    "0000000000000000000000000000000000000000000000000000000000000000",
    "\r\ncontent-length: 2\r\n\r\n[]",
    "POST /x HTTP/1.1\r\nx-ledger-key: ",
    "0000000000000000000000000000000000000000000000000000000000000000",
    "\r\ncontent-length: 0\r\n\r\n"
);

/// Two messages of the second firm, and one that is cut short.
pub(crate) const OF_SECOND: &str = concat!(
    "POST /transfers HTTP/1.1\r\nx-ledger-key: ",
    "abababababababababababababababababababababababababababababababab",
    "\r\ncontent-length: 2\r\n\r\n[]",
    "POST /transfers HTTP/1.1\r\nx-ledger-key: ",
    "abababababababababababababababababababababababababababababababab",
    "\r\ncontent-length: 2\r\n\r\n{}",
    "POST /transfers HTTP/1.1\r\nx-led"
);

/// What the second firm is written.
pub(crate) const TO_SECOND: &str = concat!(
    "HTTP/1.1 200 OK\r\ncontent-length: 29\r\ncontent-type: application/json\r\n\r\n",
    "{\"clock\":\"1000\",\"results\":[]}",
    "HTTP/1.1 400 Bad Request\r\ncontent-length: 21\r\ncontent-type: application/json\r\n\r\n",
    "{\"error\":\"bad_field\"}",
    "HTTP/1.1 400 Bad Request\r\ncontent-length: 21\r\ncontent-type: application/json\r\n\r\n",
    "{\"error\":\"truncated\"}"
);

/// A head behind which a body of five bytes is due.
pub(crate) const ANNOUNCED: &str = concat!(
    "POST /transfers HTTP/1.1\r\nx-ledger-key: ",
    "0000000000000000000000000000000000000000000000000000000000000000",
    "\r\ncontent-length: 5\r\n\r\n"
);

/// What is told where memory is wanting or the disk fails.
pub(crate) const UNAVAILABLE: &str = concat!(
    "HTTP/1.1 503 Service Unavailable\r\ncontent-length: 23\r\n",
    "content-type: application/json\r\n\r\n",
    "{\"error\":\"unavailable\"}"
);

/// What is told of a message that is cut short.
pub(crate) const TO_CUT: &str = concat!(
    "HTTP/1.1 400 Bad Request\r\ncontent-length: 21\r\ncontent-type: application/json\r\n\r\n",
    "{\"error\":\"truncated\"}"
);

/// Accounts of the first firm, and the same again.
pub(crate) const TWICE_OF_FIRST: &str = concat!(
    "POST /accounts HTTP/1.1\r\nx-ledger-key: ",
    "0000000000000000000000000000000000000000000000000000000000000000",
    "\r\ncontent-length: 63\r\n\r\n",
    "[{\"id\":\"1\",\"ledger\":7,\"code\":1},{\"id\":\"2\",\"ledger\":7,\"code\":1}]",
    "POST /accounts HTTP/1.1\r\nx-ledger-key: ",
    "0000000000000000000000000000000000000000000000000000000000000000",
    "\r\ncontent-length: 63\r\n\r\n",
    "[{\"id\":\"1\",\"ledger\":7,\"code\":1},{\"id\":\"2\",\"ledger\":7,\"code\":1}]"
);

/// Accounts of the second firm, and the same again.
pub(crate) const TWICE_OF_SECOND: &str = concat!(
    "POST /accounts HTTP/1.1\r\nx-ledger-key: ",
    "abababababababababababababababababababababababababababababababab",
    "\r\ncontent-length: 63\r\n\r\n",
    "[{\"id\":\"1\",\"ledger\":7,\"code\":1},{\"id\":\"2\",\"ledger\":7,\"code\":1}]",
    "POST /accounts HTTP/1.1\r\nx-ledger-key: ",
    "abababababababababababababababababababababababababababababababab",
    "\r\ncontent-length: 63\r\n\r\n",
    "[{\"id\":\"1\",\"ledger\":7,\"code\":1},{\"id\":\"2\",\"ledger\":7,\"code\":1}]"
);
