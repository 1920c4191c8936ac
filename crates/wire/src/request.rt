use crate::{Items, Read};
use records::{AccountEvent, TransferEvent};

/// What a request asks for: a batch, or what is read.
#[derive(Debug, Drop)]
pub enum Request {
    /// At most 1,000 events, as all lists here and in `Read`.
    Accounts(Items<AccountEvent>),
    Transfers(Items<TransferEvent>),
    Read(Read),
}
