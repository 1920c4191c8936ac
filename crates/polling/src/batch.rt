//! Which batch a message is.
ghost use Rattle.std.specs.Prelude.{◌≡◌, IsSome};
ghost use Rattle.polling.specs.Kinds.{IsBatch};

use clients::Client;

/// What the events of a batch are to make.
#[derive(Clone, Copy, Debug, PartialEq, Eq)]
pub enum Batch {
    Accounts,
    Transfers,
}

impl Batch {
    /// The batch that a message is, by its beginning.
    pub(crate) fn of(front: &[u8]) -> Option<Batch>
        ensures { IsSome result → IsBatch front.now }
    {
        if front.starts_with(b"POST /transfers ") {
            Some(Batch::Transfers)
        } else if front.starts_with(b"POST /accounts ") {
            Some(Batch::Accounts)
        } else {
            None
        }
    }

    /// The batch that a client's next message is, if all of it has come.
    pub(crate) fn next_of(client: &mut Client) -> Option<Batch>
        ensures { client.new ≡ client.old }
    {
        let size = client.next_size()?;
        Batch::of(client.front(size))
    }
}
