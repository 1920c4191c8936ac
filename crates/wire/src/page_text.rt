ghost use Rattle.std.specs.Prelude.{◌≡◌, IfOk};
ghost use Rattle.serde_json.specs.Written.{compact_text};
ghost use Rattle.wire.specs.Reply.{page_data};

use crate::Entries;
use crate::listed::list_text;
use crate::members::Member;
use crate::shown::{Plain, Timed};
use std::alloc::{AllocError, Global};

/// The reply's body to a query, as compact JSON.
pub(crate) fn page_text(
    alloc: Global,
    clock: u64,
    next: u64,
    entries: &Entries,
) -> Result<Vec<u8>, AllocError>
    ensures { IfOk result (λ text. text.items ≡ compact_text (page_data clock next entries.now)) }
{
    let times = [Member::u64("clock", clock), Member::u64("next", next)];
    match entries {
        Entries::Accounts(accounts) => {
            list_text::<_, Plain>(alloc, &[], "accounts", accounts.as_slice(), &times)
        }
        Entries::Transfers(transfers) => {
            list_text::<_, Plain>(alloc, &times, "transfers", transfers.as_slice(), &[])
        }
        Entries::OpenHolds(holds) => {
            list_text::<_, Timed>(alloc, &times, "pending", holds.as_slice(), &[])
        }
    }
}
