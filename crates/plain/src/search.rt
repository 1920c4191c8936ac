ghost use Rattle.std.specs.Prelude.{◌≡◌};
ghost use Rattle.records.specs.Machine.{account_with, transfer_with, has_id};

use records::{Account, Transfer};

pub fn find_account(accounts: &[Account], id: u128) -> Option<Account>
    ensures { result ≡ account_with id accounts.now }
{
    for account in accounts {
        if account.id == id {
            return Some(*account);
        }
    }
    None
}

pub fn find_transfer(transfers: &[Transfer], id: u128) -> Option<Transfer>
    ensures { result ≡ transfer_with id transfers.now }
{
    for transfer in transfers {
        if transfer.id == id {
            return Some(*transfer);
        }
    }
    None
}

pub fn find_id(ids: &[u128], id: u128) -> bool
    ensures { result ≡ has_id id ids.now }
{
    ids.iter().any(|other| *other == id)
}
