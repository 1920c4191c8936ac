//! What a seal says of a tenant's lists. The functions do nothing: each carries a law in its
//! contract.

ghost use Rattle.std.specs.Prelude.{◌≡◌, ◌+◌, ◌⊎◌, length};
ghost use Rattle.records.specs.declared.account.Account.{Account};
ghost use Rattle.records.specs.declared.transfer.Transfer.{Transfer};
ghost use Rattle.records.specs.Machine.{Machine};
ghost use Rattle.records.specs.Valid.{IsNextAccount, IsNextTransfer, IsValid};
ghost use Rattle.records.specs.Valid.{with_account, with_transfer};
ghost use Rattle.seals.specs.declared.record.Record.TheVariants as one;
ghost use Rattle.seals.specs.Records.{seal_of};
ghost use Rattle.seals.specs.Seals.{Collision, next_seal};

use amount::columns_keep_order;

/// The seal of a machine with one entry more is one step from the seal before.
pub fn law_seal_goes_on()
    ensures account { (m : Machine) (a : Account) → IsNextAccount m a
        → seal_of (with_account m a) ≡ next_seal (seal_of m) (one.Account a) }
    ensures transfer { (m : Machine) (t : Transfer) → IsNextTransfer m t
        → seal_of (with_transfer m t) ≡ next_seal (seal_of m) (one.Transfer t) }
{}

/// Two valid machines with equal seals, and as many records, have equal lists; or two texts with one
/// digest are at hand. Failed ids and the clock are not sealed.
pub fn law_equal_seals_mean_equal_records()
    ensures { (m n : Machine) → IsValid m → IsValid n
        → length m.accounts + length m.transfers ≡ length n.accounts + length n.transfers
        → seal_of m ≡ seal_of n
        → ((m.accounts ≡ n.accounts) × (m.transfers ≡ n.transfers)) ⊎ Collision }
{
    columns_keep_order();
}
