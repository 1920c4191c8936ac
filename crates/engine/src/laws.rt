//! What holds in every valid machine. The functions do nothing: each carries a law in its contract.

ghost use Rattle.std.specs.Prelude.{◌≡◌, ◌≢◌, ℕ, true, false, All, List, ◌∷◌, ◌++◌, None};
ghost use Rattle.records.specs.declared.account.Account.{Account};
ghost use Rattle.records.specs.declared.transfer.Transfer.{Transfer};
ghost use Rattle.records.specs.declared.transfer.TransferEvent.{TransferEvent};
ghost use Rattle.records.specs.Flags.{is_pending, is_post_or_void};
ghost use Rattle.records.specs.Machine.{Machine};
ghost use Rattle.records.specs.Fate.{fate_of, is_open};
ghost use Rattle.records.specs.Step.{transfer_verdict_in};
ghost use Rattle.records.specs.Valid.{IsValid, IsNextAccount};
ghost use Rattle.engine.specs.Promises.{SumsFit, BooksBalance, KeepsLimits, EndingsHold};
ghost use Rattle.engine.specs.Promises.{FailedIdsHold, IsSentAsStored, entry_for};
ghost use Rattle.engine.specs.Promises.{ChangesNoBalance, IsReleased};

/// The pending and the posted sum of an account fit 128 bits together.
pub fn sums_fit()
    ensures { (m : Machine) → IsValid m → (id : ℕ) → SumsFit m id }
{}

/// Double entry: in a ledger as much is credited as is debited, of what is posted and of what is
/// pending.
pub fn books_balance()
    ensures { (m : Machine) → IsValid m → (ledger : ℕ) → BooksBalance m ledger }
{}

/// No account is beyond its limit, at any clock.
pub fn limits_hold()
    ensures { (m : Machine) → IsValid m → All (KeepsLimits m) m.accounts }
{}

/// A pending transfer is posted or voided once at most, before it is due.
pub fn ends_once()
    ensures { (m : Machine) → IsValid m → EndingsHold m }
{}

/// An id that failed for good is that of no transfer; the failed ids are ascending, each once.
pub fn failed_ids_hold()
    ensures { (m : Machine) → IsValid m → FailedIdsHold m }
{}

/// An entry holds all that its event asked for: sent as it is stored it is the same entry, also
/// where an amount was lowered or a field taken from a pending transfer.
pub fn sent_again_is_same()
    ensures { (m : Machine) (ev : TransferEvent) (timestamp : ℕ) →
        IsValid m → transfer_verdict_in m ev ≡ None →
        IsSentAsStored m (entry_for m ev timestamp) }
{}

/// A new account changes no balance.
pub fn account_changes_nothing()
    ensures { (m : Machine) (account : Account) →
        IsValid m → IsNextAccount m account → ChangesNoBalance m account }
{}

/// What `release` takes off is what the balances lose without the entry: in any list, and in a
/// valid machine, whose pending transfers are no posts or voids and have two accounts.
pub fn release_is_without()
    ensures lists { (before after : List Transfer) (entry : Transfer) (clock : ℕ) →
        is_pending entry.flags ≡ true → is_post_or_void entry.flags ≡ false →
        is_open (fate_of (before ++ entry ∷ after) clock entry) ≡ true →
        entry.debit_account_id ≢ entry.credit_account_id →
        IsReleased (before ++ entry ∷ after) (before ++ after) clock entry }
    ensures valid { (m : Machine) (before after : List Transfer) (entry : Transfer) →
        IsValid m → m.transfers ≡ before ++ entry ∷ after →
        is_pending entry.flags ≡ true → is_open (fate_of m.transfers m.clock entry) ≡ true →
        IsReleased m.transfers (before ++ after) m.clock entry }
{}
