//! What the rows of a valid machine do when the machine does. The functions do nothing: each one's
//! contract is a law.

ghost use Rattle.std.specs.Prelude.{◌≡◌, ℕ, ◌≤◌, List, [], ◌∷◌, ◌++◌, IsPermutation};
ghost use Rattle.records.specs.declared.account.Account.{Account};
ghost use Rattle.records.specs.declared.transfer.Transfer.{Transfer};
ghost use Rattle.records.specs.declared.balances.Balances.{Balances};
ghost use Rattle.records.specs.declared.accepted.Accepted.{Accepted};
ghost use Rattle.records.specs.Machine.{Machine, with_failed};
ghost use Rattle.records.specs.Step.{at_clock};
ghost use Rattle.records.specs.Accepted.{IsAccepted};
ghost use Rattle.records.specs.Valid.{IsValid, IsNextAccount, with_account, with_transfer};
ghost use Rattle.rows.specs.TypedRows.{TypedRows};
ghost use Rattle.rows.specs.Prescribed.{rows_for};
ghost use Rattle.rows.specs.Changes.{with_opened, with_accepted, with_failed_id};
ghost use Rattle.rows.specs.Settling.{rows_released, due_ids, IsNextRelease};
ghost use Rattle.rows.specs.SameRows.{AreSameRows, TellsOf};

/// With one account more, its row and its balance row are there.
pub fn account_rows()
    ensures { (m : Machine) (account : Account) →
        IsValid m → IsNextAccount m account →
        rows_for 3 (with_account m account) ≡ with_opened account (rows_for 3 m) }
{}

/// With one transfer more, its row and two history rows are there, its two accounts have the
/// balances that are told with it, and what it ends, or its own status, is set.
pub fn transfer_rows()
    ensures { (m : Machine) (accepted : Accepted) →
        IsValid m → IsAccepted m accepted →
        rows_for 3 (with_transfer m accepted.stored) ≡ with_accepted accepted (rows_for 3 m) }
{}

/// With one failed id more, its row is there.
pub fn failed_rows()
    ensures { (m : Machine) (id : ℕ) →
        rows_for 3 (with_failed m id) ≡ with_failed_id id (rows_for 3 m) }
{}

/// At a later clock the open transfers that are due have expired, each in its turn, in any order.
pub fn clock_rows()
    ensures first { (m : Machine) → rows_released m [] ≡ rows_for 3 m }
    ensures next { (m : Machine) (clock : ℕ) (done rest : List ℕ) (id : ℕ) →
        IsValid m → IsPermutation (due_ids clock (rows_for 3 m)) (done ++ id ∷ rest) →
        (t : Transfer) × (debit : Balances) × (credit : Balances)
        × IsNextRelease m done id t debit credit }
    ensures last { (m : Machine) (clock : ℕ) (ids : List ℕ) →
        IsValid m → m.clock ≤ clock → IsPermutation (due_ids clock (rows_for 3 m)) ids →
        rows_for 3 (at_clock m clock) ≡ record (rows_released m ids) { clock = clock } }
    ensures nothing_due { (m : Machine) (clock : ℕ) →
        IsValid m → m.clock ≤ clock → due_ids clock (rows_for 3 m) ≡ [] →
        rows_for 3 (at_clock m clock) ≡ record (rows_for 3 m) { clock = clock } }
{}

/// The rows of one id, in any order, tell what the machine has under that id.
pub fn single_rows()
    ensures { (m : Machine) (rows : TypedRows) (id : ℕ) →
        IsValid m → AreSameRows (rows_for 3 m) rows → TellsOf m rows id }
{}

/// Two machines with the same rows, in any order, are the same: stored balances, states and history
/// tell no more than the lists.
pub fn same_rows()
    ensures { (m n : Machine) →
        IsValid m → IsValid n → AreSameRows (rows_for 3 m) (rows_for 3 n) → m ≡ n }
{}
