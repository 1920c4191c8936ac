//! What holds of rows in any order, and of tables that tenants share. The functions do nothing:
//! each one's contract is a law.

ghost use Rattle.std.specs.Prelude.{◌≡◌, ◌≢◌, ℕ, ℤ, false, ◌==◌, List, [], ◌∷◌, ◌++◌, filter, Some, IsPermutation};
ghost use Rattle.std.specs.Option.{option_to_list};
ghost use Rattle.std.specs.Ordering.{nat_cmp};
ghost use Rattle.std.specs.List.Sorted.{IsSortedByKey};
ghost use Rattle.records.specs.declared.account.Account.{Account};
ghost use Rattle.records.specs.declared.transfer.Transfer.{Transfer};
ghost use Rattle.records.specs.declared.balances.Balances.{Balances};
ghost use Rattle.records.specs.declared.accepted.Accepted.{Accepted};
ghost use Rattle.records.specs.Machine.{Machine, has_id};
ghost use Rattle.records.specs.Valid.{IsValid};
ghost use Rattle.rows.specs.TypedRows.{TypedRows};
ghost use Rattle.rows.specs.Prescribed.{rows_for};
ghost use Rattle.rows.specs.Keyed.{row_with, changed};
ghost use Rattle.rows.specs.Changes.{with_opened, with_accepted, with_expired, with_failed_id};
ghost use Rattle.rows.specs.SameRows.{AreSameRows};
ghost use Rattle.rows.specs.Tables.{HasDistinctKeys, AreKeyed, IsAscendingBy, without_key, Owned, own_rows, own_changed};

/// Rows that a valid machine prescribes are told apart by their keys.
pub fn keys_are_distinct()
    ensures { (m : Machine) (rows : TypedRows) →
        IsValid m → AreSameRows (rows_for 3 m) rows → AreKeyed rows }
{}

/// Prescribed accounts, transfers and the history of each account stand in order of time, and
/// failed ids in order.
pub fn rows_stand_in_order()
    ensures accounts { (m : Machine) →
        IsValid m → IsAscendingBy (λ row. row.timestamp) (rows_for 3 m).accounts }
    ensures transfers { (m : Machine) →
        IsValid m → IsAscendingBy (λ row. row.timestamp) (rows_for 3 m).transfers }
    ensures history { (m : Machine) (account : ℕ) →
        IsValid m →
        IsAscendingBy (λ row. row.timestamp)
        (filter (λ row. row.account == account) (rows_for 3 m).history) }
    ensures failed { (m : Machine) →
        IsValid m → IsAscendingBy (λ id. id) (rows_for 3 m).failed }
{}

/// The same change of the same rows, in another order, leaves the same rows.
pub fn changes_keep_same_rows()
    ensures opened { (account : Account) (xs ys : TypedRows) →
        AreSameRows xs ys → AreSameRows (with_opened account xs) (with_opened account ys) }
    ensures accepted { (accepted : Accepted) (xs ys : TypedRows) →
        AreSameRows xs ys → AreSameRows (with_accepted accepted xs) (with_accepted accepted ys) }
    ensures expired { (t : Transfer) (debit credit : Balances) (xs ys : TypedRows) →
        AreSameRows xs ys →
        AreSameRows (with_expired t debit credit xs) (with_expired t debit credit ys) }
    ensures failed { (id : ℕ) (xs ys : TypedRows) →
        has_id id xs.failed ≡ false → AreSameRows xs ys →
        AreSameRows (with_failed_id id xs) (record ys { failed = ys.failed ++ id ∷ [] }) }
    ensures then { (xs ys zs : TypedRows) →
        AreSameRows xs ys → AreSameRows ys zs → AreSameRows xs zs }
{}

/// Rows of any table, in any order: one is found by its key, and is replaced where it is changed.
pub fn found_by_key<R>()
    ensures distinct { (key : R → ℕ) (xs ys : List R) →
        IsPermutation xs ys → HasDistinctKeys key xs → HasDistinctKeys key ys }
    ensures found { (key : R → ℕ) (id : ℕ) (xs ys : List R) →
        IsPermutation xs ys → HasDistinctKeys key xs → row_with key id ys ≡ row_with key id xs }
    ensures alone { (key : R → ℕ) (id : ℕ) (xs : List R) →
        HasDistinctKeys key xs →
        filter (λ row. key row == id) xs ≡ option_to_list (row_with key id xs) }
    ensures changed { (key : R → ℕ) (id : ℕ) (change : R → R) (xs ys : List R) →
        IsPermutation xs ys → IsPermutation (changed key id change xs) (changed key id change ys) }
    ensures replaced { (key : R → ℕ) (id : ℕ) (change : R → R) (xs : List R) (row : R) →
        HasDistinctKeys key xs → row_with key id xs ≡ Some row →
        IsPermutation (change row ∷ without_key key id xs) (changed key id change xs) }
{}

/// Rows of any table that are read in order of their key are one list.
pub fn read_in_order<R>()
    ensures sorted { (key : R → ℕ) (xs ys : List R) →
        HasDistinctKeys key xs → IsPermutation xs ys →
        IsSortedByKey key nat_cmp xs → IsSortedByKey key nat_cmp ys → xs ≡ ys }
    ensures ascending { (key : R → ℕ) (xs ys : List R) →
        IsAscendingBy key xs → IsPermutation xs ys → IsSortedByKey key nat_cmp ys → xs ≡ ys }
{}

/// In a table that tenants share, a row more and a change for one tenant are so for its own rows,
/// and leave all others'.
pub fn shared_by_tenants<R>()
    ensures permuted { (tenant : ℤ) (xs ys : List (Owned R)) →
        IsPermutation xs ys → IsPermutation (own_rows tenant xs) (own_rows tenant ys) }
    ensures pushed { (tenant : ℤ) (row : R) (rows : List (Owned R)) →
        own_rows tenant (rows ++ record { tenant = tenant; row = row } ∷ [])
        ≡ own_rows tenant rows ++ row ∷ [] }
    ensures pushed_for_another { (tenant other : ℤ) (row : R) (rows : List (Owned R)) →
        other ≢ tenant →
        own_rows other (rows ++ record { tenant = tenant; row = row } ∷ []) ≡ own_rows other rows }
    ensures changed { (key : R → ℕ) (tenant : ℤ) (id : ℕ) (change : R → R) (rows : List (Owned R)) →
        own_rows tenant (own_changed key tenant id change rows)
        ≡ changed key id change (own_rows tenant rows) }
    ensures changed_for_another { (key : R → ℕ) (id : ℕ) (change : R → R) (tenant other : ℤ) →
        (rows : List (Owned R)) → other ≢ tenant →
        own_rows other (own_changed key tenant id change rows) ≡ own_rows other rows }
{}
