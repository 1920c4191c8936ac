//! What holds of rows as a file has them. The functions do nothing: each one's contract is a law.

ghost use Rattle.std.specs.Prelude.{◌≡◌, ℕ};
ghost use Rattle.records.specs.Machine.{Machine};
ghost use Rattle.records.specs.Valid.{IsValid};
ghost use Rattle.rows.specs.TypedRows.{TypedRows, cells_of};
ghost use Rattle.rows.specs.Widths.{AreStorable};
ghost use Rattle.rows.specs.Prescribed.{rows_for};

use amount::columns_keep_order;

/// A file can hold all rows of a valid machine: each value is within its width.
pub fn rows_fit()
    ensures { (version : ℕ) (m : Machine) → IsValid m → AreStorable (rows_for version m) }
{}

/// Rows that a file can hold are the same where their cells are.
pub fn cells_tell_rows()
    ensures { (xs ys : TypedRows) →
        AreStorable xs → AreStorable ys → cells_of xs ≡ cells_of ys → xs ≡ ys }
{
    columns_keep_order();
}
