//! The law of the keys of ledgers.

ghost use Rattle.stored_ledgers.specs.OwnKeys.{LedgersOwnTheirKeys};

use amount::columns_keep_order;
use rows::{keys_are_distinct, rows_fit, rows_stand_in_order};

/// A law: in a database that holds ledgers no two rows have one unique key, and each row's tenant is
/// in the directory.
pub fn law_ledgers_own_their_keys()
    ensures { LedgersOwnTheirKeys }
{
    columns_keep_order();
    keys_are_distinct();
    rows_fit();
    rows_stand_in_order();
}
