ghost use Rattle.std.specs.Prelude.{pos, [], ◌∷◌};
ghost use Rattle.sqlite_value.specs.declared.value.Value.TheVariants.{Int};
ghost use Rattle.ledger_sql.specs.Values.{clock_values, id_values};

use crate::read::{Columns, ReadRow};
use records::Unavailable;

/// A clock.
impl ReadRow for u64 {
    ghost values = { λ clock. clock_values (pos clock) };

    fn read(columns: &mut Columns<'_>) -> Result<u64, Unavailable> {
        u64::try_from(columns.whole()?).map_err(|_| Unavailable::Size)
    }
}

/// A whole number with sign: a tenant's number, a version, a clock as a file has it.
impl ReadRow for i64 {
    ghost values = { λ number. Int number ∷ [] };

    fn read(columns: &mut Columns<'_>) -> Result<i64, Unavailable> {
        columns.whole()
    }
}

/// An id.
impl ReadRow for [u8; 16] {
    ghost values = { id_values };

    fn read(columns: &mut Columns<'_>) -> Result<[u8; 16], Unavailable> {
        columns.bytes()
    }
}
