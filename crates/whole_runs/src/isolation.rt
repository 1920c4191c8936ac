//! The law of isolation, of stores. The function does nothing; its contract is the law.
ghost use Rattle.whole_runs.specs.SameRows.{StoresIsolate, StoresStay};

use service::tenants_are_isolated;
use sqlite_disk::Disk;
use stored_tables::held_machines;

/// For any two stores that agree on the caller's rows, the same bytes at the same moment give the
/// same reply and leave the same rows of the caller, and every other tenant's rows stay, unless one
/// of them answers that it is unavailable, which changes nothing.
pub fn stores_are_isolated<D: Disk, E: Disk>()
    ensures alike { StoresIsolate D.Disk E.Disk }
    ensures unmoved { StoresStay D.Disk }
{
    held_machines();
    tenants_are_isolated();
}
