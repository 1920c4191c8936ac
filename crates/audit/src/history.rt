//! A tenant's history beside the one that its machine prescribes.

ghost use Rattle.std.specs.Prelude.{◌≡◌, IfOk, map};
ghost use Rattle.std.specs.Bool.{OnTrue};
ghost use Rattle.records.specs.Machine.{Machine};
ghost use Rattle.records.specs.Valid.{IsValid};
ghost use Rattle.rows.specs.Cells.{history_cells};
ghost use Rattle.rows.specs.Prescribed.{history_rows, rows_for};
ghost use Rattle.rows.specs.Tables.{HasDistinctKeys, history_key};
ghost use Rattle.rows.specs.TypedRows.{TypedRows, FileRows, lists_of};
ghost use Rattle.audit.specs.declared.damage.DamageKind.TheVariants as kind;
ghost use Rattle.audit.specs.Held.{Holds};
ghost use Rattle.audit.specs.Meeting.{HasMet, IsToldOf};
ghost use Rattle.audit.specs.Order.{IsFirstPlace, in_order};
ghost use Rattle.audit.specs.Stages.{IsClearBelow};
ghost use Rattle.audit.specs.Table.{IsWrong};
ghost use Rattle.audit.specs.Told.{TellsRows, machine_told};

use crate::cells::first_difference;
use crate::derived::history_rows;
use crate::law::known_laws;
use crate::meeting::Meeting;
use crate::replayed::history_told;
use crate::told::Told;
use rows::TenantRows;
use std::alloc::{AllocError, Global};

/// The first place at which the history rows are others. Only where a meeting has not met them all
/// they are told once more, to a list.
pub(crate) fn first_bad_history(
    alloc: Global,
    version: u32,
    rows: &TenantRows,
    told: &Told,
    meeting: &Meeting,
) -> Result<Option<usize>, AllocError>
    requires met { (typed : TypedRows)
        × TellsRows (lists_of rows.now) typed
        × Holds told.now typed
        × IsValid (machine_told typed)
        × HasMet (lists_of rows.now) typed meeting.now }
    requires clear { IsClearBelow version (lists_of rows.now) 4 }
    ensures { IfOk result
        (IsFirstPlace (IsWrong version (lists_of rows.now) kind.History)) }
{
    known_laws();
    if is_met(version, meeting) {
        return Ok(None);
    }
    let list = history_told(alloc, rows, told)?;
    let wanted = history_rows(alloc, version, list)?;
    Ok(first_difference(&rows.history, &wanted))
}

fn is_met(version: u32, meeting: &Meeting) -> bool
    ensures { OnTrue result
        ((m : Machine) (rows : FileRows) →
        HasDistinctKeys history_key (history_rows m) → IsToldOf rows m meeting.now →
        rows.history
        ≡ map history_cells (in_order history_key (rows_for version m).history)) }
{
    2 <= version && meeting.is_whole()
}
