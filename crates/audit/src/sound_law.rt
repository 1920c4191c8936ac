ghost use Rattle.audit.specs.Newer.{SoundRowsAreRead, SoundTimesAreOwn, SoundRowsLead, DerivedRowsAreTheirs, ValidWithoutFailed};

use crate::law::known_laws;
use running::failed_ids_stand_apart;

/// The rows of a valid machine lead to it, but for failed ids, and with the rows that it prescribes
/// in another version they are its rows there. It does nothing: its contract is a law.
pub(crate) fn sound_rows_lead()
    ensures read { SoundRowsAreRead }
    ensures times { SoundTimesAreOwn }
    ensures lead { SoundRowsLead }
    ensures derived { DerivedRowsAreTheirs }
    ensures valid { ValidWithoutFailed }
{
    known_laws();
    failed_ids_stand_apart();
}
