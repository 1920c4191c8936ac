//! Laws of commands. The functions do nothing; their contracts are the laws.
ghost use Rattle.commands.specs.PieceByPiece.{PiecesMakeTheStatement, PiecesMakeTheWhole};
ghost use Rattle.commands.specs.ReadBack.{PiecesAreReadBack};
ghost use Rattle.commands.specs.Unsettled.{SettlingShowsNowhere};

use engine::settling_first_changes_nothing;
use service::each_tenant_sees_itself;

/// A statement of a ledger that is served is read piece by piece, while the ledger goes on. The
/// pieces make the whole: they have each entry of the account once and in order, up to the clock of
/// the first, and what is written of them is the statement of the ledger at that clock.
pub fn pieces_make_the_whole()
    ensures entries { PiecesMakeTheWhole }
    ensures statement { PiecesMakeTheStatement }
{}

/// What a service tells of a piece is read as it was told: the clock, and each entry with all that
/// it has.
pub fn pieces_are_read_back()
    ensures { PiecesAreReadBack }
{}

/// Settling a tenant between its messages shows in no reply to a batch. After a course whose moments
/// do not fall, each batch gets the reply that it would get if the tenant had never been settled so.
pub fn settling_shows_nowhere()
    ensures { SettlingShowsNowhere }
{
    settling_first_changes_nothing();
    each_tenant_sees_itself();
}
