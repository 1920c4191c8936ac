//! What the layout asks of a ledger's file, in the words of SQL's rules.

ghost use Rattle.sqlite_catalog.specs.Listing.{IsSound};
ghost use Rattle.sqlite_trees.specs.Tree.{Trees};
ghost use Rattle.keyed_trees.specs.Files.{MayBeCommitted};
ghost use Rattle.ledger_sql.specs.Schema.{ledger_schema};

use crate::layout::LedgerLayout;
use keyed_trees::Layout;
use ledger_rules::laws::{law_sound_trees_are_whole, law_whole_trees_are_sound};

/// A law: trees of a ledger's layout may be committed exactly if they obey the ledger's schema.
pub fn law_committed_trees_are_sound()
    ensures sound { (trees : Trees) → MayBeCommitted ⟦<LedgerLayout as Layout>⟧ trees
        → IsSound ledger_schema trees }
    ensures whole { (trees : Trees) → IsSound ledger_schema trees
        → MayBeCommitted ⟦<LedgerLayout as Layout>⟧ trees }
{
    law_sound_trees_are_whole();
    law_whole_trees_are_sound();
}
