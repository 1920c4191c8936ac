//! The keys of a table against their forms.

ghost use Rattle.std.specs.Prelude.{◌≡◌, ◌↔◌, replicate, IsTrue};
ghost use Rattle.std.specs.List.{list_all};
ghost use Rattle.sqlite_value.specs.Keys.{plain};
ghost use Rattle.ledger_shape.specs.Forms.{is_plain};

use crate::fits::Form;
use crate::forms::KeyForm;
use sqlite_items::Items;
use sqlite_value::keys::Order;

impl Form for KeyForm<'_> {
    ghost use Rattle.ledger_shape.specs.Forms.{key_for};

    type Item = Items<usize>;

    ghost meant = { key_for };

    fn fits(&self, item: &Items<usize>) -> bool {
        item.as_slice() == self.0
    }
}

/// Whether there are so many orders, and each column of each ascends by its bytes.
#[tactic(auto, using(crate::proofs::PlainLemmas::plain_alike))]
pub(crate) fn are_plain(orders: &[Order], many: usize) -> bool
    ensures { IsTrue result ↔ (orders.now ≡ replicate many plain) }
{
    orders.len() == many && all_plain(orders)
}

fn all_plain(orders: &[Order]) -> bool
    ensures { result ≡ list_all is_plain orders.now }
{
    orders.iter().all(|order| *order == Order::PLAIN)
}
