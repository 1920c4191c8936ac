ghost use Rattle.std.specs.Prelude.{◌≡◌, take};
ghost use Rattle.records.specs.Reads.{in_order};

use records::{Order, Span};

/// The first of the records in a span, in its order.
pub(crate) fn first_of_span<T: Copy>(span: &Span, mut records: Vec<T>) -> Vec<T>
    ensures { result.items ≡ take span.now.most (in_order span.now.order records.items) }
{
    if span.order == Order::Newest {
        records.reverse();
    }
    records.truncate(span.most as usize);
    records
}
