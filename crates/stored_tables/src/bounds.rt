//! Where a span of time begins and ends, as a file's numbers can say it.

ghost use Rattle.std.specs.Prelude.{◌≡◌, ◌<◌, pos, min, MatchOption};
ghost use Rattle.stored_tables.specs.Bounds.{max_time, begin_of};

use records::{Order, Span};

/// Where a span of time begins; none where that is beyond what a file can hold, and so beyond all
/// timestamps.
pub(crate) fn span_first(span: &Span) -> Option<i64>
    ensures { MatchOption result (max_time < span.now.first) (λ first. first ≡ pos span.now.first) }
{
    i64::try_from(span.first).ok()
}

/// Where it ends.
pub(crate) fn span_last(span: &Span) -> i64
    ensures { result ≡ pos (min span.now.last max_time) }
{
    i64::try_from(span.last).unwrap_or(i64::MAX)
}

/// Where it begins in its order. Bounds beyond what a file can hold are beyond all timestamps.
pub(crate) fn span_begin(span: &Span) -> i64
    ensures { result ≡ begin_of span.now }
{
    let bound = match span.order {
        Order::Oldest => span.first,
        Order::Newest => span.last,
    };
    i64::try_from(bound).unwrap_or(i64::MAX)
}
