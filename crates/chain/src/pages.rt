//! Pages of what a query asks for, as work on one tenant's tables.

ghost use Rattle.std.specs.Prelude.{◌≡◌, ◌++◌, ◌<◌, ◌≤◌, All, OnOk};
ghost use Rattle.std.specs.Option.{option_to_list};
ghost use Rattle.records.specs.Queries.{page_in, page_order, time_behind};
ghost use Rattle.records.specs.Step.{max_clock};
ghost use Rattle.chain.specs.LedgerReads.{seen_of_page};
ghost use Rattle.chain.specs.Looks.{LeavesSame, Searches, Shows};
ghost use Rattle.chain.specs.Pages.{IsRecord, LooksThrough, LooksWithin, first_shown};
ghost use Rattle.chain.specs.Pages.{is_full, page_of, span_behind};

use crate::query::Query;
use crate::{QueryPage, Tables, Work};
use records::{MOST_AT_ONCE, MOST_LOOKED_AT, Order, Span, Unavailable};
use std::alloc::Global;

/// Makes the page that a query asks for.
#[derive(Drop)]
pub(crate) struct PageOf<Q> {
    pub(crate) alloc: Global,
    pub(crate) query: Q,
}

impl<Q: Query + Drop> Work for PageOf<Q> {
    type Output = QueryPage<Q::Shown>;

    ghost gives = { λ work. Shows seen_of_page (λ m.
        page_in Q.time_of (Q.shown_in work.query m) (Q.asks work.query)
        (Q.records_in work.query m)) };

    fn run<T: Tables>(self, tables: &mut T) -> Result<QueryPage<Q::Shown>, Unavailable> {
        let clock = tables.clock()?;
        let page = page(self.alloc, tables, &self.query)?;
        Ok(QueryPage {
            clock,
            entries: page.entries,
            next: page.behind,
        })
    }
}

/// A page that is being made.
#[derive(Drop)]
struct Draft<S> {
    entries: Vec<S>,
    /// The time behind the last record that was looked at, in nanoseconds: 0 where there is none,
    /// or where nothing lies behind it.
    behind: u64,
}

/// The page that a query asks for. It looks first at as many records as are asked for, and then at
/// twice as many each time.
fn page<T: Tables, Q: Query>(
    alloc: Global,
    tables: &mut T,
    query: &Q,
) -> Result<Draft<Q::Shown>, Unavailable>
    requires { T.means.is_usable tables.old }
    ensures { Searches T.means (λ m page. page_of page
        ≡ page_in Q.time_of (Q.shown_in query.now m) (Q.asks query.now) (Q.records_in query.now m))
        tables.old tables.new result }
{
    let asked = query.page();
    let mut draft = Draft {
        entries: Vec::new(alloc),
        behind: 0,
    };
    let mut left = MOST_LOOKED_AT;
    let mut span = Span {
        most: asked.limit.clamp(1, left),
        ..asked.span()
    };
    while left > 0 {
        if look_within(alloc, tables, query, &span, &mut draft)? {
            return Ok(draft);
        }
        left -= span.most;
        let most = left.min(2 * span.most);
        span = Span {
            most,
            ..span_behind(&span, draft.behind)
        };
    }
    Ok(draft)
}

/// What is shown of the records in the span of a page, up to its limit. However many it looks at:
/// first at as many as are asked for, and then at twice as many each time.
pub(crate) fn first_shown<T: Tables, Q: Query>(
    alloc: Global,
    tables: &mut T,
    query: &Q,
) -> Result<Vec<Q::Shown>, Unavailable>
    requires { T.means.is_usable tables.old }
    ensures { Searches T.means (λ m shown. shown.items
        ≡ first_shown Q.time_of (Q.shown_in query.now m) (Q.asks query.now)
        (Q.records_in query.now m)) tables.old tables.new result }
{
    let asked = query.page();
    let mut draft = Draft {
        entries: Vec::new(alloc),
        behind: 0,
    };
    let mut span = Span {
        most: asked.limit.clamp(1, MOST_AT_ONCE),
        ..asked.span()
    };
    'spans: for _ in 0..u64::MAX {
        if look_within(alloc, tables, query, &span, &mut draft)? {
            return Ok(draft.entries);
        }
        let most = MOST_AT_ONCE.min(2 * span.most);
        span = Span {
            most,
            ..span_behind(&span, draft.behind)
        };
    }
    Err(Unavailable::Size)
}

/// Looks at the first records of a span, and tells whether the page ends there.
fn look_within<T: Tables, Q: Query>(
    alloc: Global,
    tables: &mut T,
    query: &Q,
    span: &Span,
    draft: &mut Draft<Q::Shown>,
) -> Result<bool, Unavailable>
    requires usable { T.means.is_usable tables.old }
    requires order { span.now.order ≡ page_order (Q.asks query.now) }
    requires some { 0 < span.now.most }
    ensures { Searches T.means (λ m. LooksWithin Q.time_of (Q.shown_in query.now m)
        (Q.asks query.now) (Q.records_in query.now m) span.now (page_of draft.old)
        (page_of draft.new)) tables.old tables.new result }
{
    let records = query.within(alloc, tables, span)?;
    look_through(tables, query, &records, draft)?;
    if is_full(query, draft) {
        return Ok(true);
    }
    let is_last = records.len() < span.most as usize;
    if is_last {
        draft.behind = 0;
    }
    Ok(is_last)
}

/// Looks at records one by one, until the page has as many as are asked for.
fn look_through<T: Tables, Q: Query>(
    tables: &mut T,
    query: &Q,
    records: &[Q::Record],
    draft: &mut Draft<Q::Shown>,
) -> Result<(), Unavailable>
    requires usable { T.means.is_usable tables.old }
    requires kept { T.means.is_live tables.old → All (IsRecord Q.time_of
        (Q.is_kept (T.means.state tables.old).now)) records.now }
    ensures { Searches T.means (λ m done. LooksThrough Q.time_of (Q.shown_in query.now m)
        (Q.asks query.now) records.now (page_of draft.old) (page_of draft.new))
        tables.old tables.new result }
{
    for record in records {
        if is_full(query, draft) {
            return Ok(());
        }
        look_at(tables, query, record, draft)?;
    }
    Ok(())
}

/// Whether the page has as many records as are asked for.
fn is_full<Q: Query>(query: &Q, draft: &Draft<Q::Shown>) -> bool
    ensures { result ≡ is_full (Q.asks query.now) (page_of draft.now) }
{
    query.page().limit as usize <= draft.entries.len()
}

/// Looks at one record, and shows it if it is asked for.
fn look_at<T: Tables, Q: Query>(
    tables: &mut T,
    query: &Q,
    record: &Q::Record,
    draft: &mut Draft<Q::Shown>,
) -> Result<(), Unavailable>
    requires usable { T.means.is_usable tables.old }
    requires kept { T.means.is_live tables.old → IsRecord Q.time_of
        (Q.is_kept (T.means.state tables.old).now) record.now }
    ensures entries { T.means.is_live tables.new → OnOk result (draft.new.entries.items
        ≡ draft.old.entries.items
        ++ option_to_list (Q.shown_in query.now (T.means.state tables.old).now record.now)) }
    ensures behind { T.means.is_live tables.new → OnOk result (draft.new.behind
        ≡ time_behind (page_order (Q.asks query.now)) (Q.time_of record.now)) }
    ensures leaves { LeavesSame T.means tables.old tables.new result }
{
    let shown = query.show(tables, record)?;
    draft.behind = time_behind(query.page().order(), query.time(record));
    if let Some(shown) = shown {
        draft.entries.push(shown)?;
    }
    Ok(())
}

/// The time directly behind another one. Tables that are no longer live may show any time.
pub(crate) fn time_behind(order: Order, time: u64) -> u64
    ensures { time ≤ max_clock → result ≡ time_behind order time }
{
    match order {
        Order::Oldest => time.saturating_add(1),
        Order::Newest => time.saturating_sub(1),
    }
}

/// The rest of a span from this time on.
pub(crate) fn span_behind(span: &Span, time: u64) -> Span
    ensures { result ≡ span_behind span.now time }
{
    match span.order {
        Order::Oldest => Span {
            first: time,
            ..*span
        },
        Order::Newest => Span {
            last: time,
            ..*span
        },
    }
}
