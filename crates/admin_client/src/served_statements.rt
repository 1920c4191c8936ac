//! Statements of a ledger that is served: the service is asked for one piece behind the other, of
//! the entries up to the clock at which the first was read.
ghost use Rattle.std.specs.Prelude.{◌≡◌, ◌||◌, Bool, false, map, IfErr, IfOk, IfSome, MatchResult, OnOk};
ghost use Rattle.std.specs.Io.KnownBytes.{Appends};
ghost use Rattle.chain.specs.AccountEntries.{row_of};
ghost use Rattle.chain.specs.declared.account_entry.AccountEntry.{AccountEntry};
ghost use Rattle.control.specs.Answers.{TellsEntries};
ghost use Rattle.control.specs.Told.{IsCallFault};
ghost use Rattle.records.specs.Reads.{in_order};
ghost use Rattle.records.specs.Streams.{TakesRows};
ghost use Rattle.statement.specs.Extract.{closing_of, kept_of, opening_of};
ghost use Rattle.statement.specs.Fault.{is_sink_write};
ghost use Rattle.statement.specs.Text.{statement_text};
ghost use Rattle.statement.specs.Writer.{drain_of};
ghost use Rattle.admin_client.specs.Served.{first_asked, last_time, piece_behind, served_text, text_by};
ghost use Rattle.admin_client.specs.Served.{Gathers, IsFailureTold, IsFirstPiece, IsGathered, OfAllPieces};
ghost use Rattle.admin_client.specs.Served.{WritesEntry};
ghost use Rattle.admin_client.specs.Served.{IsUnserved};

use crate::asked::Asked;
use crate::calling::ask;
use chain::AccountEntry;
use command_texts::Fault;
use control::{Answer, Call, Entries, PieceAsked, entries_in};
use parts::row_of;
use records::{Drain, Order, RowSink, SinkFault, Transfer, put_all};
use statement::{
    Extract, Period, StatementWriter, extract_text, rows_make_a_statement, rows_make_an_extract,
};
use std::alloc::Global;
use tenants::TenantName;

/// The first piece of a statement, and what was asked for.
#[derive(Drop)]
pub struct First {
    /// What was asked for.
    pub asked: PieceAsked,
    /// What was answered.
    pub entries: Entries,
}

/// Takes an account's entries, one after the other.
trait EntrySink {
    // What taking an entry makes of it.
    ghost takes: { Self → AccountEntry → Self → Type 0 };

    // Whether what it writes to has failed.
    ghost failed: { Self → Bool };

    /// Takes the next entry.
    fn entry(&mut self, entry: &AccountEntry) -> Result<(), SinkFault>
        ensures taken { OnOk result (takes self.old entry.now self.new) }
        ensures failed { failed self.new ≡ (is_sink_write result || failed self.old) };
}

/// A whole statement, which is written entry by entry.
#[derive(Drop)]
struct Whole<O: Drain> {
    account: u128,
    writer: StatementWriter<O>,
}

impl<O: Drain> EntrySink for Whole<O> {
    ghost takes = { WritesEntry O.written };

    ghost failed = { λ whole. O.failed (drain_of whole.writer) };

    fn entry(&mut self, entry: &AccountEntry) -> Result<(), SinkFault> {
        self.writer.row(&row_of(self.account, entry))
    }
}

/// What of a statement lies in a period, and the transfers of its entries where wide lines are
/// asked for.
#[derive(Drop)]
struct Gathered {
    account: u128,
    period: Period,
    is_wide: bool,
    extract: Extract,
    transfers: Vec<Transfer>,
}

impl EntrySink for Gathered {
    ghost takes = { Gathers };

    // It writes to memory alone.
    ghost failed = { λ gathered. false };

    fn entry(&mut self, entry: &AccountEntry) -> Result<(), SinkFault> {
        let row = row_of(self.account, entry);
        self.extract.row(&row)?;
        if self.is_wide
            && self.period.is_within(&row)
            && self.transfers.push(entry.transfer).is_err()
        {
            return Err(SinkFault::Memory);
        }
        Ok(())
    }
}

// What is asked for first: a whole statement in its order; else the oldest entries first, from the
// beginning on, since the sums before a period are those of its last entry before. That may be one
// behind the period's end, where it ends before it begins.
fn first_asked(tenant: &TenantName, account: u128, asked: &Asked) -> PieceAsked
    ensures { result ≡ first_asked tenant.now account asked.now }
{
    let is_whole = asked.is_whole();
    PieceAsked {
        tenant: *tenant,
        account,
        from: 0,
        to: if is_whole {
            u64::MAX
        } else {
            asked.period.to.max(asked.period.from)
        },
        is_reversed: is_whole && asked.order == Order::Newest,
    }
}

// What is asked for behind a piece whose last entry has this time. Behind a piece of no entries
// there are no more.
fn piece_behind(asked: PieceAsked, last: Option<u64>) -> Option<PieceAsked>
    ensures { result ≡ piece_behind asked last }
{
    let last = last?;
    if asked.is_reversed {
        if last == 0 {
            return None;
        }
        let to = last - 1;
        Some(PieceAsked { to, ..asked })
    } else {
        if last == u64::MAX {
            return None;
        }
        let from = last + 1;
        Some(PieceAsked { from, ..asked })
    }
}

fn ask_piece(
    rt: &HostRuntime,
    db: &str,
    piece: &PieceAsked,
) -> Result<Option<(Entries, Answer)>, Fault>
    ensures { MatchResult result
        (λ found. IfSome found (λ told. TellsEntries piece.now told.0 told.1)) IsCallFault }
{
    match ask(rt, db, &Call::Statement { piece: *piece })? {
        Some(answer) => Ok(Some((entries_in(rt.alloc(), answer.body())?, answer))),
        None => Ok(None),
    }
}

/// Asks whoever serves a file for the first piece of a statement. `None` where nobody does.
pub fn ask_first(
    rt: &HostRuntime,
    db: &str,
    tenant: &TenantName,
    account: u128,
    asked: &Asked,
) -> Result<Option<(First, Answer)>, Fault>
    ensures { MatchResult result (λ found. IfSome found (λ told.
        IsFirstPiece tenant.now account asked.now told.0 told.1)) IsCallFault }
{
    let asked = first_asked(tenant, account, asked);
    match ask_piece(rt, db, &asked)? {
        Some((entries, answer)) => Ok(Some((First { asked, entries }, answer))),
        None => Ok(None),
    }
}

// Hands the entries of a piece to a sink, and tells the time of the last one.
fn hand_entries<S: EntrySink>(
    entries: &[AccountEntry],
    sink: &mut S,
) -> Result<Option<u64>, SinkFault>
    ensures taken { OnOk result (TakesRows S.takes sink.old entries.now sink.new) }
    ensures last { IfOk result (λ last. last ≡ last_time entries.now) }
    ensures failed { S.failed sink.new ≡ (is_sink_write result || S.failed sink.old) }
{
    let mut last = None;
    for entry in entries {
        sink.entry(entry)?;
        last = Some(entry.transfer.timestamp);
    }
    Ok(last)
}

// Hands a statement's entries to a sink, from its first piece on.
fn hand_over<S: EntrySink>(
    rt: &HostRuntime,
    db: &str,
    first: First,
    sink: &mut S,
) -> Result<(), Fault>
    ensures taken { OnOk result (OfAllPieces first.asked first.entries
        (λ entries. TakesRows S.takes sink.old entries sink.new)) }
    ensures failed { IsFailureTold (S.failed sink.old) (S.failed sink.new) result }
    ensures fault { IfErr result IsUnserved }
{
    let First { asked, entries } = first;
    let mut asked = PieceAsked {
        to: asked.to.min(entries.clock),
        ..asked
    };
    let mut last = hand_entries(entries.entries.as_slice(), sink)?;
    'pieces: for _ in 0..u64::MAX {
        let Some(next) = piece_behind(asked, last) else {
            return Ok(());
        };
        asked = next;
        let (more, _answer) = ask_piece(rt, db, &asked)?.ok_or(Fault::Unavailable)?;
        last = hand_entries(more.entries.as_slice(), sink)?;
    }
    Err(Fault::Unavailable)
}

fn write_whole<O: Drain + Drop>(
    rt: &HostRuntime,
    db: &str,
    first: First,
    out: O,
) -> (O, Result<(), Fault>)
    ensures written { MatchResult result.1 (λ _. OfAllPieces first.asked first.entries
        (λ entries. Appends (O.written out) (O.written result.0)
        (statement_text (map (row_of first.asked.account) entries)))) IsUnserved }
    ensures failed { IsFailureTold (O.failed out) (O.failed result.0) result.1 }
{
    rows_make_a_statement::<O>();
    let writer = StatementWriter::new(rt.alloc(), out);
    let mut whole = Whole {
        account: first.asked.account,
        writer,
    };
    let handed = hand_over(rt, db, first, &mut whole);
    let Whole { account: _, writer } = whole;
    if let Err(fault) = handed {
        return (writer.into_inner(), Err(fault));
    }
    let (out, ended) = writer.finish();
    match ended {
        Ok(()) => (out, Ok(())),
        Err(_) => (out, Err(Fault::Output)),
    }
}

fn gather(rt: &HostRuntime, db: &str, first: First, asked: &Asked) -> Result<Gathered, Fault>
    ensures { MatchResult result (λ gathered. OfAllPieces first.asked first.entries
        (λ entries. IsGathered first.asked.account asked.now entries gathered)) IsUnserved }
{
    rows_make_an_extract();
    let extract = Extract::new(rt.alloc(), asked.period);
    let transfers = Vec::new(rt.alloc());
    let mut gathered = Gathered {
        account: first.asked.account,
        period: asked.period,
        is_wide: asked.layout.is_wide,
        extract,
        transfers,
    };
    hand_over(rt, db, first, &mut gathered)?;
    Ok(turned(gathered, asked.order))
}

// What is gathered, oldest entry first, in the order asked.
fn turned(mut gathered: Gathered, order: Order) -> Gathered
    ensures rows { kept_of result.extract ≡ in_order order (kept_of gathered.extract) }
    ensures opening { opening_of result.extract ≡ opening_of gathered.extract }
    ensures closing { closing_of result.extract ≡ closing_of gathered.extract }
    ensures transfers { result.transfers.items ≡ in_order order gathered.transfers.items }
{
    match order {
        Order::Oldest => gathered,
        Order::Newest => {
            gathered.extract.turn();
            gathered.transfers.reverse();
            gathered
        }
    }
}

// What is asked for of a statement of a period.
fn period_text(rt: &HostRuntime, db: &str, first: First, asked: &Asked) -> Result<Vec<u8>, Fault>
    ensures { MatchResult result (λ text. OfAllPieces first.asked first.entries
        (λ entries. text.items ≡ text_by false first.asked.account asked.now entries))
        IsUnserved }
{
    let gathered = gather(rt, db, first, asked)?;
    let transfers = gathered.transfers.as_slice();
    Ok(extract_text(rt.alloc(), asked.layout, &gathered.extract, transfers)?)
}

/// Writes what is asked for of a statement of a ledger that is served, whose first piece is there,
/// and gives the writer back. Where the service has ended in the middle it is `Unavailable`.
pub fn write_served<O: Drain + Drop>(
    rt: &HostRuntime,
    db: &str,
    first: First,
    asked: &Asked,
    mut out: O,
) -> (O, Result<(), Fault>)
    ensures written { MatchResult result.1 (λ _. OfAllPieces first.asked first.entries
        (λ entries. Appends (O.written out) (O.written result.0)
        (served_text first.asked.account asked.now entries))) IsUnserved }
    ensures failed { IsFailureTold (O.failed out) (O.failed result.0) result.1 }
{
    if asked.is_whole() {
        return write_whole(rt, db, first, out);
    }
    let text = match period_text(rt, db, first, asked) {
        Ok(text) => text,
        Err(fault) => return (out, Err(fault)),
    };
    match put_all(&mut out, text.as_slice()) {
        Ok(()) => (out, Ok(())),
        Err(_) => (out, Err(Fault::Output)),
    }
}
