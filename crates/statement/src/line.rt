//! The line of an entry.
ghost use Rattle.std.specs.Prelude.{◌≡◌, [], IfErr, IfOk, map};
ghost use Rattle.csv.specs.Writing.{default_writer, row_text};
ghost use Rattle.amount.specs.Decimal.{decimal_of};
ghost use Rattle.statement.specs.Text.{line_of};

use crate::StatementFault;
use crate::decimal::Decimal;
use crate::names::{kind_name, side_name};
use amount::Amount;
use csv::Writer;
use records::StatementRow;

// One record of CSV, in the memory of `buffer`.
fn record_of(buffer: Vec<u8>, fields: &[&[u8]]) -> Result<Vec<u8>, csv::Error>
    requires { buffer.items ≡ [] }
    ensures { IfOk result
        (λ text. text.items ≡ row_text default_writer (map (λ field. field.now) fields.now)) }
{
    let mut writer = Writer::from_writer(buffer);
    writer.write_fields(fields)?;
    match writer.into_inner() {
        Ok(text) => Ok(text),
        Err(error) => Err(error.into_error()),
    }
}

fn digits(amount: Amount) -> Decimal
    ensures { result ≡ decimal_of amount }
{
    Decimal::new(amount.value())
}

/// The line of an entry, in the memory of `buffer`, which holds an older line.
pub fn line_of(mut buffer: Vec<u8>, row: &StatementRow) -> Result<Vec<u8>, StatementFault>
    ensures ok { IfOk result (λ line. line.items ≡ line_of row.now) }
    ensures err { IfErr result (λ fault. fault ≡ StatementFault.Memory) }
{
    buffer.clear();
    let timestamp = Decimal::new(u128::from(row.timestamp));
    let transfer_id = Decimal::new(row.transfer_id);
    let amount = digits(row.amount);
    let debits_pending = digits(row.balances.debits.pending);
    let debits_posted = digits(row.balances.debits.posted);
    let credits_pending = digits(row.balances.credits.pending);
    let credits_posted = digits(row.balances.credits.posted);
    let fields = [
        timestamp.as_bytes(),
        transfer_id.as_bytes(),
        side_name(row.side),
        kind_name(row.kind),
        amount.as_bytes(),
        debits_pending.as_bytes(),
        debits_posted.as_bytes(),
        credits_pending.as_bytes(),
        credits_posted.as_bytes(),
    ];
    match record_of(buffer, &fields) {
        Ok(line) => Ok(line),
        Err(_) => Err(StatementFault::Memory),
    }
}
