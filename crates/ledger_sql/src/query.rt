//! Queries, whatever their text is.

ghost use Rattle.std.specs.Prelude.{◌≡◌, All, Err, map, IfOk};
ghost use Rattle.sqlite.specs.Values.{bound};
ghost use Rattle.sqlite.specs.State.{Shown};
ghost use Rattle.ledger_sql.specs.Calls.{AnswersWith, Reads};
ghost use Rattle.ledger_sql.specs.Queries.{IsReading, found_of, FindsFirst};

use crate::cause::table_fault;
use crate::read::{ReadRow, read_row};
use crate::table_fault::TableFault;
use records::Unavailable;
use sqlite::types::ValueRef;
use sqlite::{Alter, Connection, Error, Row};
use std::alloc::Global;

/// The first row of a query's answer, if it has one.
pub(crate) fn first_row<S: Alter>(
    conn: &mut Connection<S>,
    text: &str,
    params: &[ValueRef<'_>],
) -> Result<Option<Row>, TableFault>
    requires { IsReading text.now }
    ensures ok { AnswersWith (FindsFirst text.now (bound params.now))
        S.Store conn.old conn.new result }
    ensures reads { Reads S.Store conn.old conn.new result }
{
    found(conn.query_row(text, params))
}

/// All rows of a query's answer, read.
pub(crate) fn all_rows<S: Alter, T: ReadRow>(
    alloc: Global,
    conn: &mut Connection<S>,
    text: &str,
    params: &[ValueRef<'_>],
) -> Result<Vec<T>, TableFault>
    requires { IsReading text.now }
    ensures ok { AnswersWith
        (λ old new read. Shown text.now (bound params.now) old new (map T.values read.items))
        S.Store conn.old conn.new result }
    ensures fits { IfOk result (λ read. All T.is_storable read.items) }
    ensures reads { Reads S.Store conn.old conn.new result }
{
    let mut read = Vec::new(alloc);
    let mut rows = conn.query(text, params)?;
    'rows: for _ in 0..u64::MAX {
        let Some(row) = rows.next()? else {
            return Ok(read);
        };
        read.push(read_row(row)?)?;
    }
    Err(TableFault::Unavailable(Unavailable::Size))
}

/// That there is no row is an answer too.
fn found(answer: Result<Row, Error>) -> Result<Option<Row>, TableFault>
    ensures { result ≡ found_of answer }
{
    match answer {
        Ok(row) => Ok(Some(row)),
        Err(Error::QueryReturnedNoRows) => Ok(None),
        Err(error) => Err(table_fault(error)),
    }
}
