//! Bodies judged as the service judges them.
ghost use Rattle.std.specs.Prelude.{◌≡◌, None, Err, IfOk};
ghost use Rattle.ledger_http.specs.Routes.{posted_route};
ghost use Rattle.command_texts.specs.Linting.{Lints};

use crate::Fault;
use crate::body_lines::body_line;
use crate::lines::put_text;
use ledger_http::Route;
use records::Drain;
use std::alloc::Global;
use wire::fault_in;

/// Tells what the service would refuse of a body that is posted to a path, and where; `ok` where it
/// would take the body. Says the status with which the program ends: 0, or 1 where something is
/// refused.
pub fn lint<O: Drain>(alloc: Global, path: &str, body: &[u8], out: &mut O) -> Result<u8, Fault>
    ensures path_first { posted_route path.now ≡ None → result ≡ Err Fault.BadRoute }
    ensures told { IfOk result (Lints path.now body.now (O.written out.old) (O.written out.new)) }
{
    let route = Route::posted_at(path).ok_or(Fault::BadRoute)?;
    match fault_in(alloc, route, body) {
        Ok(None) => {
            put_text(out, "ok\n")?;
            Ok(0)
        }
        Ok(Some(fault)) => {
            put_text(out, body_line(alloc, &fault)?.as_str())?;
            Ok(1)
        }
        Err(_) => Err(Fault::Unavailable),
    }
}
