//! The words of a statement: its columns, sides and kinds.
ghost use Rattle.std.specs.Prelude.{◌≡◌};
ghost use Rattle.statement.specs.Text.{header_line, kind_name, side_name};

use records::{Kind, Side};

#[tactic(auto, unfolding(crate::specs::Text::header_line))]
pub fn header_line() -> &'static [u8]
    ensures { result.now ≡ header_line }
{
    b"timestamp,transfer_id,side,kind,amount,\
      debits_pending,debits_posted,credits_pending,credits_posted\n"
}

pub fn side_name(side: Side) -> &'static [u8]
    ensures { result.now ≡ side_name side }
{
    match side {
        Side::Debit => b"debit",
        Side::Credit => b"credit",
    }
}

pub fn kind_name(kind: Kind) -> &'static [u8]
    ensures { result.now ≡ kind_name kind }
{
    match kind {
        Kind::Single => b"single",
        Kind::Pending => b"pending",
        Kind::Post => b"post",
        Kind::Void => b"void",
    }
}
