//! Statements of accounts: as CSV, a header line and a line for each entry; and of a period, in
//! other forms, with the sums before it and at its end.
#![tactic(auto)]

mod column;
mod decimal;
mod details;
mod extract;
mod extract_writing;
mod fault;
mod form;
mod laws;
mod layout;
mod line;
mod line_kind;
mod names;
mod period;
mod statement;
mod wide_line;
mod writer;
mod writing;

pub use extract::Extract;
pub use extract_writing::extract_text;
pub use fault::StatementFault;
pub use form::Form;
pub use laws::{
    lines_are_plain, narrow_extracts_are_plain, rows_begin_a_statement, rows_make_a_statement,
    rows_make_an_extract,
};
pub use layout::Layout;
pub use line::line_of;
pub use names::header_line;
pub use period::Period;
pub use statement::write_statement;
pub use writer::StatementWriter;
