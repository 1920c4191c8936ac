//! Bodies answered over plain lists, and the worked examples of the model with what they leave.

mod bodies;
mod chains;
mod failed_ids;
mod ledger;
mod memory;
mod played;
mod transfers;
