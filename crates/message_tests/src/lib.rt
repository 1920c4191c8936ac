//! Tests of `ledger_http`, `wire`, `statement`, `command_line` and `command_texts`: what comes in
//! and what goes out, as it is sent, written and told.
#![tactic(auto)]

#[cfg(test)]
mod tests;
