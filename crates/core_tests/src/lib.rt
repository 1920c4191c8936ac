//! Tests of `amount`, `tenants`, `records`, `engine`, `plain`, `rows`, `running`, `audit` and
//! `seals`.
#![tactic(auto)]

#[cfg(test)]
mod tests;
