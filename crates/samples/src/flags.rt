//! The flag bits, as numbers to be added.

/// Of an account or a transfer: it stands or falls with the next event.
pub const LINKED: u16 = 1;

pub const PENDING: u16 = 2;

pub const POST: u16 = 4;

pub const VOID: u16 = 8;

pub const BALANCING_DEBIT: u16 = 16;

pub const BALANCING_CREDIT: u16 = 32;

/// Of an account: its debits never exceed its posted credits.
pub const LIMITS_DEBITS: u16 = 2;

/// Of an account: its credits never exceed its posted debits.
pub const LIMITS_CREDITS: u16 = 4;

/// Of an account: its balances after each entry may be asked for.
pub const KEEPS_HISTORY: u16 = 8;
