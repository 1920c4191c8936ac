ghost use Rattle.std.specs.Prelude.{◌≡◌};
ghost use Rattle.records.specs.Flags.{is_account_linked, limits_debits, limits_credits};
ghost use Rattle.records.specs.Flags.{keeps_history, has_reserved_account_flag};
ghost use Rattle.records.specs.Flags.{are_account_flags_exclusive};
ghost use Rattle.records.specs.Sides.{limits_side};

use crate::Side;

/// The 16 flag bits of an account: 0 linked, 1 debits must not exceed credits, 2 credits must not
/// exceed debits, 3 history. The other bits are reserved.
#[derive(Clone, Copy, Debug, PartialEq, Eq, Default)]
pub struct AccountFlags(pub u16);

impl AccountFlags {
    /// Bit 0: the event stands or falls with the next one of its batch.
    pub fn is_linked(self) -> bool
        ensures { result ≡ is_account_linked self }
    {
        self.0 % 2 == 1
    }

    /// Bit 1: debits_pending and debits_posted together never exceed credits_posted.
    pub fn limits_debits(self) -> bool
        ensures { result ≡ limits_debits self }
    {
        (self.0 >> 1) % 2 == 1
    }

    /// Bit 2: credits_pending and credits_posted together never exceed debits_posted.
    pub fn limits_credits(self) -> bool
        ensures { result ≡ limits_credits self }
    {
        (self.0 >> 2) % 2 == 1
    }

    /// Whether the sums on this side are limited by the posted sum of the other.
    pub fn limits_side(self, side: Side) -> bool
        ensures { result ≡ limits_side side self }
    {
        match side {
            Side::Debit => self.limits_debits(),
            Side::Credit => self.limits_credits(),
        }
    }

    /// Bit 3: the balances after each entry may be asked for.
    pub fn keeps_history(self) -> bool
        ensures { result ≡ keeps_history self }
    {
        (self.0 >> 3) % 2 == 1
    }

    /// Whether one of the bits 4 to 15 is set.
    pub fn has_reserved(self) -> bool
        ensures { result ≡ has_reserved_account_flag self }
    {
        self.0 >= 16
    }

    /// Whether both limits are set, which exclude each other.
    pub fn are_exclusive(self) -> bool
        ensures { result ≡ are_account_flags_exclusive self }
    {
        self.limits_debits() && self.limits_credits()
    }
}
