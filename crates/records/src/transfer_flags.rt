ghost use Rattle.std.specs.Prelude.{◌≡◌};
ghost use Rattle.records.specs.Flags.{is_transfer_linked, is_pending, is_post, is_void};
ghost use Rattle.records.specs.Flags.{is_balancing_debit, is_balancing_credit, is_balancing};
ghost use Rattle.records.specs.Flags.{is_post_or_void, has_reserved_transfer_flag};
ghost use Rattle.records.specs.Flags.{are_transfer_flags_exclusive};
ghost use Rattle.records.specs.Sides.{is_balancing_on};
ghost use Rattle.records.specs.Reads.{kind_of};

use crate::{Kind, Side};

/// The 16 flag bits of a transfer: 0 linked, 1 pending, 2 post a pending transfer, 3 void a pending
/// transfer, 4 balancing debit, 5 balancing credit. The other bits are reserved. A transfer with
/// none of the bits 1 to 3 is single-phase.
#[derive(Clone, Copy, Debug, PartialEq, Eq, Default)]
pub struct TransferFlags(pub u16);

impl TransferFlags {
    /// Bit 0: the event stands or falls with the next one of its batch.
    pub fn is_linked(self) -> bool
        ensures { result ≡ is_transfer_linked self }
    {
        self.0 % 2 == 1
    }

    /// Bit 1: the amount is set aside until a post or void ends the transfer, or it expires.
    pub fn is_pending(self) -> bool
        ensures { result ≡ is_pending self }
    {
        (self.0 >> 1) % 2 == 1
    }

    /// Bit 2: the event posts a pending transfer.
    pub fn is_post(self) -> bool
        ensures { result ≡ is_post self }
    {
        (self.0 >> 2) % 2 == 1
    }

    /// Bit 3: the event voids a pending transfer.
    pub fn is_void(self) -> bool
        ensures { result ≡ is_void self }
    {
        (self.0 >> 3) % 2 == 1
    }

    /// Bit 4: the amount is lowered to what the debit account may still be debited.
    pub fn is_balancing_debit(self) -> bool
        ensures { result ≡ is_balancing_debit self }
    {
        (self.0 >> 4) % 2 == 1
    }

    /// Bit 5: the amount is lowered to what the credit account may still be credited.
    pub fn is_balancing_credit(self) -> bool
        ensures { result ≡ is_balancing_credit self }
    {
        (self.0 >> 5) % 2 == 1
    }

    /// What kind of transfer it is that has them.
    pub fn kind(self) -> Kind
        ensures { result ≡ kind_of self }
    {
        if self.is_post() {
            Kind::Post
        } else if self.is_void() {
            Kind::Void
        } else if self.is_pending() {
            Kind::Pending
        } else {
            Kind::Single
        }
    }

    /// Whether the event posts or voids a pending transfer.
    pub fn is_post_or_void(self) -> bool
        ensures { result ≡ is_post_or_void self }
    {
        self.is_post() || self.is_void()
    }

    /// Whether the amount is lowered to the room on this side.
    pub fn is_balancing_on(self, side: Side) -> bool
        ensures { result ≡ is_balancing_on side self }
    {
        match side {
            Side::Debit => self.is_balancing_debit(),
            Side::Credit => self.is_balancing_credit(),
        }
    }

    /// Whether one of the balancing bits is set.
    pub fn is_balancing(self) -> bool
        ensures { result ≡ is_balancing self }
    {
        self.is_balancing_debit() || self.is_balancing_credit()
    }

    /// Whether one of the bits 6 to 15 is set.
    pub fn has_reserved(self) -> bool
        ensures { result ≡ has_reserved_transfer_flag self }
    {
        self.0 >= 64
    }

    /// Whether bits are set that exclude each other: two of pending, post and void, or a post or
    /// void with a balancing bit.
    pub fn are_exclusive(self) -> bool
        ensures { result ≡ are_transfer_flags_exclusive self }
    {
        (self.is_pending() && self.is_post_or_void())
            || (self.is_post() && self.is_void())
            || (self.is_post_or_void() && self.is_balancing())
    }
}
