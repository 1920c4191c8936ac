ghost use Rattle.std.specs.Prelude.{◌≡◌};
ghost use Rattle.audit.specs.Damage.{kind_number, damage_cmp};
ghost use Rattle.audit.specs.declared.damage.AuditFault.TheVariants.{Memory};

use std::alloc::AllocError;
use std::cmp::Ordering;
use std::error::Error;
use std::fmt;

/// What is wrong with a row, in the order in which it is told.
#[derive(Clone, Copy, Debug, PartialEq, Eq)]
pub enum DamageKind {
    /// No clock row, a negative number, or a value beyond its width.
    Shape,
    /// A timestamp that is 0 or another entry's.
    Timestamp,
    /// An entry that the machine would not have accepted there.
    Entry,
    /// A balance row that is not what the entries make of it, or one too many or too few.
    Balance,
    /// The state or due time of a pending transfer, likewise.
    Status,
    /// A row of an account's history, likewise.
    History,
    /// A clock that is behind an entry, or beyond the latest.
    Clock,
    /// A failed id that no transfer may have, or that an accepted one has.
    FailedId,
}

impl DamageKind {
    /// The number of the kind, from 1, as it is told.
    pub fn number(self) -> u8
        ensures { result ≡ kind_number self }
    {
        match self {
            DamageKind::Shape => 1,
            DamageKind::Timestamp => 2,
            DamageKind::Entry => 3,
            DamageKind::Balance => 4,
            DamageKind::Status => 5,
            DamageKind::History => 6,
            DamageKind::Clock => 7,
            DamageKind::FailedId => 8,
        }
    }
}

/// Where a file is damaged: the first place in the order of kind, digest and place.
#[derive(Clone, Copy, Debug, PartialEq, Eq)]
pub struct Damage {
    pub kind: DamageKind,
    /// The digest of the tenant's key.
    pub digest: [u8; 32],
    /// The number of the row among the tenant's rows of its table, from 0, in order of key.
    pub place: usize,
}

impl Damage {
    // How two of them are ordered.
    pub(crate) fn order(&self, other: &Damage) -> Ordering
        ensures { result ≡ damage_cmp self.now other.now }
    {
        let place = self.place.cmp(&other.place);
        let digest = self.digest.cmp(&other.digest);
        let kind = self.kind.number().cmp(&other.kind.number());
        kind.then(digest.then(place))
    }
}

/// Why rows did not pass.
#[derive(Clone, Copy, Debug, PartialEq, Eq)]
pub enum AuditFault {
    Damaged(Damage),
    /// Memory ran out.
    Memory,
}

impl fmt::Display for AuditFault {
    fn fmt<W: fmt::Write>(&self, f: &mut fmt::Formatter<W>) -> fmt::Result {
        match self {
            AuditFault::Damaged(_) => write!(f, "damaged"),
            AuditFault::Memory => write!(f, "out of memory"),
        }
    }
}

impl Error for AuditFault {}

impl From<AllocError> for AuditFault {
    ghost from_gives = { λ _ e. e ≡ Memory };

    fn from(_e: AllocError) -> AuditFault {
        AuditFault::Memory
    }
}
