use crate::misfit::Misfit;
use crate::{FieldName, Wanted};
use std::alloc::{AllocError, Global};

/// Why the service refuses a body, and where.
#[derive(Debug, Drop)]
pub struct BodyFault {
    /// Which of a list's events or ids is refused, counted from 1, if it is one of them.
    pub event: Option<usize>,
    /// Which of its fields, or of an object's, if it is one.
    pub field: Option<FieldName>,
    pub wanted: Wanted,
}

impl BodyFault {
    ghost use Rattle.std.specs.Prelude.{◌≡◌, IfOk};
    ghost use Rattle.wire.specs.Faults.{fault_for, of_body};
    ghost use Rattle.wire.specs.Misfits.{told_by};

    // A body as a whole is refused.
    pub(crate) fn of_body(wanted: Wanted) -> BodyFault
        ensures { result ≡ of_body wanted }
    {
        BodyFault {
            event: None,
            field: None,
            wanted,
        }
    }

    // An object is, or an item of a list.
    pub(crate) fn of(
        alloc: Global,
        event: Option<usize>,
        misfit: Misfit<'_>,
    ) -> Result<BodyFault, AllocError>
        ensures { IfOk result (λ fault. fault ≡ fault_for event (told_by misfit.entry)) }
    {
        let field = match misfit.field {
            Some(name) => Some(FieldName::from(String::from_str(alloc, name)?)),
            None => None,
        };
        Ok(BodyFault {
            event,
            field,
            wanted: misfit.wanted,
        })
    }
}
