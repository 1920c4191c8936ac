ghost use Rattle.std.specs.Prelude.{◌≡◌, None, Some};

use crate::Wanted;

/// Why a value is not what is asked for: in which of its fields, unless it is the value itself, and
/// what is wanted there.
#[derive(Clone, Copy, Debug, PartialEq, Eq)]
pub(crate) struct Misfit<'a> {
    pub(crate) field: Option<&'a str>,
    pub(crate) wanted: Wanted,
}

impl<'a> Misfit<'a> {
    pub(crate) fn of_field(name: &'a str, wanted: Wanted) -> Misfit<'a>
        ensures field { result.field ≡ Some name.entry }
        ensures wanted { result.wanted ≡ wanted }
    {
        Misfit {
            field: Some(name),
            wanted,
        }
    }

    pub(crate) fn of_value(wanted: Wanted) -> Misfit<'a>
        ensures field { result.field ≡ None }
        ensures wanted { result.wanted ≡ wanted }
    {
        Misfit {
            field: None,
            wanted,
        }
    }
}
