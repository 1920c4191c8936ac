//! What the type of a number says of it. The functions do nothing: their clauses carry the bound of
//! a field to where it is needed.

ghost use Rattle.std.specs.Prelude.{◌^◌, ◌<◌};

pub(crate) fn fits_u128(number: u128)
    ensures { number < 2 ^ 128 }
{
    let _ = number;
}

pub(crate) fn fits_u64(number: u64)
    ensures { number < 2 ^ 64 }
{
    let _ = number;
}

pub(crate) fn fits_u32(number: u32)
    ensures { number < 2 ^ 32 }
{
    let _ = number;
}

pub(crate) fn fits_u16(number: u16)
    ensures { number < 2 ^ 16 }
{
    let _ = number;
}
