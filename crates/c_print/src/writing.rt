// Bytes at the end of a text.

ghost use Rattle.std.specs.Prelude.{◌≡◌, ◌++◌, OnOk};
ghost use Rattle.std.specs.Fmt.{decimal, signed_decimal};

use c_tree::Name;
use std::alloc::{AllocError, Global};

/// These bytes.
pub fn put(out: &mut Vec<u8>, bytes: &[u8]) -> Result<(), AllocError>
    ensures { OnOk result (out.new.items ≡ out.old.items ++ bytes.now) }
{
    out.extend_from_slice(bytes)
}

/// A name.
pub fn put_name(out: &mut Vec<u8>, name: &Name) -> Result<(), AllocError>
    ensures { OnOk result (out.new.items ≡ out.old.items ++ name.now) }
{
    put(out, name.as_slice())
}

/// A number in decimal.
pub fn put_number(out: &mut Vec<u8>, alloc: Global, n: u32) -> Result<(), AllocError>
    ensures { OnOk result (out.new.items ≡ out.old.items ++ decimal n) }
{
    let digits = format!(in alloc; "{n}")?;
    put(out, digits.as_bytes())
}

/// A number in decimal, with the sign `-` where it is negative.
pub fn put_value(out: &mut Vec<u8>, alloc: Global, value: i32) -> Result<(), AllocError>
    ensures { OnOk result (out.new.items ≡ out.old.items ++ signed_decimal value) }
{
    let digits = format!(in alloc; "{value}")?;
    put(out, digits.as_bytes())
}
