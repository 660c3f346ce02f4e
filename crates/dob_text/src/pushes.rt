// Writing ASCII bytes at the end of a text.
ghost use Rattle.std.specs.Prelude.{◌≡◌, ◌<◌, ◌++◌, ◌∷◌, [], OnOk, replicate};
ghost use Rattle.std.specs.String.{string_bytes};

use std::alloc::AllocError;

/// Writes an ASCII byte at the end.
pub(crate) fn push_byte(text: &mut String, byte: u8) -> Result<(), AllocError>
    requires { byte < 128 }
    ensures { OnOk result (string_bytes text.new ≡ string_bytes text.old ++ byte ∷ []) }
{
    text.push(byte as char)
}

/// Writes an ASCII byte that many times at the end.
pub(crate) fn push_times(text: &mut String, byte: u8, count: u8) -> Result<(), AllocError>
    requires { byte < 128 }
    ensures { OnOk result (string_bytes text.new ≡ string_bytes text.old ++ replicate count byte) }
{
    for _i in 0..count {
        push_byte(text, byte)?;
    }
    Ok(())
}
