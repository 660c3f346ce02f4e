// The version, which is the program's.
ghost use Rattle.std.specs.Prelude.{◌≡◌};

/// A version of the library, by its three numbers.
#[repr(C)]
pub struct DobutsuVersion {
    pub major: u32,
    pub minor: u32,
    pub patch: u32,
}

/// The version, which is the one that the program prints for `--version`.
#[unsafe(no_mangle)]
pub extern "C" fn dobutsu_version() -> DobutsuVersion
    ensures major { result.major ≡ 0 }
    ensures minor { result.minor ≡ 1 }
    ensures patch { result.patch ≡ 0 }
{
    DobutsuVersion {
        major: 0,
        minor: 1,
        patch: 0,
    }
}
