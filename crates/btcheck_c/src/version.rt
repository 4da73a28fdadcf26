//! The version of the library.

ghost use Rattle.std.specs.Prelude.{◌≡◌};
ghost use Rattle.btcheck_c.specs.Version.{version_number};

const MAJOR: u32 = 1;

const MINOR: u32 = 1;

const PATCH: u32 = 0;

/// The version, one byte for each of its three numbers: 0x010100 is 1.1.0.
#[unsafe(no_mangle)]
pub extern "C" fn btcheck_version() -> u32
    ensures { result ≡ version_number 1 1 0 }
{
    (MAJOR << 16) | (MINOR << 8) | PATCH
}
