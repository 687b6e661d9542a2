//! The version of the library.
ghost use Rattle.std.specs.Prelude.{◌≡◌};

/// The version of this library, 1.16.0: 65,536 for each major version, 256 for each minor version, and 1 for each
/// patch.
#[unsafe(no_mangle)]
pub extern "C" fn oca_version() -> u32
    ensures { result ≡ 69632 }
{
    0x0001_1000
}
