//! The version of the library, which is that of the file `VERSION`.
ghost use Rattle.std.specs.Prelude.{◌≡◌};

/// The major number times 10,000, the minor number times 100, and the last number.
const VERSION: u32 = 400;

/// The version of the library.
#[unsafe(no_mangle)]
pub extern "C" fn wethlorn_version() -> u32
    ensures { result ≡ 400 }
{
    VERSION
}
