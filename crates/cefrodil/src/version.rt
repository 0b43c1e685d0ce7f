//! The version of the archive.
ghost use Rattle.std.specs.Prelude.{◌≡◌};

/// 10,000 times the major version, 100 times the minor one, and the patch.
pub const VERSION: u32 = 300;

/// The version of the archive, which its header names `CEFRODIL_VERSION`.
#[unsafe(no_mangle)]
pub extern "C" fn cefrodil_version() -> u32
    ensures { result ≡ VERSION }
{
    VERSION
}
