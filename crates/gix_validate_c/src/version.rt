//! The version of the library.

ghost use Rattle.std.specs.Prelude.{◌≡◌};
ghost use Rattle.gix_validate_c.specs.Numbers.{version_number};

/// Returns the version as one number, which is larger for each later version: a million for each
/// major version, a thousand for each minor one, and one for each patch (docs/RULES.md, "Calls for
/// C"). 2.1.0 is 2,001,000.
#[unsafe(no_mangle)]
pub extern "C" fn gix_validate_version() -> u32
    ensures { result ≡ version_number 3 0 0 }
{
    let (major, minor, patch): (u32, u32, u32) = (3, 0, 0);
    major * 1_000_000 + minor * 1_000 + patch
}
