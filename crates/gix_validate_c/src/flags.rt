//! The flags of a call (docs/RULES.md, "Calls for C").

ghost use Rattle.std.specs.Prelude.{◌≡◌};
ghost use Rattle.gix_validate_c.specs.Flags.{options_of};

use gix_validate::path::ComponentOptions;

/// The switches that the flags turn on.
pub(crate) fn options_of(flags: u32) -> ComponentOptions
    ensures { result ≡ options_of flags }
{
    ComponentOptions {
        protect_windows: flags & 1 != 0,
        protect_hfs: flags & 2 != 0,
        protect_ntfs: flags & 4 != 0,
    }
}
