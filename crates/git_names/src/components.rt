//! The names of directory entries: of any entry, and of a symbolic link.

ghost use Rattle.std.specs.Prelude.{◌≡◌, ◌↔◌, IsOk, IfOk, IsTrue, None, Some};
ghost use Rattle.bstr.specs.BStr.{bstr_bytes};
ghost use Rattle.gix_validate.specs.Component.{fault_of, is_component};
ghost use Rattle.gix_validate.specs.Faults.{Validates};
ghost use Rattle.gix_validate.specs.declared.path.ComponentMode.TheVariants.{Symlink};

use bstr::BStr;
use gix_validate::path::{self, ComponentError, ComponentMode, ComponentOptions};

/// Returns `name` if it is a valid path component, such as `main.rs` (docs/RULES.md, "Path
/// components").
///
/// This is `gix_validate::path::component` without a mode. The function doesn't allocate. On `Ok`
/// it returns the value that it was passed.
///
/// ```
/// component(BStr::from("src"), ComponentOptions::default())?; // `src`
/// component(BStr::from(".GIT ."), ComponentOptions::default()); // DotGitDir
/// ```
///
/// # Errors
///
/// The error of the first condition in docs/RULES.md that refuses the name.
#[inline(always)]
pub fn component<'a>(name: BStr<'a>, options: ComponentOptions) -> Result<BStr<'a>, ComponentError>
    ensures answer { Validates (fault_of options None) (bstr_bytes name.entry) result }
    ensures grammar { IsOk result ↔ IsTrue (is_component options None (bstr_bytes name.entry)) }
    ensures same { IfOk result (λ kept. kept ≡ name.entry) }
{
    path::component(name, None, options)
}

/// Returns `name` if it is a valid path component of a symbolic link (docs/RULES.md, "Path
/// components").
///
/// This is `gix_validate::path::component` with the mode of a symbolic link. The function doesn't
/// allocate. On `Ok` it returns the value that it was passed.
///
/// ```
/// symlink(BStr::from("latest"), ComponentOptions::default())?; // `latest`
/// symlink(BStr::from(".gitmodules"), ComponentOptions::default()); // SymlinkedGitModules
/// ```
///
/// # Errors
///
/// The error of the first condition in docs/RULES.md that refuses the name.
#[inline(always)]
pub fn symlink<'a>(name: BStr<'a>, options: ComponentOptions) -> Result<BStr<'a>, ComponentError>
    ensures answer { Validates (fault_of options (Some Symlink)) (bstr_bytes name.entry) result }
    ensures grammar { IsOk result ↔ IsTrue (is_component options (Some Symlink) (bstr_bytes name.entry)) }
    ensures same { IfOk result (λ kept. kept ≡ name.entry) }
{
    path::component(name, Some(ComponentMode::Symlink), options)
}
