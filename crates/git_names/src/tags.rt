//! Tags as people write them: `v1.2.3` for `refs/tags/v1.2.3`.

ghost use Rattle.std.specs.Prelude.{◌≡◌, ◌↔◌, IsOk, IfOk, IsTrue};
ghost use Rattle.bstr.specs.BStr.{bstr_bytes};
ghost use Rattle.gix_validate.specs.Faults.{Validates};
ghost use Rattle.git_names.specs.ShortNames.{fault_of, is_short_name, is_short_tag};

use crate::branches::{ShortNameError, branch};
use bstr::BStr;

/// Returns `name` if it is the short name of a tag, such as `v1.2.3`: it isn't `HEAD`, it doesn't
/// start with a dash, and `refs/tags/` followed by it is a valid full name (docs/RULES.md, "Short
/// names").
///
/// These are the names that [`branch`] accepts. Git refuses to make a tag with a leading dash, and
/// since 2.48 one named `HEAD`. The function doesn't allocate. On `Ok` it returns the value that it
/// was passed.
///
/// ```
/// tag(BStr::from("v1.2.3"))?; // `v1.2.3`
/// tag(BStr::from("HEAD")); // Reserved, with the name `HEAD`
/// tag(BStr::from("-d")); // StartsWithDash
/// ```
///
/// # Errors
///
/// The error of [`branch`].
#[inline(always)]
#[tactic(auto, using(crate::proofs::ShortNameLemmas::tag_is_branch))]
pub fn tag<'a>(name: BStr<'a>) -> Result<BStr<'a>, ShortNameError>
    ensures answer { Validates fault_of (bstr_bytes name.entry) result }
    ensures grammar { IsOk result ↔ IsTrue (is_short_tag (bstr_bytes name.entry)) }
    ensures same { IfOk result (λ kept. kept ≡ name.entry) }
    // A tag and a branch may have the same short names.
    ensures branch { IsTrue (is_short_tag (bstr_bytes name.entry))
        ↔ IsTrue (is_short_name (bstr_bytes name.entry)) }
{
    branch(name)
}
