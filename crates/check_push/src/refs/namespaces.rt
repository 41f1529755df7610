//! The names that a reference has inside Git's namespaces.

ghost use Rattle.std.specs.Prelude.{◌≡◌, Some};
ghost use Rattle.std.specs.Option.{option_map};
ghost use Rattle.check_push.specs.Refs.Namespaces.{inner_of};
ghost use Rattle.check_push.specs.Refs.Private.{innermost};

use programs::text::split_once;

/// The name of a reference in its innermost namespace, which is the name itself if that is in no
/// namespace (check_push(1)).
///
/// ```
/// innermost(b"refs/namespaces/a/refs/namespaces/b/refs/heads/c"); // `refs/heads/c`
/// ```
///
/// It does not allocate.
#[tactic(auto, using(crate::proofs::refs::FirstRefusals::inner_names))]
pub(crate) fn innermost(name: &[u8]) -> &[u8]
    ensures { Some result.now ≡ innermost name.now }
{
    let mut innermost = name;
    while let Some(inner) = inner_of(innermost) {
        innermost = inner;
    }
    innermost
}

/// The name of `refs/namespaces/NS/INNER` in the namespace NS: INNER, if that begins with `refs/`.
fn inner_of(name: &[u8]) -> Option<&[u8]>
    ensures { option_map (λ inner. inner.now) result ≡ inner_of name.now }
{
    let (_, inner) = split_once(b'/', name.strip_prefix(b"refs/namespaces/")?)?;
    inner.starts_with(b"refs/").then_some(inner)
}
