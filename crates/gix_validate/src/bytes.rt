//! One table, which several loops read, says which bytes may be an error in a name (docs/RULES.md,
//! "Bytes"). Its 256 entries are proved against the rule.

ghost use Rattle.std.specs.Prelude.{◌≡◌};
ghost use Rattle.gix_validate.specs.Private.Adjacent.{may_be_faulty};

/// Whether a byte can be an error, depending on the bytes before it. No other byte is ever one.
#[inline]
#[tactic(auto, using(crate::proofs::TagNames::FaultTable::faulty_tabled))]
pub(crate) fn may_be_faulty(byte: u8) -> bool
    ensures { result ≡ may_be_faulty byte }
{
    MAY_BE_FAULTY[usize::from(byte)]
}

const T: bool = true;

const F: bool = false;

/// The results of `may_be_faulty`, a row for each sixteen bytes.
#[rattlefmt::skip]
const MAY_BE_FAULTY: [bool; 256] = [
    T, T, T, T, T, T, T, T, T, T, T, T, T, T, T, T, // 00
    T, T, T, T, T, T, T, T, T, T, T, T, T, T, T, T, // 10
    T, F, F, F, F, F, F, F, F, F, T, F, F, F, T, T, // 20
    F, F, F, F, F, F, F, F, F, F, T, F, F, F, F, T, // 30
    F, F, F, F, F, F, F, F, F, F, F, F, F, F, F, F, // 40
    F, F, F, F, F, F, F, F, F, F, F, T, T, F, T, F, // 50
    F, F, F, F, F, F, F, F, F, F, F, F, F, F, F, F, // 60
    F, F, F, F, F, F, F, F, F, F, F, T, F, F, T, T, // 70
    F, F, F, F, F, F, F, F, F, F, F, F, F, F, F, F, // 80
    F, F, F, F, F, F, F, F, F, F, F, F, F, F, F, F, // 90
    F, F, F, F, F, F, F, F, F, F, F, F, F, F, F, F, // A0
    F, F, F, F, F, F, F, F, F, F, F, F, F, F, F, F, // B0
    F, F, F, F, F, F, F, F, F, F, F, F, F, F, F, F, // C0
    F, F, F, F, F, F, F, F, F, F, F, F, F, F, F, F, // D0
    F, F, F, F, F, F, F, F, F, F, F, F, F, F, F, F, // E0
    F, F, F, F, F, F, F, F, F, F, F, F, F, F, F, F, // F0
];
