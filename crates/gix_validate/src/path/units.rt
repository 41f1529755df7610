//! The first unit of a name, by Unicode's table of whole UTF-8 sequences.

ghost use Rattle.std.specs.Prelude.{◌≡◌};
ghost use Rattle.gix_validate.specs.Units.{first_unit_len, fitting_len};

/// The range of the second and later bytes of a whole sequence, except some second bytes.
const TAIL: (u8, u8) = (0x80, 0xBF);

/// How many bytes the first unit has: the whole sequence at the start, or else what begins one, or
/// else one byte.
#[tactic(auto, using(crate::proofs::Components::FirstUnit::by_row), unfolding(crate::specs::Units::whole_sequences))]
pub(super) fn first_unit_len(text: &[u8]) -> usize
    ensures { result ≡ first_unit_len text.now }
{
    match text {
        [0xC2..=0xDF, ..] => fitting_len(&[(0xC2, 0xDF), TAIL], text),
        [0xE0, ..] => fitting_len(&[(0xE0, 0xE0), (0xA0, 0xBF), TAIL], text),
        [0xE1..=0xEC, ..] => fitting_len(&[(0xE1, 0xEC), TAIL, TAIL], text),
        [0xED, ..] => fitting_len(&[(0xED, 0xED), (0x80, 0x9F), TAIL], text),
        [0xEE..=0xEF, ..] => fitting_len(&[(0xEE, 0xEF), TAIL, TAIL], text),
        [0xF0, ..] => fitting_len(&[(0xF0, 0xF0), (0x90, 0xBF), TAIL, TAIL], text),
        [0xF1..=0xF3, ..] => fitting_len(&[(0xF1, 0xF3), TAIL, TAIL, TAIL], text),
        [0xF4, ..] => fitting_len(&[(0xF4, 0xF4), (0x80, 0x8F), TAIL, TAIL], text),
        _ => 1,
    }
}

/// How many bytes at the start fit the row, one for each range.
fn fitting_len(row: &[(u8, u8)], text: &[u8]) -> usize
    ensures { result ≡ fitting_len row.now text.now }
{
    for (offset, range) in row.iter().enumerate() {
        match text.get(offset) {
            Some(byte) if range.0 <= *byte && *byte <= range.1 => {}
            _ => return offset,
        }
    }
    row.len()
}
