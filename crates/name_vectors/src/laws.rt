//! Laws that belong to no function of the library. Each is in the contract of a function that does
//! nothing, because a law is proved only if a contract states it.

ghost use Rattle.std.specs.Prelude.{◌≡◌, ℕ, List, IsTrue, length, bytes_eq};
ghost use Rattle.std.specs.List.{list_any};
ghost use Rattle.gix_validate.specs.Hfs.{is_ignored_unit};
ghost use Rattle.name_vectors.specs.IgnoredCharacters.{ignored_sequences, are_distinct};

/// HFS+ ignores sixteen characters, and nothing else (docs/RULES.md, "HFS form").
pub fn ignored_characters()
    ensures sixteen { length ignored_sequences ≡ 16 }
    ensures distinct { IsTrue (are_distinct ignored_sequences) }
    ensures exactly { (x : List ℕ) → is_ignored_unit x ≡ list_any (bytes_eq x) ignored_sequences }
{}
