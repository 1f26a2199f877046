//! Laws of records and their texts.
ghost use Rattle.std.specs.Prelude.{◌≡◌, ◌++◌, ℕ, List};
ghost use Rattle.tree_records.specs.Records.{Record, IsRecord, encoded};

/// No record's text begins another's: where texts of records begin alike, the records are one. So each record has one text,
/// and each text is one record's.
pub fn no_encoding_begins_another()
    ensures { (r s : Record) (a b : List ℕ) → IsRecord r → IsRecord s → encoded r ++ a ≡ encoded s ++ b → (r ≡ s) × (a ≡ b) }
{}
