ghost use Rattle.std.specs.Prelude.{◌≡◌, ◌<◌, ◌++◌, ℕ, List, length, take, All};
ghost use Rattle.environment.specs.Maps.{Entries};
ghost use Rattle.disk_stores.specs.Records.{FitsRecord, entries_of, file_of, record_bytes, with_records};

/// The file that puts wrote into an empty one holds the map that they leave, one after the other. A
/// further record of which only a prefix is there, as after a crash in the middle of a put, changes
/// nothing.
pub fn a_file_holds_what_was_put()
    ensures whole { (puts : Entries) → All FitsRecord puts → entries_of (file_of puts) ≡ with_records Rattle.std.specs.Prelude.[] puts }
    ensures torn { (puts : Entries) (name content : List ℕ) (n : ℕ) → All FitsRecord puts
        → FitsRecord (name, content) → n < length (record_bytes name content)
        → entries_of (file_of puts ++ take n (record_bytes name content))
        ≡ with_records Rattle.std.specs.Prelude.[] puts }
{}
