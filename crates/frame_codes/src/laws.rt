ghost use Rattle.std.specs.Prelude.{◌≡◌, ◌↔◌, ◌++◌, ℕ, List, Some, IsOk, length};
ghost use Rattle.std.specs.Str.Lines.{lines};
ghost use Rattle.frame_codes.specs.KeyFiles.{key_file, AreKeys};
ghost use Rattle.frame_codes.specs.Seals.{Keys, name_of, sealed, sent_as, opened, IsSealed};
ghost use Rattle.frame_codes.specs.declared.coverage.Ensemble.{Ensemble};

/// What a code is made of tells the ensemble and the frame apart: no two ensembles, each with an id of 16
/// bytes, and no two frames have it in common.
pub fn a_code_names_its_ensemble()
    ensures { (one other : Ensemble) → (frame last : List ℕ) → length one.id ≡ 16 → length other.id ≡ 16 → name_of one ++ frame ≡ name_of other ++ last → (one ≡ other) × (frame ≡ last) }
{}

/// Bytes open to a frame exactly if they are that frame, sealed under a key of the file; what is sent
/// opens to what was sent.
pub fn what_is_sealed_opens()
    ensures exact { (k : Keys) → (frame bytes : List ℕ) → (opened k bytes ≡ Some frame) ↔ IsSealed k frame bytes }
    ensures sent { (k : Keys) → (frame : List ℕ) → opened k (sent_as k frame) ≡ Some frame }
{}

/// A text is a key file exactly if it has one line or two, each of 64 hexadecimal digits.
pub fn key_files_have_one_key_or_two()
    ensures { (text : List ℕ) → IsOk (key_file text) ↔ AreKeys (lines text) }
{}
