ghost use Rattle.fields.specs.FirstFaults.{NamesFirst};
ghost use Rattle.stored_formats.specs.Objects.{IsObject, object_spelling, object_at};

/// Proves that the fault of an object is the first one, at the first part that is cut short or breaks its
/// rule: bytes that are cut before the end of that part end too early, bytes that agree to its end have
/// the same fault, and no object is spelled so.
pub fn objects_fault_first()
    ensures { NamesFirst IsObject object_spelling object_at }
{}
