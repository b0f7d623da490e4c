ghost use Rattle.ens_base.specs.Limits.{IsEpoch, IsVersion, IsKey, IsValue};
ghost use Rattle.ens_base.specs.View.{IsView};
ghost use Rattle.fields.specs.FirstFaults.{FaultsFirst};
ghost use Rattle.fields.specs.Versions.{epoch_spelling, epoch_at, version_spelling, version_at};
ghost use Rattle.fields.specs.Strings.{key_spelling, key_at, value_spelling, value_at};
ghost use Rattle.fields.specs.Views.{view_spelling, view_at, AreViews, views_spelling, views_at};
ghost use Rattle.fields.specs.Entries.{IsEntry, entry_spelling, entry_at};

/// Proves that the fault of a field is the first one, at the first part that is cut short or breaks its
/// rule: bytes that are cut before the end of that part end too early, bytes that agree to its end have
/// the same fault, and no valid value is spelled so.
pub fn fields_fault_first()
    ensures epoch { FaultsFirst IsEpoch epoch_spelling epoch_at }
    ensures version { FaultsFirst IsVersion version_spelling version_at }
    ensures key { FaultsFirst IsKey key_spelling key_at }
    ensures value { FaultsFirst IsValue value_spelling value_at }
    ensures view { FaultsFirst IsView view_spelling view_at }
    ensures views { FaultsFirst AreViews views_spelling views_at }
    ensures entry { FaultsFirst IsEntry entry_spelling entry_at }
{}
