ghost use Rattle.fields.specs.Grammar.{IsGrammar};
ghost use Rattle.ens_base.specs.Limits.{IsEpoch, IsVersion, IsKey, IsValue};
ghost use Rattle.fields.specs.Versions.{epoch_spelling, epoch_at, version_spelling, version_at};
ghost use Rattle.ens_base.specs.View.{IsView};
ghost use Rattle.fields.specs.Strings.{key_spelling, key_at, value_spelling, value_at};
ghost use Rattle.fields.specs.Views.{view_spelling, view_at, AreViews, views_spelling, views_at};
ghost use Rattle.fields.specs.Entries.{IsEntry, entry_spelling, entry_at};

/// Proves that spelling and reading are inverse: what is read at a place is spelled there, and what is
/// spelled at a place is read there, whatever follows it. So each value has one spelling, and no
/// spelling begins another.
pub fn fields_have_grammars()
    ensures epoch { IsGrammar IsEpoch epoch_spelling epoch_at }
    ensures version { IsGrammar IsVersion version_spelling version_at }
    ensures key { IsGrammar IsKey key_spelling key_at }
    ensures value { IsGrammar IsValue value_spelling value_at }
    ensures view { IsGrammar IsView view_spelling view_at }
    ensures views { IsGrammar AreViews views_spelling views_at }
    ensures entry { IsGrammar IsEntry entry_spelling entry_at }
{}
