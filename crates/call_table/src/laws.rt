ghost use Rattle.std.specs.Prelude.{List, Option};
ghost use Rattle.ens_base.specs.declared.entry.Entry.{Entry};
ghost use Rattle.stored_formats.specs.declared.object.Object.{Object};
ghost use Rattle.call_table.specs.Best.{best_of, IsBest};

/// The best of the replies of a round has the greatest of their entries, by version, digest and key.
/// It has an object exactly if a reply with this entry has one, and then an object of such a reply.
/// There is no best reply exactly if no reply has an entry.
pub fn the_best_is_the_greatest()
    ensures { (replies : List (Option Entry × Option Object)) → IsBest replies (best_of replies) }
{}
