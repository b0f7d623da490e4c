ghost use Rattle.std.specs.Prelude.{◌≡◌, ◌⊎◌, ℕ, List, Option, None};
ghost use Rattle.ens_base.specs.declared.entry.Entry.{Entry};
ghost use Rattle.ens_base.specs.declared.epoch.Version.{Version};
ghost use Rattle.tree_node.specs.declared.body.Scan.{Scan};
ghost use Rattle.tree_node.specs.declared.version.TreeVersion.{TreeVersion};
ghost use Rattle.tree_node.specs.Positions.{IsPosition};
ghost use Rattle.synctree.specs.Entries.{IsMap};
ghost use Rattle.tree_exchange.specs.Asked.{Asked};
ghost use Rattle.tree_exchange.specs.declared.question.Question.{Question};
ghost use Rattle.tree_exchange.specs.Asks.{taken};
ghost use Rattle.tree_exchange.specs.Covers.{Has, Covers, give_of, IsOwn, AreApart};

/// An ask that takes what a peer with some map sends keeps covered each version that the map has, in the
/// tree of each version.
pub fn taking_keeps_covered()
    ensures { (tree : TreeVersion) (scan : Scan) (own : Option (List ℕ)) (q : Question) (ask : Asked)
        (m n : List Entry) (key : List ℕ) (v : Version) → IsPosition tree q.position → IsMap m → Has m key v
        → IsOwn tree own scan q.position n → AreApart tree m n
        → Covers tree ask scan.entries key v → Covers tree (taken tree scan own q (give_of tree m q) ask).1 scan.entries key v }
{}

/// When an ask is done, the entries received and the own ones together have each version that it
/// covers.
pub fn a_done_ask_has_what_it_covers()
    ensures { (tree : TreeVersion) (ask : Asked) (own : List Entry) (key : List ℕ) (v : Version) → ask.current ≡ None → Covers tree ask own key v → Has ask.received key v ⊎ Has own key v }
{}
