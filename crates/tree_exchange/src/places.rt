ghost use Rattle.std.specs.Prelude.{◌≡◌, ◌++◌, ◌∷◌, [], OnOk, OnErr, MatchOption};

use std::alloc::{AllocError, Global};
use std::marker::Model;
use tree_node::Position;

/// Positions left to ask, the next one first.
#[derive(Debug, Drop)]
pub(crate) struct Places {
    /// The positions, the next one last.
    stack: Vec<Position>,
}

impl Model for Places {
    ghost use Rattle.std.specs.Prelude.{List, reverse};
    ghost use Rattle.tree_node.specs.declared.position.Position.{Position};

    ghost Value = { List Position };

    ghost view = { λ p. reverse p.stack.items };
}

impl Places {
    /// Makes an empty list.
    pub(crate) fn new(alloc: Global) -> Places
        ensures { result ≡ [] }
    {
        Places {
            stack: Vec::new(alloc),
        }
    }

    /// Puts the positions before all others, in their order. When out of memory, leaves the list
    /// unchanged.
    #[tactic(auto, using(crate::proofs::Stacks::put_reversed))]
    pub(crate) fn put_first(&mut self, mut positions: Vec<Position>) -> Result<(), AllocError>
        ensures ok { OnOk result (self.new ≡ positions.items ++ self.old) }
        ensures err { OnErr result (self.new ≡ self.old) }
    {
        positions.reverse();
        self.stack.extend_from_slice(positions.as_slice())?;
        Ok(())
    }

    /// Takes the first position, if there is one.
    pub(crate) fn next(&mut self) -> Option<Position>
        ensures { MatchOption result ((self.old ≡ []) × (self.new ≡ [])) (λ p. self.old ≡ p ∷ self.new) }
    {
        self.stack.pop()
    }
}
