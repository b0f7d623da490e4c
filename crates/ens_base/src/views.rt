ghost use Rattle.std.specs.Prelude.{◌≡◌, ◌∷◌, [], MatchOption};
ghost use Rattle.ens_base.specs.Views.{first_view, last_view};

use crate::view::View;
use std::marker::Model;

/// The views of an epoch: one, or two while the ensemble changes from the last to the first.
/// Contracts see the list of them.
#[derive(Clone, Copy, Debug, PartialEq, Eq)]
pub struct Views {
    first: View,
    second: Option<View>,
}

impl Model for Views {
    ghost use Rattle.std.specs.Prelude.{ℕ, List};

    ghost Value = { List (List ℕ) };

    ghost use Rattle.ens_base.specs.Views.{views_list, views_from, views_again};

    ghost view = { views_list };

    ghost inverse = { views_from };

    ghost inverse_ok = { views_again };
}

impl Views {
    /// Makes a list of one view.
    pub fn one(view: View) -> Views
        ensures { result ≡ view ∷ [] }
    {
        Views {
            first: view,
            second: None,
        }
    }

    /// Makes a list of two views: the new one, then the old one.
    pub fn two(first: View, last: View) -> Views
        ensures { result ≡ first ∷ last ∷ [] }
    {
        Views {
            first,
            second: Some(last),
        }
    }

    /// Returns the new view, or the only one.
    pub fn first(&self) -> View
        ensures { result ≡ first_view self.now }
    {
        self.first
    }

    /// Returns the old view, or the only one.
    pub fn last(&self) -> View
        ensures { result ≡ last_view self.now }
    {
        self.second.unwrap_or(self.first)
    }

    /// Returns the old view if there are two.
    pub fn second(&self) -> Option<View>
        ensures { MatchOption result (self.now ≡ first_view self.now ∷ []) (λ second. self.now ≡ first_view self.now ∷ second ∷ []) }
    {
        self.second
    }
}
