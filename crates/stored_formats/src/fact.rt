ghost use Rattle.std.specs.Prelude.{◌≡◌, ◌↔◌, IsTrue};
ghost use Rattle.stored_formats.specs.Facts.{without_old as without};

use ens_base::{Epoch, PeerId, View, Views};

/// How the views change when the epoch ends.
#[derive(Clone, Copy, Debug, PartialEq, Eq)]
pub enum Change {
    /// Nothing.
    None,
    /// This view is added in front of the first one.
    Add(View),
    /// The old one of two views is dropped.
    Drop,
}

/// What a peer saves of the ensemble: the greatest ballot that it promised, and the number, leader, views
/// and change of the newest epoch that it accepted. `seq` is 1 in an epoch, and 2 from the change on. In
/// the opening fact all numbers are 0.
#[derive(Clone, Copy, Debug, PartialEq, Eq)]
pub struct Fact {
    pub ballot: Epoch,
    pub epoch: Epoch,
    pub seq: u64,
    pub leader: PeerId,
    pub views: Views,
    pub change: Change,
}

impl Fact {
    ghost use Rattle.stored_formats.specs.Facts.{IsNewer, opening_fact, views_after};

    /// The fact of an ensemble of this view in which nothing has happened.
    pub fn opening(view: View) -> Fact
        ensures { result ≡ opening_fact view }
    {
        let epoch = Epoch {
            count: 0,
            proposer: 0,
        };
        Fact {
            ballot: epoch,
            epoch,
            seq: 0,
            leader: PeerId(0),
            views: Views::one(view),
            change: Change::None,
        }
    }

    /// The views of the epoch that follows this fact's.
    pub fn next_views(&self) -> Views
        ensures { result ≡ views_after self.now }
    {
        match self.change {
            Change::None => self.views,
            Change::Add(view) => Views::two(view, self.views.first()),
            Change::Drop => without_old(&self.views),
        }
    }

    /// Whether this fact is newer than `other`: by the epoch, then by the number in it.
    pub fn newer_than(&self, other: &Fact) -> bool
        ensures { IsTrue result ↔ IsNewer self.now other.now }
    {
        self.epoch > other.epoch || (self.epoch == other.epoch && self.seq > other.seq)
    }
}

/// The new view alone, where there are two.
fn without_old(views: &Views) -> Views
    ensures { result ≡ without views.now }
{
    match views.second() {
        None => *views,
        Some(_old) => Views::one(views.first()),
    }
}
