use crate::event::RootEvent;
use ens_base::{Seq, View};

/// A root script: the number of peers of each ensemble, from 1 to 31, the view with which the root opens,
/// and the events in order.
#[derive(Debug, Drop)]
pub struct RootScript {
    pub peers: u32,
    pub view: View,
    pub events: Seq<RootEvent>,
}
