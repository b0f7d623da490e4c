use crate::event::ScheduleEvent;
use crate::form::Form;
use ens_base::{Seq, View};

/// A schedule: the form of the ensemble, the number of peers, from 1 to 31, the view of the ensemble at the
/// start, and the events in order.
#[derive(Debug, Drop)]
pub struct Schedule {
    pub form: Form,
    pub peers: u32,
    pub view: View,
    pub events: Seq<ScheduleEvent>,
}
