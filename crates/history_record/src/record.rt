use ens_base::Seq;
use register_model::{Answer, History};
use schedule_text::Schedule;

/// A schedule, the answers that its run printed, in order, and the histories, one for each key of a call,
/// the keys ascending.
#[derive(Debug, Drop)]
pub struct Record {
    pub schedule: Schedule,
    pub answers: Seq<Answer>,
    pub histories: Seq<History>,
}
