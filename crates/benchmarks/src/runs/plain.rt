/// A command of the small set. Stamps are the sequence numbers in epoch 1.1; values are single
/// bytes.
#[derive(Clone, Copy)]
pub enum Ask {
    Get,
    Once(u8),
    Update(u8, u8),
    Over(u8),
    Delete,
}

/// The reply to a call.
#[derive(Clone, Copy, PartialEq, Eq)]
pub enum Said {
    Value(u8, u8),
    NotFound,
    Ok(u8),
    Failed,
}

/// A call, and its printed reply if it has one.
#[derive(Clone, Copy)]
pub struct Step {
    pub ask: Ask,
    pub said: Option<Said>,
}

/// A stamp and a value.
#[derive(Clone, Copy)]
struct Cell {
    stamp: u8,
    value: u8,
}

/// Returns the outcome of a command on a register: the reply, and the register after it. A write
/// takes this stamp.
fn outcome(ask: Ask, held: Option<Cell>, stamp: u8) -> (Said, Option<Cell>) {
    match ask {
        Ask::Get => match held {
            None => (Said::NotFound, held),
            Some(cell) => (Said::Value(cell.stamp, cell.value), held),
        },
        Ask::Once(value) => match held {
            None => (Said::Ok(stamp), Some(Cell { stamp, value })),
            Some(_) => (Said::Failed, held),
        },
        Ask::Update(wanted, value) => match held {
            None => (Said::Failed, held),
            Some(cell) => {
                if cell.stamp == wanted {
                    (Said::Ok(stamp), Some(Cell { stamp, value }))
                } else {
                    (Said::Failed, held)
                }
            }
        },
        Ask::Over(value) => (Said::Ok(stamp), Some(Cell { stamp, value })),
        Ask::Delete => (Said::Ok(stamp), None),
    }
}

fn is_ok(said: Said) -> bool {
    match said {
        Said::Ok(_) => true,
        _ => false,
    }
}

fn may_say(step: Step, said: Said) -> bool {
    match step.said {
        None => true,
        Some(told) => told == said,
    }
}

/// Returns whether the steps are a run in which their writes take these stamps.
fn runs_with(steps: &[Step], stamps: &[u8]) -> bool {
    let mut held = None;
    let mut taken = [false; 8];
    for (step, stamp) in steps.iter().zip(stamps) {
        let (said, next) = outcome(step.ask, held, *stamp);
        if !may_say(*step, said) {
            return false;
        }
        if is_ok(said) {
            let place = usize::from(*stamp % 8);
            if taken[place] {
                return false;
            }
            taken[place] = true;
        }
        held = next;
    }
    true
}

/// Returns whether three steps are a run for some stamps. Replies show 1 and 2; three more are for
/// writes without a printed reply.
pub fn is_run(steps: &[Step]) -> bool {
    for first in 1..6 {
        for second in 1..6 {
            for third in 1..6 {
                if runs_with(steps, &[first, second, third]) {
                    return true;
                }
            }
        }
    }
    false
}
