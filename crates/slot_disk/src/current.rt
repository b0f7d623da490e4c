use crate::slot::Slot;

/// The slot that holds the record, and its serial number.
#[derive(Clone, Copy, Debug, PartialEq, Eq)]
pub(crate) struct Current {
    pub slot: Slot,
    pub serial: u64,
}
