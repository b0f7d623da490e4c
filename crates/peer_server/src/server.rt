use crate::disks::DiskPeer;
use fact_store::FactFile;
use slot_disk::Disk;
use step_plans::Outbox;

/// A peer that serves. What its steps put out waits here until its fact is committed to its disk.
#[derive(Drop)]
pub(crate) struct Server<D: Disk> {
    pub(crate) peer: DiskPeer<D>,
    pub(crate) facts: FactFile<D>,
    /// What each step put out since the last commit, the oldest first.
    pub(crate) unsent: Vec<Outbox>,
}
