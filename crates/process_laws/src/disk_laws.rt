ghost use Rattle.process_laws.specs.Memory.{RunAsMaps};

use slot_disk::Disk;

/// A plan, or a start, that came to its end over stores on disks comes to the same end over the stores
/// in memory that they stand for, with the same notes; and afterwards the ones stand for the others.
pub fn disks_run_as_maps<D: Disk>()
    ensures { RunAsMaps D.seen D.fault_count }
{}
