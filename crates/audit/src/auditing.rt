ghost use Rattle.std.specs.Prelude.{◌≡◌, IfErr, IfOk};
ghost use Rattle.history_record.specs.declared.error.AuditError.TheVariants.{Memory};
ghost use Rattle.history_record.specs.Records.{IsRecord};
ghost use Rattle.audit.specs.Reports.{IsReport};

use crate::report::Report;
use history_record::{AuditError, Record, calls_of, faults_of};
use register_checker::RunError;
use std::alloc::Global;

/// Returns the report on the histories of a record: for each history that is not legal the first clause
/// that it violates, and the id at which it does. Fails only when out of memory.
pub fn audit(alloc: Global, recorded: &Record) -> Result<Report, AuditError>
    requires { IsRecord recorded.now }
    ensures report { IfOk result (IsReport recorded.now) }
    ensures memory { IfErr result (λ e. e ≡ Memory) }
{
    let calls = calls_of(alloc, recorded.schedule.events.as_slice())?;
    let histories = recorded.histories.as_slice();
    let faults = match faults_of(alloc, &calls, recorded.answers.as_slice(), histories) {
        Ok(faults) => faults,
        Err(RunError::Memory) => return Err(AuditError::Memory),
    };
    let keys = histories.len() as u64;
    let legal = keys - faults.len() as u64;
    Ok(Report {
        keys,
        legal,
        faults,
    })
}
