ghost use Rattle.std.specs.Prelude.{◌≡◌, IfErr, IfOk, map};
ghost use Rattle.serde_json.specs.View.{view};
ghost use Rattle.audit.specs.Text.{fault_data, report_data, report_line};
ghost use Rattle.history_record.specs.declared.error.AuditError.TheVariants.{Memory};

use crate::report::Report;
use history_record::{AuditError, Fault};
use serde_json::{Value, json};
use std::alloc::{AllocError, Global};

/// Returns a fault as an object.
fn fault_value(alloc: Global, fault: &Fault) -> Result<Value, AllocError>
    ensures { IfOk result (λ v. view v ≡ fault_data fault.now) }
{
    let key = hex::encode(alloc, fault.key.bytes())?;
    json!(in alloc; { "clause": fault.clause, "id": fault.id, "key": key.as_str() })
}

/// Returns the faults as objects.
fn fault_values(alloc: Global, faults: &[Fault]) -> Result<Vec<Value>, AllocError>
    ensures { IfOk result (λ v. map view v.items ≡ map fault_data faults.now) }
{
    let mut values = Vec::new(alloc);
    for fault in faults {
        values.push(fault_value(alloc, fault)?)?;
    }
    Ok(values)
}

/// Returns the report as an object.
fn report_value(alloc: Global, report: &Report) -> Result<Value, AllocError>
    ensures { IfOk result (λ v. view v ≡ report_data report.now) }
{
    let faults = Value::Array(fault_values(alloc, report.faults.as_slice())?);
    json!(in alloc; { "faults": faults, "keys": report.keys, "legal": report.legal })
}

/// Returns the report as one line of compact JSON: an object with `faults`, `keys` and `legal`, where
/// `faults` is a list of objects with `clause`, `id` and `key`, the key in hexadecimal digits. Fails only
/// when out of memory.
pub fn report_text(alloc: Global, report: &Report) -> Result<Vec<u8>, AuditError>
    ensures text { IfOk result (λ v. v.items ≡ report_line report.now) }
    ensures memory { IfErr result (λ e. e ≡ Memory) }
{
    let value = report_value(alloc, report)?;
    let mut text = value.to_string(alloc)?;
    text.push_str("\n")?;
    Ok(text.into_bytes())
}
