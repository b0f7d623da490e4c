ghost use Rattle.std.specs.Prelude.{◌≡◌, ◌≢◌, List, ℕ, IfOk, string_bytes};
ghost use Rattle.std.specs.Io.KnownBytes.{Appends};
ghost use Rattle.ens_base.specs.Causes.{Rose};
ghost use Rattle.ens_base.specs.declared.status.Status.{Status};
ghost use Rattle.environment.specs.Written.{AppendsPrefix};
ghost use Rattle.backup_job.specs.Printed.{EndsAs, Reports, Stops, Unread, backup_text, content_text};

use crate::checking::ReadError;
use crate::input::InputError;
use ens_base::Status;
use environment::{Sink, finish};
use std::alloc::{AllocError, Global};
use tree_backup::{BackupError, Content};

/// How a job ends: its status, and the text that it prints.
#[derive(Drop)]
pub(crate) struct Ending {
    pub(crate) status: Status,
    pub(crate) text: String,
}

/// Returns the line that counts what a backup holds.
fn content_line(alloc: Global, content: &Content) -> Result<String, AllocError>
    ensures { IfOk result (λ t. string_bytes t ≡ content_text content.now) }
{
    let entries = content.entries.as_slice().len();
    let objects = content.objects.as_slice().len();
    format!(in alloc; "entries {entries} objects {objects}\n")
}

/// Returns the line of a backup that is refused for this cause.
fn cause_line(alloc: Global, cause: u8) -> Result<String, AllocError>
    ensures { IfOk result (λ t. string_bytes t ≡ backup_text cause) }
{
    format!(in alloc; "backup {cause}\n")
}

/// Returns how a job ends that counts what a backup holds. Fails when out of memory.
pub(crate) fn counted(alloc: Global, content: &Content) -> Result<Ending, AllocError>
    ensures status { IfOk result (λ e. e.status ≡ Status.Done) }
    ensures text { IfOk result (λ e. string_bytes e.text ≡ content_text content.now) }
{
    Ok(Ending {
        status: Status::Done,
        text: content_line(alloc, content)?,
    })
}

/// Returns how a job ends that is stopped by this error. Fails when out of memory, and for an error of
/// the hasher, which one that keeps nothing never has.
pub(crate) fn refused(alloc: Global, error: &BackupError) -> Result<Ending, AllocError>
    ensures { IfOk result (λ e. Reports error.now e.status (string_bytes e.text)) }
{
    match error {
        BackupError::Clash { .. } | BackupError::BookFull(_) | BackupError::Memory => {
            Err(AllocError)
        }
        BackupError::Failed => Ok(Ending {
            status: Status::StoreFault,
            text: String::from_str(alloc, "store fault\n")?,
        }),
        _ => Ok(Ending {
            status: Status::Backup,
            text: cause_line(alloc, error.cause())?,
        }),
    }
}

/// Returns how a job ends that could not read its input. Fails when out of memory.
fn unread(alloc: Global, error: InputError) -> Result<Ending, AllocError>
    ensures { IfOk result (λ e. Unread error e.status (string_bytes e.text)) }
{
    match error {
        InputError::Failed => Ok(Ending {
            status: Status::ReadFault,
            text: String::from_str(alloc, "read fault\n")?,
        }),
        InputError::TooLong => Ok(Ending {
            status: Status::Limit,
            text: String::from_str(alloc, "limit backup 268435456\n")?,
        }),
        InputError::Memory => Err(AllocError),
    }
}

/// Returns how a job ends that read no content. Fails when out of memory.
pub(crate) fn stopped(alloc: Global, error: &ReadError) -> Result<Ending, AllocError>
    ensures { IfOk result (λ e. Stops error.now e.status (string_bytes e.text)) }
{
    match error {
        ReadError::Input(error) => unread(alloc, *error),
        ReadError::Backup(error) => refused(alloc, error),
    }
}

/// Writes the text with which a job ends, or `memory` when out of memory. Returns the status.
pub(crate) fn print_ending<O: Sink>(ending: Result<Ending, AllocError>, output: &mut O) -> Status
    requires { IfOk ending (λ e. e.status ≢ Status.WriteFault) }
    ensures printed { result ≢ Status.WriteFault → (text : List ℕ) × EndsAs ending result text × Appends (O.written output.old) (O.written output.new) text }
    ensures prefix { result ≡ Status.WriteFault → (status : Status) × (text : List ℕ) × EndsAs ending status text × AppendsPrefix (O.written output.old) (O.written output.new) text }
    ensures write { result ≡ Status.WriteFault → Rose (O.fault_count output.old) (O.fault_count output.new) }
{
    match ending {
        Ok(ending) => finish(output, ending.text.as_str(), ending.status),
        Err(_) => finish(output, "memory\n", Status::Memory),
    }
}
