ghost use Rattle.std.specs.Prelude.{◌≡◌, ◌≢◌, [], ℕ, List, Option, IfOk, string_bytes};
ghost use Rattle.std.specs.Io.KnownBytes.{Appends};
ghost use Rattle.cluster.specs.Endings.{IsStopText, IsUnread};
ghost use Rattle.cluster.specs.declared.stop.Stop.TheVariants.{World as OfWorld, Link as OfLink};
ghost use Rattle.scripts.specs.ClusterReading.{Refuses};
ghost use Rattle.ens_base.specs.Causes.{Rose};
ghost use Rattle.ens_base.specs.declared.status.Status.{Status};
ghost use Rattle.environment.specs.Written.{AppendsPrefix};

use crate::stop::Stop;
use ens_base::Status;
use environment::{LinkError, Sink, write_all};
use replay::clash_text;
use schedule_input::Ending;
use scripts::ReadError;
use std::alloc::{AllocError, Global};
use world_model::WorldError;

/// The end of a cluster: its status, and the bytes that it prints.
#[derive(Drop)]
pub(crate) struct Printout {
    pub(crate) status: Status,
    pub(crate) text: Vec<u8>,
}

impl Printout {
    /// Takes the bytes of an ending.
    pub(crate) fn of(ending: Ending) -> Printout
        ensures status { result.status ≡ ending.status }
        ensures text { result.text.items ≡ string_bytes ending.text }
    {
        let Ending { status, text } = ending;
        Printout {
            status,
            text: text.into_bytes(),
        }
    }

    /// Writes the bytes. Returns the status, or `WriteFault` if the output failed; then a prefix of the
    /// bytes was written.
    pub(crate) fn print<O: Sink>(self, output: &mut O) -> Status
        requires { self.status ≢ Status.WriteFault }
        ensures written { result ≢ Status.WriteFault → (result ≡ self.status) × Appends (O.written output.old) (O.written output.new) self.text.items }
        ensures prefix { result ≡ Status.WriteFault → AppendsPrefix (O.written output.old) (O.written output.new) self.text.items }
        ensures failed { result ≡ Status.WriteFault → Rose (O.fault_count output.old) (O.fault_count output.new) }
    {
        match write_all(output, &self.text) {
            Ok(()) => self.status,
            Err(_) => Status::WriteFault,
        }
    }
}

/// Returns how a cluster ends that could not read its script. Fails when out of memory, and for
/// `ReadError::Memory`.
pub(crate) fn unread(alloc: Global, error: ReadError) -> Result<Ending, AllocError>
    ensures { IfOk result (λ e. (peers : ℕ) (source : Option (List ℕ)) → Refuses peers source [] error → IsUnread peers source error e.status (string_bytes e.text)) }
{
    match error {
        ReadError::Failed => Ending::new(alloc, Status::ReadFault, "read fault\n"),
        ReadError::Bad { line, cause } => Ok(Ending {
            status: Status::Schedule,
            text: format!(in alloc; "schedule {line} {cause}\n")?,
        }),
        ReadError::Lines => Ending::new(alloc, Status::Limit, "limit lines 200000\n"),
        ReadError::Memory => Err(AllocError),
    }
}

/// Returns how a cluster ends whose world stopped. Fails when out of memory, and for
/// `WorldError::Memory`.
fn world_stopped(alloc: Global, error: WorldError) -> Result<Ending, AllocError>
    ensures { IfOk result (λ e. IsStopText (OfWorld error) e.status (string_bytes e.text)) }
{
    match error {
        WorldError::Clash { first, second } => Ok(Ending {
            status: Status::Clash,
            text: clash_text(alloc, &first, &second)?,
        }),
        WorldError::BookFull(_) => Ending::new(alloc, Status::Limit, "limit book 1073741824\n"),
        WorldError::MessageLimit => Ending::new(alloc, Status::Limit, "limit messages 500000\n"),
        WorldError::Memory => Err(AllocError),
    }
}

/// Returns how a cluster ends whose link stopped it. Fails when out of memory, and for `LinkError::Memory`.
fn link_stopped(alloc: Global, error: LinkError) -> Result<Ending, AllocError>
    ensures { IfOk result (λ e. IsStopText (OfLink error) e.status (string_bytes e.text)) }
{
    match error {
        LinkError::Failed => Ending::new(alloc, Status::LinkFault, "link fault\n"),
        LinkError::Memory => Err(AllocError),
    }
}

/// Returns how a cluster ends whose recording stopped. Fails when out of memory, and if the recording
/// stopped for that.
pub(crate) fn stopped(alloc: Global, stop: Stop) -> Result<Ending, AllocError>
    ensures { IfOk result (λ e. IsStopText stop e.status (string_bytes e.text)) }
{
    match stop {
        Stop::Lines => Ending::new(alloc, Status::Limit, "limit lines 200000\n"),
        Stop::World(error) => world_stopped(alloc, error),
        Stop::Link(error) => link_stopped(alloc, error),
    }
}
