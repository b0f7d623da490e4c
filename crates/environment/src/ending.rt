ghost use Rattle.std.specs.Prelude.{◌≡◌, ◌≢◌, ◌≤◌};
ghost use Rattle.std.specs.Io.KnownBytes.{Appends};
ghost use Rattle.ens_base.specs.Causes.{Rose};
ghost use Rattle.environment.specs.Written.{AppendsPrefix};

use crate::sink::{Sink, write_all};
use ens_base::Status;

/// Writes the text with which a job ends. Returns `status`, or `WriteFault` if the output failed;
/// then a prefix of the text was written.
pub fn finish<O: Sink>(output: &mut O, text: &str, status: Status) -> Status
    requires { status ≢ Status.WriteFault }
    ensures written { result ≢ Status.WriteFault → (result ≡ status) × Appends (O.written output.old) (O.written output.new) text.now }
    ensures prefix { result ≡ Status.WriteFault → AppendsPrefix (O.written output.old) (O.written output.new) text.now }
    ensures later { O.fault_count output.old ≤ O.fault_count output.new }
    ensures failed { result ≡ Status.WriteFault → Rose (O.fault_count output.old) (O.fault_count output.new) }
{
    match write_all(output, text.as_bytes()) {
        Ok(()) => status,
        Err(_) => Status::WriteFault,
    }
}
