ghost use Rattle.std.specs.Prelude.{◌≡◌, Err, IfErr, IfOk, map, string_bytes};
ghost use Rattle.std.specs.IoError.{error_kind};
ghost use Rattle.ensemble.specs.Arguments.{reason_of, words_after_name};

use std::alloc::{AllocError, Global};
use std::env::Args;
use std::io;
use std::io::ErrorKind;

/// Why the arguments of the program could not be read.
#[derive(Clone, Copy, Debug, PartialEq, Eq)]
pub enum ArgumentsError {
    /// An argument is not valid text.
    NotText,
    /// Out of memory.
    Memory,
}

/// Returns why the system did not give the arguments.
fn reason(error: &io::Error) -> ArgumentsError
    ensures { result ≡ reason_of (error_kind error.now) }
{
    match error.kind() {
        ErrorKind::OutOfMemory => ArgumentsError::Memory,
        _ => ArgumentsError::NotText,
    }
}

/// Returns the arguments that the system gave, the name of the program first.
pub fn all_arguments(alloc: Global, given: io::Result<Args>) -> Result<Vec<String>, ArgumentsError>
    ensures refused { IfErr given (λ e. result ≡ Err (reason_of (error_kind e))) }
    ensures memory { IfOk given (λ _. IfErr result (λ e. e ≡ ArgumentsError.Memory)) }
{
    match given {
        Err(error) => Err(reason(&error)),
        Ok(args) => match args.collect::<Vec<String>>(alloc) {
            Ok(all) => Ok(all),
            Err(_) => Err(ArgumentsError::Memory),
        },
    }
}

/// Returns the arguments after the name of the program.
pub fn words_of(alloc: Global, all: &[String]) -> Result<Vec<&str>, AllocError>
    ensures { IfOk result (λ v. map (λ w. w.now) v.items ≡ words_after_name (map string_bytes all.now)) }
{
    let mut words = Vec::new(alloc);
    let [_name, rest @ ..] = all else {
        return Ok(words);
    };
    for word in rest {
        words.push(word.as_str())?;
    }
    Ok(words)
}
