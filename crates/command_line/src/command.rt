ghost use Rattle.std.specs.Prelude.{◌≡◌, IfErr, IfOk, false, map};
ghost use Rattle.clap.specs.Words.{kind_of};
ghost use Rattle.command_line.specs.Split.{Splits, has_option, is_option};

use clap::error::ErrorKind;
use clap::{Arg, ArgAction, ArgMatches, Command, Error};
use std::alloc::Global;

fn is_option(word: &str) -> bool
    ensures { result ≡ is_option word.now }
{
    match word.as_bytes() {
        [first, ..] => *first == b'-',
        [] => false,
    }
}

/// Returns whether a word begins with `-`.
pub(crate) fn has_option(words: &[&str]) -> bool
    ensures { result ≡ has_option (map (λ w. w.now) words.now) }
{
    words.iter().any(|word| is_option(word))
}

/// Parses a command line: the first word is the value of `verb`, and those behind it are the values
/// of `rest`. If no word begins with `-`, then the parse fails only when out of memory.
pub(crate) fn matches_of<'a>(alloc: Global, words: &'a [&'a str]) -> Result<ArgMatches<'a>, Error>
    ensures ok { IfOk result (λ m. has_option (map (λ w. w.now) words.now) ≡ false
        → Splits m (map (λ w. w.now) words.now)) }
    ensures err { IfErr result (λ e. has_option (map (λ w. w.now) words.now) ≡ false
        → kind_of e ≡ ErrorKind.OutOfMemory) }
{
    let verb = Arg::new(alloc, "verb");
    let rest = Arg::new(alloc, "rest").action(ArgAction::Append);
    let command = Command::new(alloc, "ensemble")
        .no_binary_name(true)
        .disable_help_flag(true)
        .arg(verb)?
        .arg(rest)?;
    command.try_get_matches_from(words)
}
