ghost use Rattle.std.specs.Prelude.{◌≡◌, ℕ, List, ◌∷◌, IfOk, false, map};
ghost use Rattle.clap.specs.Words.{kind_of};
ghost use Rattle.lexemes.specs.Causes.{Gives};
ghost use Rattle.lexemes.specs.Words.{view_of};
ghost use Rattle.command_line.specs.Forms.{Reads};
ghost use Rattle.command_line.specs.Reading.{alone_of, cluster_of, generate_of, generator_of, job_of, peer_form_of, peer_of_words, summary_of};
ghost use Rattle.command_line.specs.Split.{Splits, has_option};

use crate::command::{has_option, matches_of};
use crate::job::{Job, WordsError};
use clap::error::ErrorKind;
use clap::{ArgMatches, Error};
use ens_base::{ClusterWords, PeerWords, View};
use lexemes::{Cause, WordError, number, peer, view};
use std::alloc::{AllocError, Global};

/// The greatest number of peers.
const MOST_PEERS: u64 = 31;

/// The greatest port below that of peer 1.
const MOST_PORT: u64 = 65000;

/// The greatest number of turns of a peer.
const MOST_TURNS: u64 = 1_000_000_000;

/// The greatest number of calls of a generated schedule.
const MOST_CALLS: u64 = 20000;

/// Returns the job of a word that has none behind it.
fn alone(job: Job, words: &[&str]) -> Result<Job, WordError>
    ensures { Gives (alone_of job (map (λ w. w.now) words.now)) result }
{
    if words.is_empty() {
        Ok(job)
    } else {
        Err(WordError::Bad(Cause::Words))
    }
}

/// Returns the bytes of each word.
fn bytes_of<'a>(alloc: Global, words: &[&'a str]) -> Result<Vec<&'a [u8]>, AllocError>
    ensures { IfOk result (λ v. map (λ w. w.now) v.items ≡ map (λ w. w.now) words.now) }
{
    let mut bytes = Vec::new(alloc);
    for word in words {
        bytes.push(word.as_bytes())?;
    }
    Ok(bytes)
}

/// Returns the view that the words name, of so many peers.
fn opening(alloc: Global, words: &[&str], peers: u32) -> Result<View, WordError>
    ensures { Gives (view_of peers (map (λ w. w.now) words.now)) result }
{
    let bytes = bytes_of(alloc, words)?;
    view(alloc, bytes.as_slice(), peers)
}

#[tactic(auto, unfolding(crate::specs::Reading::peer_form_of))]
fn peer_form(
    alloc: Global,
    id: &str,
    count: &str,
    base: &str,
    limit: &str,
    members: &[&str],
) -> Result<Job, WordError>
    ensures { Gives (peer_form_of id.now count.now base.now limit.now (map (λ w. w.now) members.now)) result }
{
    let peers = number(count.as_bytes(), 1, MOST_PEERS)? as u32;
    let me = peer(id.as_bytes(), peers)?;
    let port = number(base.as_bytes(), 1, MOST_PORT)? as u16;
    let turns = number(limit.as_bytes(), 1, MOST_TURNS)?;
    let view = opening(alloc, members, peers)?;
    Ok(Job::Peer(PeerWords {
        me,
        peers,
        port,
        turns,
        view,
    }))
}

fn peer_job(alloc: Global, words: &[&str]) -> Result<Job, WordError>
    ensures { Gives (peer_of_words (map (λ w. w.now) words.now)) result }
{
    let [id, count, base, limit, members @ ..] = words else {
        return Err(WordError::Bad(Cause::Words));
    };
    peer_form(alloc, id, count, base, limit, members)
}

fn cluster_job(alloc: Global, words: &[&str]) -> Result<Job, WordError>
    ensures { Gives (cluster_of (map (λ w. w.now) words.now)) result }
{
    let [count, base, members @ ..] = words else {
        return Err(WordError::Bad(Cause::Words));
    };
    let peers = number(count.as_bytes(), 1, MOST_PEERS)? as u32;
    let port = number(base.as_bytes(), 1, MOST_PORT)? as u16;
    let view = opening(alloc, members, peers)?;
    Ok(Job::Cluster(ClusterWords { peers, port, view }))
}

fn is_summary(word: &str) -> Result<bool, Cause>
    ensures { result ≡ summary_of word.now }
{
    if word == "schedule" {
        Ok(false)
    } else if word == "summary" {
        Ok(true)
    } else {
        Err(Cause::Unknown)
    }
}

fn generator_job(n: &str, c: &str, output: &str) -> Result<Job, Cause>
    ensures { result ≡ generator_of n.now c.now output.now }
{
    let number_read = number(n.as_bytes(), 0, u64::MAX)?;
    let calls = number(c.as_bytes(), 1, MOST_CALLS)?;
    let summary = is_summary(output)?;
    Ok(Job::Generate {
        number: number_read,
        calls,
        summary,
    })
}

fn generate_job(words: &[&str]) -> Result<Job, WordError>
    ensures { Gives (generate_of (map (λ w. w.now) words.now)) result }
{
    let [n, c, output] = words else {
        return Err(WordError::Bad(Cause::Words));
    };
    Ok(generator_job(n, c, output)?)
}

fn job(alloc: Global, verb: &str, rest: &[&str]) -> Result<Job, WordError>
    ensures { Gives (job_of (verb.now ∷ map (λ w. w.now) rest.now)) result }
{
    if verb == "replay" {
        alone(Job::Replay, rest)
    } else if verb == "peer" {
        peer_job(alloc, rest)
    } else if verb == "cluster" {
        cluster_job(alloc, rest)
    } else if verb == "audit" {
        alone(Job::Audit, rest)
    } else if verb == "generate" {
        generate_job(rest)
    } else if verb == "backup" {
        alone(Job::Backup, rest)
    } else if verb == "check" {
        alone(Job::Check, rest)
    } else if verb == "restore" {
        alone(Job::Restore, rest)
    } else if verb == "root" {
        alone(Job::Root, rest)
    } else {
        Err(WordError::Bad(Cause::Unknown))
    }
}

/// Returns the job that the words of the matches ask for.
fn job_of_matches(alloc: Global, matches: &ArgMatches<'_>) -> Result<Job, WordError>
    ensures { (words : List (List ℕ)) → Splits matches.now words → Gives (job_of words) result }
{
    let Some(verb) = matches.get_str("verb") else {
        return Err(WordError::Bad(Cause::Words));
    };
    match matches.get_strs("rest") {
        Some(rest) => job(alloc, verb, rest),
        None => job(alloc, verb, &[]),
    }
}

fn parse_error(error: &Error) -> WordError
    ensures { kind_of error.now ≡ ErrorKind.OutOfMemory → result ≡ WordError.Memory }
{
    match error.kind() {
        ErrorKind::OutOfMemory => WordError::Memory,
        _ => WordError::Bad(Cause::Words),
    }
}

fn read(alloc: Global, words: &[&str]) -> Result<Job, WordError>
    ensures { has_option (map (λ w. w.now) words.now) ≡ false
        → Gives (job_of (map (λ w. w.now) words.now)) result }
{
    match matches_of(alloc, words) {
        Ok(matches) => job_of_matches(alloc, &matches),
        Err(error) => Err(parse_error(&error)),
    }
}

/// Returns the job that the words ask for, or `Usage` exactly if they ask for none. Numbers are in
/// decimal digits, with no sign, and with no zero in front of another digit. The members of a view
/// ascend.
pub fn read_words(alloc: Global, words: &[&str]) -> Result<Job, WordsError>
    ensures { Reads (map (λ w. w.now) words.now) result }
{
    // No form has a word that begins with `-`, and a parse takes it for an option.
    if has_option(words) {
        return Err(WordsError::Usage);
    }
    match read(alloc, words) {
        Ok(job) => Ok(job),
        Err(WordError::Bad(_)) => Err(WordsError::Usage),
        Err(WordError::Memory) => Err(WordsError::Memory),
    }
}
