ghost use Rattle.std.specs.Prelude.{◌≡◌, ◌++◌, ℕ, List, IfOk, OnOk, count_by, string_bytes};
ghost use Rattle.std.specs.BTreeSet.{contains};
ghost use Rattle.std.specs.List.{list_any};
ghost use Rattle.std.specs.Ordering.{nat_cmp};
ghost use Rattle.register_model.specs.Histories.{is_done as has_done, is_refused as has_refused};
ghost use Rattle.register_model.specs.declared.printed.Printed.{Printed};
ghost use Rattle.replay.specs.Summary.{
  answers_with,
  count_line,
  digest_line,
  is_call as has_call,
  is_unknown as has_unknown,
  reply_count,
  reply_counts,
  schedule_counts,
  settled_by as settled_call,
  settles,
  summary_text,
};

use ens_base::push_bytes;
use hash_book::digest_of;
use register_model::{Printed, is_done, is_refused};
use schedule_text::{Schedule, ScheduleEvent};
use std::alloc::{AllocError, Global};
use std::collections::BTreeSet;

fn is_answer_done(line: &Printed) -> bool
    ensures { result ≡ answers_with has_done line.now }
{
    match line {
        Printed::Answer(answer) => is_done(&answer.reply),
        Printed::Change { .. } => false,
    }
}

fn is_answer_refused(line: &Printed) -> bool
    ensures { result ≡ answers_with has_refused line.now }
{
    match line {
        Printed::Answer(answer) => is_refused(&answer.reply),
        Printed::Change { .. } => false,
    }
}

#[tactic(auto, unfolding(crate::specs::Summary::is_call))]
fn is_call(event: &ScheduleEvent) -> bool
    ensures { result ≡ has_call event.now }
{
    matches!(event, ScheduleEvent::Call { .. })
}

fn count_calls(events: &[ScheduleEvent]) -> u64
    ensures { result ≡ count_by has_call events.now }
{
    let mut calls = 0;
    for event in events {
        if is_call(event) {
            calls += 1;
        }
    }
    calls
}

fn count_done(printed: &[Printed]) -> u64
    ensures { result ≡ reply_count has_done printed.now }
{
    printed.iter().filter(|line| is_answer_done(line)).count() as u64
}

fn count_refused(printed: &[Printed]) -> u64
    ensures { result ≡ reply_count has_refused printed.now }
{
    printed
        .iter()
        .filter(|line| is_answer_refused(line))
        .count() as u64
}

/// Returns the id of the call that the line completes or refuses, if it does.
fn settled_by(line: &Printed) -> Option<u64>
    ensures { result ≡ settled_call line.now }
{
    match line {
        Printed::Answer(answer) if is_done(&answer.reply) || is_refused(&answer.reply) => Some(
            answer.id,
        ),
        Printed::Answer(_) | Printed::Change { .. } => None,
    }
}

/// Returns the ids of the calls that were completed or refused.
fn settled_ids(alloc: Global, printed: &[Printed]) -> Result<BTreeSet<u64>, AllocError>
    ensures { IfOk result (λ ids. (id : ℕ) → contains nat_cmp ids id ≡ list_any (settles id) printed.now) }
{
    let mut ids = BTreeSet::new(alloc);
    for line in printed {
        if let Some(id) = settled_by(line) {
            ids.insert(id)?;
        }
    }
    Ok(ids)
}

/// Returns whether the event is a call whose id is not among those of the calls that were completed
/// or refused.
#[tactic(auto, unfolding(crate::specs::Summary::is_unknown))]
fn is_unknown(event: &ScheduleEvent, settled: &BTreeSet<u64>) -> bool
    ensures { (printed : List Printed) → ((id : ℕ) → contains nat_cmp settled.now id ≡ list_any (settles id) printed) → result ≡ has_unknown printed event.now }
{
    match event {
        ScheduleEvent::Call { id, .. } => !settled.contains(id),
        _ => false,
    }
}

fn count_unknown(
    alloc: Global,
    events: &[ScheduleEvent],
    printed: &[Printed],
) -> Result<u64, AllocError>
    ensures { IfOk result (λ n. n ≡ count_by (has_unknown printed.now) events.now) }
{
    let settled = settled_ids(alloc, printed)?;
    let mut unknown = 0;
    for event in events {
        if is_unknown(event, &settled) {
            unknown += 1;
        }
    }
    Ok(unknown)
}

fn push_count(text: &mut String, name: &str, count: u64) -> Result<(), AllocError>
    ensures { OnOk result (string_bytes text.new ≡ string_bytes text.old ++ count_line name.now count) }
{
    write!(text, "{name} {count}\n")
}

#[tactic(auto, unfolding(crate::specs::Summary::schedule_counts))]
fn push_schedule_counts(text: &mut String, schedule: &Schedule) -> Result<(), AllocError>
    ensures { OnOk result (string_bytes text.new ≡ string_bytes text.old ++ schedule_counts schedule.now) }
{
    let events = schedule.events.as_slice();
    push_count(text, "calls", count_calls(events))?;
    push_count(text, "events", events.len() as u64)
}

#[tactic(auto, unfolding(crate::specs::Summary::reply_counts))]
fn push_reply_counts(
    alloc: Global,
    text: &mut String,
    schedule: &Schedule,
    printed: &[Printed],
) -> Result<(), AllocError>
    ensures { OnOk result (string_bytes text.new ≡ string_bytes text.old ++ reply_counts schedule.now printed.now) }
{
    push_count(text, "done", count_done(printed))?;
    push_count(text, "noeffect", count_refused(printed))?;
    let unknown = count_unknown(alloc, schedule.events.as_slice(), printed)?;
    push_count(text, "unknown", unknown)
}

#[tactic(auto, unfolding(crate::specs::Summary::digest_line))]
fn push_digest(alloc: Global, summary: &mut String, text: &str) -> Result<(), AllocError>
    ensures { OnOk result (string_bytes summary.new ≡ string_bytes summary.old ++ digest_line text.now) }
{
    let digest = digest_of(text.as_bytes());
    summary.push_str("digest ")?;
    push_bytes(alloc, summary, &digest.0)?;
    summary.push_str("\n")
}

/// Returns the summary of a run that printed these lines, and whose whole text is `text`.
#[tactic(auto, unfolding(crate::specs::Summary::summary_text))]
pub fn write_summary(
    alloc: Global,
    schedule: &Schedule,
    printed: &[Printed],
    text: &str,
) -> Result<String, AllocError>
    ensures { IfOk result (λ summary. string_bytes summary ≡ summary_text schedule.now printed.now text.now) }
{
    let mut summary = String::new(alloc);
    push_schedule_counts(&mut summary, schedule)?;
    push_reply_counts(alloc, &mut summary, schedule, printed)?;
    push_digest(alloc, &mut summary, text)?;
    Ok(summary)
}
