ghost use Rattle.std.specs.Prelude.{◌≡◌, IfOk, OnOk, Some, if◌then◌else◌, option_map};
ghost use Rattle.object_commands.specs.Kept.{matching};
ghost use Rattle.leader_output.specs.Outs.{rests, leads_on, and_answer};
ghost use Rattle.leader.specs.Leaders.{joined};
ghost use Rattle.phase_rows.specs.declared.rules.KeyRule.TheVariants as key_rules;
ghost use Rattle.leader.specs.Starts.{row_27, on_object, by_value, by_stamp, on_present, by_known, started, row_28, row_36};

use crate::leader::Leader;
use call_table::{Known, Waiting};
use ens_base::{Command, Digest, Entry, Key, Reply, Version};
use leader_output::{LeadError, LeadOut, Object, Own, Verdict, apply, on_absent, on_stamp};
use object_commands::is_named;
use phase_rows::{Change, Fact, KeyRule, Message, Seen};
use std::alloc::Global;

/// Returns the object that the backend keeps, if the entry names it.
fn named_object<'a>(entry: &Entry, kept: &'a Option<(Object, Digest)>) -> Option<&'a Object>
    ensures { matching entry.now kept.now ≡ option_map (λ o. o.now) result }
{
    match kept {
        None => None,
        Some((object, digest)) => {
            if is_named(entry, object, digest) {
                Some(object)
            } else {
                None
            }
        }
    }
}

/// Answers a call that does not join, and does no more.
fn refuse(alloc: Global, from: u32, id: u64, reply: Reply) -> Result<LeadOut, LeadError>
    ensures { IfOk result (λ o. o ≡ and_answer from id reply rests) }
{
    let mut out = LeadOut::rests(alloc);
    out.answer(from, id, reply)?;
    Ok(out)
}

/// Returns what follows a call that joins the calls of the key: the first one starts.
fn after_join(alloc: Global, key: &Key, is_first: bool) -> Result<LeadOut, LeadError>
    ensures { IfOk result (λ o. o ≡ (if is_first then leads_on key_rules.StartCall key.now else rests)) }
{
    if is_first {
        LeadOut::leads_on(alloc, KeyRule::StartCall, key)
    } else {
        Ok(LeadOut::rests(alloc))
    }
}

impl Leader {
    /// Lets a call join the calls of its key. It starts if it is the first.
    fn join(&mut self, alloc: Global, call: Waiting, is_first: bool) -> Result<LeadOut, LeadError>
        ensures leader { OnOk result (self.new ≡ joined call self.old) }
        ensures out { IfOk result (λ o. o ≡ (if is_first then leads_on key_rules.StartCall call.key else rests)) }
    {
        let out = after_join(alloc, &call.key, is_first)?;
        self.table.join(alloc, call)?;
        Ok(out)
    }

    /// Rule 27: takes a call. A leader that finishes a change answers `unavailable`, and a key with 16
    /// unanswered calls is answered `busy`. Otherwise the call joins the calls of its key, and starts
    /// if it is the only one. Fails only when out of memory.
    #[inline(never)]
    pub fn rule_27(
        &mut self,
        alloc: Global,
        from: u32,
        id: u64,
        key: Key,
        command: Command,
        finishing: bool,
    ) -> Result<LeadOut, LeadError>
        ensures { IfOk result (λ o. (self.new, o) ≡ row_27 from id key command finishing self.old) }
    {
        if finishing {
            return refuse(alloc, from, id, Reply::Unavailable);
        }
        let waiting = self.table.waiting_on(&key);
        if 16 <= waiting {
            return refuse(alloc, from, id, Reply::Busy);
        }
        let call = Waiting {
            from,
            id,
            key,
            command,
            age: 0,
        };
        self.join(alloc, call, waiting == 0)
    }

    fn on_object(
        &mut self,
        alloc: Global,
        object: Option<&Object>,
        command: &Command,
        key: &Key,
    ) -> Result<LeadOut, LeadError>
        ensures { IfOk result (λ o. (self.new, o) ≡ on_object (option_map (λ x. x.now) object.entry) command.now key.now self.old) }
    {
        match object {
            None => LeadOut::leads_on(alloc, KeyRule::Read, key),
            Some(object) => {
                let parent = self.base(key);
                let verdict = apply(alloc, command, Some(object))?;
                self.decide(alloc, parent, verdict, key)
            }
        }
    }

    fn by_value(
        &mut self,
        alloc: Global,
        seen: &Seen,
        version: Version,
        digest: Digest,
        command: &Command,
        key: &Key,
    ) -> Result<LeadOut, LeadError>
        ensures { IfOk result (λ o. (self.new, o) ≡ by_value seen.now version digest command.now key.now self.old) }
    {
        match seen {
            Seen::Nothing => {
                let mut out = LeadOut::rests(alloc);
                out.ask(Own::Fetch(key.copy(alloc)?));
                Ok(out)
            }
            Seen::Kept(kept) => {
                let entry = Entry {
                    key: key.copy(alloc)?,
                    version,
                    digest,
                };
                self.on_object(alloc, named_object(&entry, kept), command, key)
            }
            _ => Ok(LeadOut::rests(alloc)),
        }
    }

    fn by_stamp(
        &mut self,
        alloc: Global,
        verdict: Option<Verdict>,
        seen: &Seen,
        version: Version,
        digest: Digest,
        command: &Command,
        key: &Key,
    ) -> Result<LeadOut, LeadError>
        ensures { IfOk result (λ o. (self.new, o) ≡ by_stamp verdict seen.now version digest command.now key.now self.old) }
    {
        match verdict {
            Some(verdict) => {
                let parent = self.base(key);
                self.decide(alloc, parent, verdict, key)
            }
            None => self.by_value(alloc, seen, version, digest, command, key),
        }
    }

    /// Applies the command to a settled value or tombstone.
    fn on_present(
        &mut self,
        alloc: Global,
        known: (bool, Version, Version, Digest),
        seen: &Seen,
        command: &Command,
        key: &Key,
    ) -> Result<LeadOut, LeadError>
        ensures { IfOk result (λ o. (self.new, o) ≡ on_present known.0 known.1 known.2 known.3 seen.now command.now key.now self.old) }
    {
        let (tombstone, version, stamp, digest) = known;
        if tombstone {
            let parent = self.base(key);
            let verdict = on_absent(alloc, command)?;
            self.decide(alloc, parent, verdict, key)
        } else {
            let verdict = on_stamp(alloc, command, stamp)?;
            self.by_stamp(alloc, verdict, seen, version, digest, command, key)
        }
    }

    fn by_known(
        &mut self,
        alloc: Global,
        known: Known,
        seen: &Seen,
        command: &Command,
        key: &Key,
    ) -> Result<LeadOut, LeadError>
        ensures { IfOk result (λ o. (self.new, o) ≡ by_known known seen.now command.now key.now self.old) }
    {
        match known {
            Known::Unknown => LeadOut::leads_on(alloc, KeyRule::Read, key),
            Known::Absent => {
                let parent = self.base(key);
                let verdict = on_absent(alloc, command)?;
                self.decide(alloc, parent, verdict, key)
            }
            Known::Present {
                version,
                stamp,
                digest,
                tombstone,
            } => self.on_present(
                alloc,
                (tombstone, version, stamp, digest),
                seen,
                command,
                key,
            ),
        }
    }

    fn start(
        &mut self,
        alloc: Global,
        call: &Waiting,
        seen: &Seen,
        key: &Key,
    ) -> Result<LeadOut, LeadError>
        ensures { IfOk result (λ o. (self.new, o) ≡ started (Some call.now) seen.now key.now self.old) }
    {
        let known = self.table.known(key);
        self.by_known(alloc, known, seen, &call.command, key)
    }

    /// Rule 28: starts the running call of the key. `seen` is what the peer's own backend returned.
    /// Fails only when out of memory.
    #[inline(never)]
    pub fn rule_28(&mut self, alloc: Global, key: &Key, seen: &Seen) -> Result<LeadOut, LeadError>
        ensures { IfOk result (λ o. (self.new, o) ≡ row_28 key.now seen.now self.old) }
    {
        match self.running(alloc, key)? {
            None => Ok(LeadOut::rests(alloc)),
            Some(call) => self.start(alloc, &call, seen, key),
        }
    }

    /// Rule 36: starts the next call of the key, after an answer. Fails only when out of memory.
    #[inline(never)]
    pub fn rule_36(&mut self, alloc: Global, key: &Key) -> Result<LeadOut, LeadError>
        ensures { IfOk result (λ o. (self.new, o) ≡ row_36 key.now self.old) }
    {
        match self.running(alloc, key)? {
            None => Ok(LeadOut::rests(alloc)),
            Some(_call) => LeadOut::leads_on(alloc, KeyRule::StartCall, key),
        }
    }
}
