ghost use Rattle.std.specs.Prelude.{◌≡◌, IfOk};
ghost use Rattle.leader.specs.Rules.{lead_row};

use crate::leader::Leader;
use ens_base::Key;
use leader_output::{LeadError, LeadOut};
use phase_rows::{Change, Fact, KeyRule, Message, Seen};
use std::alloc::Global;

impl Leader {
    /// Runs the rule on a key. `seen` is what the peer's own tree and backend returned. Fails only
    /// when out of memory.
    pub fn rule(
        &mut self,
        alloc: Global,
        rule: KeyRule,
        key: &Key,
        seen: &Seen,
    ) -> Result<LeadOut, LeadError>
        ensures { IfOk result (λ o. (self.new, o) ≡ lead_row rule key.now seen.now self.old) }
    {
        match rule {
            KeyRule::StartCall => self.rule_28(alloc, key, seen),
            KeyRule::Read => self.rule_29(alloc, key, seen),
            KeyRule::EnoughReplies => self.rule_30(alloc, key),
            KeyRule::Write => self.rule_31(alloc, key),
            KeyRule::Rewrite => self.rule_32(alloc, key),
            KeyRule::Check => self.rule_33(alloc, key),
            KeyRule::Apply => self.rule_34(alloc, key),
            KeyRule::Put => self.rule_35(alloc, key, seen),
            KeyRule::StartNextCall => self.rule_36(alloc, key),
        }
    }
}
