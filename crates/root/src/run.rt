ghost use Rattle.std.specs.Prelude.{◌≡◌, IfErr, IfOk, OnOk, map};
ghost use Rattle.hash_book.specs.Hashing.{KeepsNothing};
ghost use Rattle.world_spec.specs.Held.{HasHashed, HasNoClash, account};
ghost use Rattle.root_laws.specs.Legal.{IsLegalRun};
ghost use Rattle.root_laws.specs.Steps.{AreOpened, roots_after};
ghost use Rattle.root_laws.specs.Text.{IsTextOf};
ghost use Rattle.scripts.specs.Spelling.{IsScript};
ghost use Rattle.root.specs.Ends.{IsStopped, as_opening};
ghost use Rattle.root.specs.Hashed.{hashed_by};
ghost use Rattle.root.specs.Standing.{Stands};
ghost use Rattle.root.specs.Worlds.{AreWithin, worlds};

use crate::histories::key_histories;
use crate::opening::places_of;
use crate::text::push_slots;
use crate::worlds::RootWorlds;
use ens_base::View;
use hash_book::Hasher16;
use history_scribe::write_text;
use replay::WorldError;
use scripts::RootScript;
use std::alloc::{AllocError, Global};
use std::thread::Threads;

/// What the run of a script gave.
#[derive(Drop)]
pub struct RootRun {
    /// The text that it printed.
    pub text: Vec<u8>,
    /// The slots that opened, in order: each with the view with which it opened, and the number of the event.
    pub opened: Vec<(u8, View, u32)>,
}

/// Applies the lines of a script, one after another.
fn run_lines<H: Hasher16, R: Threads + Sync>(
    rt: &R,
    alloc: Global,
    script: &RootScript,
    hasher: &mut H,
) -> Result<RootWorlds, WorldError>
    requires { IsScript script.now }
    ensures stands { IfOk result (Stands script.now (roots_after worlds script.now)) }
    ensures hashed { OnOk result (HasHashed (hashed_by script.now) (account H.kept H.clashes H.fulls hasher.old) (account H.kept H.clashes H.fulls hasher.new)) }
    ensures apart { KeepsNothing (H.kept hasher.old) → OnOk result (HasNoClash (hashed_by script.now)) }
    ensures stops { IfErr result (IsStopped script.now (account H.kept H.clashes H.fulls hasher.old) (account H.kept H.clashes H.fulls hasher.new)) }
{
    let places = places_of(alloc, script)?;
    let mut run = RootWorlds::open(rt, alloc, script, hasher)?;
    for place in 0..script.events.as_slice().len() {
        run.apply(rt, alloc, script, &places, place, hasher)?;
    }
    Ok(run)
}

/// Returns what the run of the script gave: what the worlds printed, followed by the histories, and the slots
/// that are open.
fn finished(alloc: Global, script: &RootScript, run: RootWorlds) -> Result<RootRun, AllocError>
    requires { IsScript script.now }
    ensures text { Stands script.now (roots_after worlds script.now) run → IfOk result (λ r. IsTextOf worlds script.now r.text.items) }
    ensures opened { IfOk result (λ r. r.opened.items ≡ run.opened.items) }
{
    let RootWorlds {
        root,
        slots,
        opened,
        mut text,
    } = run;
    push_slots(&mut text, &root.histories(alloc)?)?;
    let keys = key_histories(alloc, script, &slots)?;
    let lines = write_text(alloc, &[], &keys)?;
    text.push_str(lines.as_str())?;
    Ok(RootRun {
        text: text.into_bytes(),
        opened,
    })
}

/// Runs a script: the root from the beginning, and the ensemble of each slot from the event on in which the slot
/// opens. All ensembles are of the newest form, have as many peers as the script says, and share the hasher. The run
/// is legal if no two different strings of it have the same MD5.
///
/// # Errors
///
/// `MessageLimit` only if an ensemble would send message 500,001 in one of the lines; `Clash` or `BookFull` only if
/// the hasher rejected one of the strings of the run and counted that in this call, after it took those before; and
/// `Memory` when out of memory.
pub fn run_root<H: Hasher16, R: Threads + Sync>(
    rt: &R,
    alloc: Global,
    script: &RootScript,
    hasher: &mut H,
) -> Result<RootRun, WorldError>
    requires { IsScript script.now }
    ensures text { IfOk result (λ r. IsTextOf worlds script.now r.text.items) }
    ensures opened { IfOk result (λ r. AreOpened worlds script.now (map as_opening r.opened.items)) }
    ensures within { OnOk result (AreWithin script.now (roots_after worlds script.now)) }
    ensures hashed { OnOk result (HasHashed (hashed_by script.now) (account H.kept H.clashes H.fulls hasher.old) (account H.kept H.clashes H.fulls hasher.new)) }
    ensures apart { KeepsNothing (H.kept hasher.old) → OnOk result (HasNoClash (hashed_by script.now)) }
    ensures legal { OnOk result (HasNoClash (hashed_by script.now) → IsLegalRun worlds script.now) }
    ensures stops { IfErr result (IsStopped script.now (account H.kept H.clashes H.fulls hasher.old) (account H.kept H.clashes H.fulls hasher.new)) }
{
    let run = run_lines(rt, alloc, script, hasher)?;
    Ok(finished(alloc, script, run)?)
}
