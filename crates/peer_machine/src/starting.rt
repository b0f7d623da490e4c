ghost use Rattle.std.specs.Prelude.{◌≡◌, ℕ, true, [], IfOk};
ghost use Rattle.peer_state.specs.Ages.{is_young};
ghost use Rattle.peer_spec.specs.Kept.{IsOwn};
ghost use Rattle.peer_state.specs.NoAllocation.{IsSteady};
ghost use Rattle.step_plans.specs.Calls.{Install, ScanTree};
ghost use Rattle.step_plans.specs.Plans.{Ask};
ghost use Rattle.tree_node.specs.declared.version.TreeVersion.TheVariants.{Two};
ghost use Rattle.tree_node.specs.Entries.{AreAbove};
ghost use Rattle.peer_spec.specs.Starts.{
  Starts,
  start_of,
  saves_opening,
  seals_opening,
  continued as continues,
  reseals,
  reseals_if,
  migrated,
  scanned as scans,
  continued_in as continues_in,
  opened as opens,
};

use ens_base::{Digest, Entry, View};
use peer_spec::{first_state, is_whole};
use peer_state::{Mode, State};
use std::alloc::Global;
use std::thread::Threads;
use step_plans::{PeerError, Store};
use stored_formats::{Change, Fact, SavedFact};
use tree_node::{Scan, TreeVersion};

/// Saves the opening fact with this seal, and starts with it.
fn save_opening<H, S: Store<H>>(
    stores: &mut S,
    hasher: &mut H,
    mode: Mode,
    opening: View,
    seal: Option<Digest>,
) -> Result<State, PeerError>
    ensures starts { Starts S.does S.refuses (saves_opening mode opening seal) (stores.old, hasher.old) result (stores.new, hasher.new) }
    ensures young { IfOk result (λ x. is_young x.phase ≡ true) }
    ensures steady { IfOk result (λ x. IsSteady x) }
    ensures own { IfOk result (λ x. (me : ℕ) → IsOwn me x) }
{
    let fact = Fact::opening(opening);
    let saved = SavedFact { fact, seal };
    match stores.save(hasher, &saved) {
        Ok(()) => Ok(first_state(mode, saved, true)),
        Err(error) => Err(error),
    }
}

/// Saves the opening fact, with the root of the empty tree as its seal if seals are kept, and starts
/// with it.
fn seal_opening<H, S: Store<H>>(
    stores: &mut S,
    hasher: &mut H,
    mode: Mode,
    opening: View,
) -> Result<State, PeerError>
    ensures starts { Starts S.does S.refuses (seals_opening mode.sealing mode opening) (stores.old, hasher.old) result (stores.new, hasher.new) }
    ensures young { IfOk result (λ x. is_young x.phase ≡ true) }
    ensures steady { IfOk result (λ x. IsSteady x) }
    ensures own { IfOk result (λ x. (me : ℕ) → IsOwn me x) }
{
    if mode.sealing {
        let root = stores.root(hasher)?;
        save_opening(stores, hasher, mode, opening, root)
    } else {
        save_opening(stores, hasher, mode, opening, None)
    }
}

/// Opens the tree in this version, under the seal of the fact if it has one, and continues from the fact.
fn continued<H, S: Store<H>>(
    stores: &mut S,
    hasher: &mut H,
    alloc: Global,
    tree: TreeVersion,
    mode: Mode,
    saved: SavedFact,
) -> Result<State, PeerError>
    ensures starts { Starts S.does S.refuses (continues tree mode saved) (stores.old, hasher.old) result (stores.new, hasher.new) }
    ensures young { IfOk result (λ x. is_young x.phase ≡ true) }
    ensures steady { IfOk result (λ x. IsSteady x) }
    ensures own { IfOk result (λ x. (me : ℕ) → IsOwn me x) }
{
    match stores.open_tree(hasher, alloc, saved.seal, tree) {
        Ok(()) => Ok(first_state(mode, saved, false)),
        Err(error) => Err(error),
    }
}

/// Saves the fact again, with the root of the tree as its seal, and continues from it.
fn reseal<H, S: Store<H>>(
    stores: &mut S,
    hasher: &mut H,
    mode: Mode,
    saved: SavedFact,
) -> Result<State, PeerError>
    ensures starts { Starts S.does S.refuses (reseals mode saved) (stores.old, hasher.old) result (stores.new, hasher.new) }
    ensures young { IfOk result (λ x. is_young x.phase ≡ true) }
    ensures steady { IfOk result (λ x. IsSteady x) }
    ensures own { IfOk result (λ x. (me : ℕ) → IsOwn me x) }
{
    let root = stores.root(hasher)?;
    let again = SavedFact {
        fact: saved.fact,
        seal: root,
    };
    match stores.save(hasher, &again) {
        Ok(()) => Ok(first_state(mode, again, false)),
        Err(error) => Err(error),
    }
}

/// Continues from the fact, after it was saved again with its new seal if it has one.
fn reseal_if<H, S: Store<H>>(
    stores: &mut S,
    hasher: &mut H,
    mode: Mode,
    saved: SavedFact,
) -> Result<State, PeerError>
    ensures starts { Starts S.does S.refuses (reseals_if saved.seal mode saved) (stores.old, hasher.old) result (stores.new, hasher.new) }
    ensures young { IfOk result (λ x. is_young x.phase ≡ true) }
    ensures steady { IfOk result (λ x. IsSteady x) }
    ensures own { IfOk result (λ x. (me : ℕ) → IsOwn me x) }
{
    match saved.seal {
        None => Ok(first_state(mode, saved, false)),
        Some(_) => reseal(stores, hasher, mode, saved),
    }
}

/// Installs the tree of these entries in the version in which the tree was opened, and continues from the
/// fact.
fn installed<H, S: Store<H>, R: Threads + Sync>(
    stores: &mut S,
    hasher: &mut H,
    rt: &R,
    alloc: Global,
    mode: Mode,
    saved: SavedFact,
    entries: &[Entry],
) -> Result<State, PeerError>
    requires { AreAbove [] entries.now }
    ensures starts { Starts S.does S.refuses (Ask (Install entries.now) (λ v. reseals_if saved.seal mode saved)) (stores.old, hasher.old) result (stores.new, hasher.new) }
    ensures young { IfOk result (λ x. is_young x.phase ≡ true) }
    ensures steady { IfOk result (λ x. IsSteady x) }
    ensures own { IfOk result (λ x. (me : ℕ) → IsOwn me x) }
{
    match stores.install(hasher, rt, alloc, entries) {
        Ok(()) => reseal_if(stores, hasher, mode, saved),
        Err(error) => Err(error),
    }
}

/// Puts the tree of these entries, in version two, in the place of the kept one, and continues from the
/// fact.
fn migrate<H, S: Store<H>, R: Threads + Sync>(
    stores: &mut S,
    hasher: &mut H,
    rt: &R,
    alloc: Global,
    mode: Mode,
    saved: SavedFact,
    entries: &[Entry],
) -> Result<State, PeerError>
    requires { AreAbove [] entries.now }
    ensures starts { Starts S.does S.refuses (migrated mode saved entries.now) (stores.old, hasher.old) result (stores.new, hasher.new) }
    ensures young { IfOk result (λ x. is_young x.phase ≡ true) }
    ensures steady { IfOk result (λ x. IsSteady x) }
    ensures own { IfOk result (λ x. (me : ℕ) → IsOwn me x) }
{
    match stores.open_tree(hasher, alloc, None, TreeVersion::Two) {
        Ok(()) => installed(stores, hasher, rt, alloc, mode, saved, entries),
        Err(error) => Err(error),
    }
}

/// Continues after a scan of the kept tree in version one: a whole tree migrates.
fn scanned<H, S: Store<H>, R: Threads + Sync>(
    stores: &mut S,
    hasher: &mut H,
    rt: &R,
    alloc: Global,
    mode: Mode,
    saved: SavedFact,
    scan: &Scan,
) -> Result<State, PeerError>
    ensures starts { Starts S.does S.refuses (scans mode saved scan.now) (stores.old, hasher.old) result (stores.new, hasher.new) }
    ensures young { IfOk result (λ x. is_young x.phase ≡ true) }
    ensures steady { IfOk result (λ x. IsSteady x) }
    ensures own { IfOk result (λ x. (me : ℕ) → IsOwn me x) }
{
    if is_whole(scan) {
        migrate(
            stores,
            hasher,
            rt,
            alloc,
            mode,
            saved,
            scan.entries.as_slice(),
        )
    } else {
        continued(stores, hasher, alloc, TreeVersion::Two, mode, saved)
    }
}

/// Scans the tree that was opened in version one, and continues by what the scan shows.
fn rescanned<H, S: Store<H>, R: Threads + Sync>(
    stores: &mut S,
    hasher: &mut H,
    rt: &R,
    alloc: Global,
    mode: Mode,
    saved: SavedFact,
) -> Result<State, PeerError>
    ensures starts { Starts S.does S.refuses (Ask ScanTree (λ scan. scans mode saved scan)) (stores.old, hasher.old) result (stores.new, hasher.new) }
    ensures young { IfOk result (λ x. is_young x.phase ≡ true) }
    ensures steady { IfOk result (λ x. IsSteady x) }
    ensures own { IfOk result (λ x. (me : ℕ) → IsOwn me x) }
{
    match stores.scan_tree(hasher, rt, alloc) {
        Ok(scan) => scanned(stores, hasher, rt, alloc, mode, saved, &scan),
        Err(error) => Err(error),
    }
}

/// Continues from a kept fact with a tree of version two: the kept tree may still be of version one.
fn continued_in_two<H, S: Store<H>, R: Threads + Sync>(
    stores: &mut S,
    hasher: &mut H,
    rt: &R,
    alloc: Global,
    mode: Mode,
    saved: SavedFact,
) -> Result<State, PeerError>
    ensures starts { Starts S.does S.refuses (continues_in Two mode saved) (stores.old, hasher.old) result (stores.new, hasher.new) }
    ensures young { IfOk result (λ x. is_young x.phase ≡ true) }
    ensures steady { IfOk result (λ x. IsSteady x) }
    ensures own { IfOk result (λ x. (me : ℕ) → IsOwn me x) }
{
    match stores.open_tree(hasher, alloc, saved.seal, TreeVersion::One) {
        Ok(()) => rescanned(stores, hasher, rt, alloc, mode, saved),
        Err(error) => Err(error),
    }
}

/// Continues from a kept fact.
fn continued_in<H, S: Store<H>, R: Threads + Sync>(
    stores: &mut S,
    hasher: &mut H,
    rt: &R,
    alloc: Global,
    mode: Mode,
    saved: SavedFact,
) -> Result<State, PeerError>
    ensures starts { Starts S.does S.refuses (continues_in mode.tree mode saved) (stores.old, hasher.old) result (stores.new, hasher.new) }
    ensures young { IfOk result (λ x. is_young x.phase ≡ true) }
    ensures steady { IfOk result (λ x. IsSteady x) }
    ensures own { IfOk result (λ x. (me : ℕ) → IsOwn me x) }
{
    match mode.tree {
        TreeVersion::One => continued(stores, hasher, alloc, TreeVersion::One, mode, saved),
        TreeVersion::Two => continued_in_two(stores, hasher, rt, alloc, mode, saved),
    }
}

/// Starts from what was kept.
fn opened<H, S: Store<H>, R: Threads + Sync>(
    stores: &mut S,
    hasher: &mut H,
    rt: &R,
    alloc: Global,
    mode: Mode,
    opening: View,
    kept: Option<SavedFact>,
) -> Result<State, PeerError>
    ensures starts { Starts S.does S.refuses (opens mode opening kept) (stores.old, hasher.old) result (stores.new, hasher.new) }
    ensures young { IfOk result (λ x. is_young x.phase ≡ true) }
    ensures steady { IfOk result (λ x. IsSteady x) }
    ensures own { IfOk result (λ x. (me : ℕ) → IsOwn me x) }
{
    match kept {
        Some(saved) => continued_in(stores, hasher, rt, alloc, mode, saved),
        None => match stores.fresh_tree(hasher, alloc, mode.tree) {
            Ok(()) => seal_opening(stores, hasher, mode, opening),
            Err(error) => Err(error),
        },
    }
}

/// Rule 1: returns the state in which a peer starts in this mode over these stores, with the view
/// `opening` if they keep no fact. A kept tree of version one that is whole migrates to version two, if
/// that is the version of the mode; its nodes are hashed by threads.
///
/// # Errors
///
/// An error of a call of the stores, which then are as that call left them, or `Memory`.
pub fn start<H, S: Store<H>, R: Threads + Sync>(
    stores: &mut S,
    hasher: &mut H,
    rt: &R,
    alloc: Global,
    mode: Mode,
    opening: View,
) -> Result<State, PeerError>
    ensures starts { Starts S.does S.refuses (start_of mode opening) (stores.old, hasher.old) result (stores.new, hasher.new) }
    ensures young { IfOk result (λ x. is_young x.phase ≡ true) }
    ensures steady { IfOk result (λ x. IsSteady x) }
    ensures own { IfOk result (λ x. (me : ℕ) → IsOwn me x) }
{
    let kept = stores.load(hasher)?;
    opened(stores, hasher, rt, alloc, mode, opening, kept)
}
