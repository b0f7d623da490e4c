ghost use Rattle.std.specs.Prelude.{◌≡◌, IfOk, IfErr};
ghost use Rattle.wire_frames.specs.TreeNode.{IsPosition};
ghost use Rattle.tree_sync.specs.Rows.{row_start, row_resume, row_take};
ghost use Rattle.tree_sync.specs.Syncs.{outcome_of, MayBeBuilt};

use ens_base::{Bytes, PeerId, Seq};
use leader::Outgoing;
use std::alloc::Global;
use step_plans::PeerError;
use stored_formats::{Change, Fact};
use tree_sync::{Give, Outcome, RunningSync, SyncError};
use wire_frames::{Scan, TreeVersion};

/// What the sync has come to. Fails only when out of memory.
pub fn sync_outcome(alloc: Global, running: &RunningSync) -> Result<Outcome, PeerError>
    ensures ok { IfOk result (λ o. o ≡ outcome_of running.now.sync) }
    ensures above { IfOk result MayBeBuilt }
    ensures memory { IfErr result (λ e. e ≡ PeerError.Memory) }
{
    match running.outcome(alloc) {
        Ok(outcome) => Ok(outcome),
        Err(SyncError::Memory) => Err(PeerError::Memory),
    }
}

/// Begins a sync, and returns it with its messages. Fails only when out of memory.
pub fn start_sync(
    alloc: Global,
    new: Fact,
    me: PeerId,
    trusted: bool,
    scan: Scan,
) -> Result<(RunningSync, Seq<Outgoing>), PeerError>
    ensures ok { IfOk result (λ r. r ≡ row_start new me trusted scan) }
    ensures memory { IfErr result (λ e. e ≡ PeerError.Memory) }
{
    match RunningSync::start(alloc, new, me, trusted, scan) {
        Ok(started) => Ok(started),
        Err(SyncError::Memory) => Err(PeerError::Memory),
    }
}

/// Resumes a sync, and returns its messages. Fails only when out of memory.
pub fn resume_sync(alloc: Global, running: &mut RunningSync) -> Result<Seq<Outgoing>, PeerError>
    ensures ok { IfOk result (λ sends. (running.new, sends) ≡ row_resume running.old) }
    ensures memory { IfErr result (λ e. e ≡ PeerError.Memory) }
{
    match running.resume(alloc) {
        Ok(sends) => Ok(sends),
        Err(SyncError::Memory) => Err(PeerError::Memory),
    }
}

/// Lets a sync take an answer, in the version of the own tree, and returns its messages. Fails only when
/// out of memory.
pub fn take_give(
    alloc: Global,
    tree: TreeVersion,
    running: &mut RunningSync,
    from: PeerId,
    give: &Give,
    own: &Option<Bytes>,
) -> Result<Seq<Outgoing>, PeerError>
    requires { IsPosition tree give.now.question.position }
    ensures ok { IfOk result (λ sends. (running.new, sends) ≡ row_take tree from give.now own.now running.old) }
    ensures memory { IfErr result (λ e. e ≡ PeerError.Memory) }
{
    match running.take(alloc, tree, from, give, own) {
        Ok(sends) => Ok(sends),
        Err(SyncError::Memory) => Err(PeerError::Memory),
    }
}
