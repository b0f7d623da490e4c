ghost use Rattle.std.specs.Prelude.{◌≤◌, ◌∷◌, ℕ, Bool, List, length};
ghost use Rattle.ens_base.specs.Lists.{◌∈◌};
ghost use Rattle.ens_base.specs.View.{IsPeer};
ghost use Rattle.stored_formats.specs.declared.saved.SavedFact.{SavedFact};
ghost use Rattle.peer_spec.specs.Drives.{MayCome, step_of};
ghost use Rattle.peer_state.specs.NoAllocation.{IsAllocationFree};
ghost use Rattle.peer_state.specs.declared.event.Event.{Event};
ghost use Rattle.peer_state.specs.declared.state.Mode.{Mode};
ghost use Rattle.peer_state.specs.declared.state.State.{State};
ghost use Rattle.peer_stores.specs.Stores.{stores_do, stores_refuse};
ghost use Rattle.peer_stores.specs.declared.stores.Stores.{Stores};
ghost use Rattle.register_model.specs.declared.note.Note.{Note};
ghost use Rattle.step_laws.specs.Promising.{BlamesTheFact, IsSave};
ghost use Rattle.step_laws.specs.Reached.{Reached};
ghost use Rattle.step_plans.specs.Plans.{Ending, Follows, Runs};

use environment::{Backend, NodeStore};
use fact_store::FactKeeper;
use hash_book::Hasher16;

/// On a Prepare, a Check or a Beat a peer that started calls the store of the fact alone: it saves its fact,
/// or calls nothing, and sends at most one message. So it asks neither its tree nor its backend nor the hasher.
pub fn promises_save_alone()
    ensures { (me : ℕ) (mode : Mode) (saved : SavedFact) (trusted : Bool) (event : Event) (events : List Event)
        (x : State) → IsPeer me → ((e : Event) → e ∈ (event ∷ events) → MayCome me e)
        → Reached me mode saved trusted events x → IsAllocationFree event
        → Follows IsSave (λ y out. length out.sends ≤ 1) (step_of me event x) }
{}

/// However the stores and the hasher answer, such a step ends well, or out of memory, or with a store fault that the
/// store of the fact counted; and it leaves the tree, the backend and the hasher as they were.
pub fn promises_blame_the_fact<B: Backend, N: NodeStore, F: FactKeeper, H: Hasher16>()
    ensures { (me : ℕ) (mode : Mode) (saved : SavedFact) (trusted : Bool) (event : Event) (events : List Event)
        (x : State) (s t : Stores B N F × H) (before after : List Note) (end : Ending State) → IsPeer me
        → ((e : Event) → e ∈ (event ∷ events) → MayCome me e) → Reached me mode saved trusted events x
        → IsAllocationFree event → Runs
        (stores_do B.may_answer B.fault_count N.may_answer N.top_record N.fault_count F.may_answer F.kept
        F.fault_count H.kept H.clashes H.fulls)
        (stores_refuse B.may_refuse B.fault_count N.may_answer N.may_refuse N.top_record N.fault_count F.may_refuse
        F.kept F.fault_count H.kept H.clashes H.fulls) (step_of me event x) s before end t after
        → BlamesTheFact F.fault_count s end t }
{}
