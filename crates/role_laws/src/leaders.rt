ghost use Rattle.std.specs.Prelude.{◌≡◌, ℕ, List, [], ◌∷◌};
ghost use Rattle.protocol_laws.specs.Protocol.{Step, IsRun, state_after};
ghost use Rattle.role_laws.specs.LeaderLaws.{HasLed, HasRewritten, KeyLaws, LeadersMove, PeersReply, PutIsFound, RowMoves, TablesStay};
ghost use Rattle.role_laws.specs.Tables.{Ghosts, Known, Seat};
ghost use Rattle.role_laws.specs.Roles.{RolesOpen, RolesMove};
ghost use Rattle.role_laws.specs.Rows.{RepliesMove, StartsMove};

/// In each state of a run steps of others, and moves of other leaders, keep the table of a leader.
/// What rounds and messages said stays so. A peer that stands at an epoch says in its replies what a
/// leader relies on.
pub fn tables_stay()
    ensures stay { (view : List ℕ) (steps : List Step) → IsRun view steps → TablesStay (state_after view steps) }
    ensures peers { (view : List ℕ) (steps : List Step) (q d : ℕ) → IsRun view steps → (state_after view steps).objects.ledger.ballot q ≡ d → PeersReply (state_after view steps) q d }
{}

/// In each state of a run what is known of a key gives its register and the parent of its next
/// version, and each move of a row that is no step of the protocol keeps what the row says.
pub fn rows_move()
    ensures keys { (view : List ℕ) (steps : List Step) (g : Ghosts) (d : ℕ) (k : List ℕ) → IsRun view steps → KeyLaws (state_after view steps) g d k }
    ensures rows { (view : List ℕ) (steps : List Step) (g : Ghosts) (p : Seat) (d : ℕ) (k : List ℕ) (known : Known)
        (rest : List ℕ) → IsRun view steps → RowMoves (state_after view steps) g p d k known rest }
{}

/// In each state of a run the guards of the steps of each move of a leader are met, the steps are the
/// leader's own, and its table holds after them.
pub fn leaders_move()
    ensures { (view : List ℕ) (steps : List Step) → IsRun view steps → LeadersMove (state_after view steps) }
{}

/// A table that is kept as a list is a map: a row that is put into it is found under its key, and
/// every other key keeps its row.
pub fn tables_are_lists()
    ensures { PutIsFound }
{}

/// There is a run in which a leader reads, writes and checks, and one in which a leader rewrites what
/// the epoch before had written. So the premises of the laws can be met.
pub fn moves_can_be_met()
    ensures led { HasLed (1 ∷ []) }
    ensures rewritten { HasRewritten (1 ∷ []) }
{}

/// In each state of a run the roles of all peers, all rounds and all messages still agree with the
/// state after each step of no table, after each move of a leader, and when peers start, lead, leave
/// and send.
pub fn roles_move()
    ensures opens { RolesOpen }
    ensures moves { (view : List ℕ) (steps : List Step) → IsRun view steps → RolesMove (state_after view steps) }
{}

/// In each state of a run the start of a call is a move of the leader, and so is what it does when
/// replies to a read have come.
pub fn replies_move()
    ensures starts { (view : List ℕ) (steps : List Step) → IsRun view steps → StartsMove (state_after view steps) }
    ensures replies { (view : List ℕ) (steps : List Step) → IsRun view steps → RepliesMove (state_after view steps) }
{}
