//! The rules of a leader of the program are moves of the leader of the theory.
//!
//! `specs/Seen` gives the leader of the program (`leader`) as a leader of the theory (`role_laws`):
//! its epoch as a number, its seat with the answers that it owes, and for each key what is known, the
//! stage of the running call, and the calls that wait. A task for the next rule is seen as the stage
//! that it leads to. `specs/Follows` says what the answer of a rule has to agree with: the steps of
//! the abstract protocol are a move of the theory, from the leader as it was to the leader as it is;
//! the answers are owed, the notes are those that the steps add to the book, each message says what
//! holds, and the rule that comes next finds the task that it takes. `specs/Laws` has one law a rule.
//!
//! Rules 27 to 36 are shown, with the replies to what they ask. Rule 29 is shown for its two runs at
//! once, and rules 31 and 32 together with the first run of rule 35, which notes the proposal. Of
//! rule 5 the calls are shown, on all keys at once: the leader steps down, or the calls that are due
//! leave their queues and are owed a timeout, in order of arrival. Its messages are those of
//! elections. A leader that leaves owes each unanswered call a timeout (`leaders_leave`). Between two
//! rules without a task it is seen the same on each key, so the next rule may run on another one
//! (`leaders_are_seen`).
//!
//! The steps of a leader propose and settle versions and note reads, and its own peer acknowledges
//! what its tree showed when the rule began; they keep the ledger, the trees, and what is recorded of
//! calls (`leader_steps_keep`). Two other steps come before a rule: the call of rule 27, and the write
//! of a put into the tree of the leader's own peer, before rule 35 sees that the object is stored.
//!
//! Premises of the laws are what messages say, what the tree and the backend of the leader's own peer
//! show, and that this peer stands at the leader's epoch, trusts its tree and accepted the epoch; that
//! these hold in a world is not shown here, nor is the step of a peer that runs several rules.
#![tactic(auto)]

mod laws;

pub use laws::{leader_steps_keep, leaders_are_seen, leaders_leave, rules_are_moves};
