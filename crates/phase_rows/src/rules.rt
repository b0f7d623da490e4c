/// A rule of the phases that another rule can name to run next.
#[derive(Clone, Copy, Debug, PartialEq, Eq)]
pub enum PhaseRule {
    /// Rule 7: a running sync ends, and the peer probes. It asks the other members of its fact's
    /// views for their facts; then rule 9.
    BeginProbing,
    /// Rule 9: once a probing peer has heard a quorum of the best fact's views, rule 10 runs.
    EnoughHeard,
    /// Rule 10: the peer saves the ballot after the count as its own, and asks the members of the
    /// best fact's views to promise it; then rule 13. A peer that is in none of the next views
    /// follows, and so does one whose count is spent.
    Prepare,
    /// Rule 13: once a quorum of the base's views has promised its ballot, a preparing peer starts
    /// the epoch, or follows if it is in none of the base's next views.
    EnoughPromised,
    /// Rule 14: once a starting peer and a quorum of its epoch's views have accepted the epoch, the
    /// peer leads it.
    EnoughAccepted,
    /// Rule 25: a leader saves the change that is wanted as the second fact of its epoch, and sends
    /// it to the other peers that accepted the epoch.
    BeginChange,
    /// Rule 26: once a quorum has accepted the change and no call is unanswered, the epoch ends: the
    /// leader runs rule 10, or follows if it is in none of the next views.
    EndEpoch,
}

/// A rule of a leader that runs on one key.
#[derive(Clone, Copy, Debug, PartialEq, Eq)]
pub enum KeyRule {
    /// Rule 28: the running call of the key starts. What is known of the key decides it, or the key
    /// is read.
    StartCall,
    /// Rule 29: the members are asked in a new round what they have under the key; then rule 30.
    Read,
    /// Rule 30: once the replies are a quorum, the greatest entry among them says whether the
    /// command is applied, a write is proposed, the object that was read is written again, or the
    /// call is answered `lost`.
    EnoughReplies,
    /// Rule 31: a write takes the next version; then rule 35.
    Write,
    /// Rule 32: the object that was read takes the next version, and keeps its stamp and its value;
    /// then rule 35.
    Rewrite,
    /// Rule 33: the members are asked in a new round whether they are still at the epoch, before a
    /// reply is given without a round of reading.
    Check,
    /// Rule 34: after a read or a rewrite the command is applied to the settled object. A write is
    /// proposed, and a reply without a write is given at once.
    Apply,
    /// Rule 35: the proposed object goes into the peer's own tree and backend, and to the other
    /// members. It is settled once a quorum has acknowledged it.
    Put,
    /// Rule 36: after an answer the next call of the key starts.
    StartNextCall,
}
