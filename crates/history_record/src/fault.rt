use ens_base::Key;

/// The first clause of legality that the history of a key violates.
#[derive(Debug, Drop)]
pub struct Fault {
    /// The key.
    pub key: Key,
    /// The clause: 1, an id occurs again or is not that of a call on the key; 2, a completed call does not
    /// occur, or a refused one does; 3, the order is no run of one register with the printed replies; 4, a
    /// call comes before one that had been completed before it began.
    pub clause: u8,
    /// The id at which the history violates the clause.
    pub id: u64,
}
