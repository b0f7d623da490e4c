use history_record::Fault;

/// The report of an audit.
#[derive(Debug, Drop)]
pub struct Report {
    /// How many keys the calls name.
    pub keys: u64,
    /// How many of them have a legal history.
    pub legal: u64,
    /// A fault for each other key, the keys ascending.
    pub faults: Vec<Fault>,
}
