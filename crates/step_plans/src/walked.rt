use phase_rows::Position;

/// The result of a walk down the tree. Damage is an answer, not an error.
#[derive(Debug, Drop)]
pub enum Walked<T> {
    /// What the walk looked for.
    Reached(T),
    /// The first position from the root that does not verify.
    Broken(Position),
}
