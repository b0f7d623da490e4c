/// An error of a call that hands back its argument.
#[derive(Debug, Drop)]
pub struct Refused<T, E> {
    /// The cause.
    pub error: E,
    /// The argument.
    pub held: T,
}
