/// A clock: how many microseconds have passed since a moment of its own. It should never go back; where it
/// does, what is to be sent again is only sent later.
pub trait TimeSource {
    /// Returns the time now.
    fn now(&mut self) -> u64;
}
