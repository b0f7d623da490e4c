use ens_base::View;

/// How much of the heading was read.
#[derive(Clone, Copy, Debug)]
pub(crate) enum Stage {
    /// No line.
    Blank,
    /// The first line.
    Titled,
    /// The first two lines.
    Counted,
    /// The whole heading: the number of peers, and the view with which the root opens.
    Running(u32, View),
}
