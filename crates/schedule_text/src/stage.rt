use crate::form::Form;
use ens_base::View;

/// How much of the heading was read.
#[derive(Clone, Copy, Debug)]
pub(crate) enum Stage {
    /// No line.
    Blank,
    /// The first line: the form.
    Titled(Form),
    /// The first two lines: the form, and the number of peers.
    Counted(Form, u32),
    /// The whole heading: the form, the number of peers, and the view that they open with.
    Running(Form, u32, View),
}
