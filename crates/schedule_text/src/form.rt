ghost use Rattle.std.specs.Prelude.{◌≡◌};
ghost use Rattle.schedule_text.specs.Forms.{ensemble_line, form_named, is_deep, is_sealed};

/// The form of an ensemble, which the first line of a schedule names: whether its peers keep a seal, the
/// digest of the top record of their tree, in their saved fact, and which version their trees have.
#[derive(Clone, Copy, Debug, PartialEq, Eq)]
pub enum Form {
    /// `ensemble 1`: a start has sealing on if a line `upgrade` of its peer stands before it. Trees have
    /// version 1 until a line `deepen` takes effect.
    One,
    /// `ensemble 2`: every start has sealing on. Trees have version 1 until a line `deepen` takes effect.
    Two,
    /// `ensemble 3`: every start has sealing on, and trees have version 2 from the opening on.
    Three,
}

impl Form {
    const ALL: [Form; 3] = [Form::One, Form::Two, Form::Three];

    /// The form whose first line this is.
    pub(crate) fn from_line(line: &[u8]) -> Option<Form>
        ensures { result ≡ form_named line.now }
    {
        Form::ALL
            .iter()
            .copied()
            .find(|form| form.line().as_bytes() == line)
    }

    /// The first line of a schedule of this form, without its line feed.
    pub(crate) fn line(self) -> &'static str
        ensures { result.now ≡ ensemble_line self }
    {
        match self {
            Form::One => "ensemble 1",
            Form::Two => "ensemble 2",
            Form::Three => "ensemble 3",
        }
    }

    /// Returns whether every start has sealing on.
    pub fn is_sealed(self) -> bool
        ensures { result ≡ is_sealed self }
    {
        match self {
            Form::One => false,
            Form::Two | Form::Three => true,
        }
    }

    /// Returns whether trees have version 2 from the opening on.
    pub fn is_deep(self) -> bool
        ensures { result ≡ is_deep self }
    {
        match self {
            Form::One | Form::Two => false,
            Form::Three => true,
        }
    }
}
