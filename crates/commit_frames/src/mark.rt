ghost use Rattle.std.specs.Prelude.{◌≡◌, ◌==◌, MatchOption, ℕ};
ghost use Rattle.commit_frames.specs.Headers.{mark_byte};
ghost use Rattle.commit_frames.specs.declared.mark.Mark.{Mark};

/// What a frame does.
#[derive(Clone, Copy, Debug, PartialEq, Eq)]
pub enum Mark {
    /// Commits its payload, and the parts before it.
    Commit,
    /// Is a part of a commit, and counts once a commit follows.
    Part,
    /// Commits as `Commit` does. The next frame stands in the other log.
    Turn,
    /// Takes back the parts since the last commit.
    Cancel,
}

impl Mark {
    /// Returns the first byte of a frame with this mark.
    pub fn byte(self) -> u8
        ensures { result ≡ mark_byte self }
    {
        match self {
            Mark::Commit => 0xC7,
            Mark::Part => 0xB4,
            Mark::Turn => 0xDA,
            Mark::Cancel => 0xAD,
        }
    }

    /// Returns the mark with this byte, if there is one.
    pub fn of(byte: u8) -> Option<Mark>
        ensures { MatchOption result ((mark : Mark) → mark_byte mark ≡ byte → ⊥) (λ mark. mark_byte mark ≡ byte) }
    {
        match byte {
            0xC7 => Some(Mark::Commit),
            0xB4 => Some(Mark::Part),
            0xDA => Some(Mark::Turn),
            0xAD => Some(Mark::Cancel),
            _ => None,
        }
    }
}
