//! The options of the commands.

ghost use Rattle.std.specs.Prelude.{◌≡◌};
ghost use Rattle.program_words.specs.Tables.{choice_range, choice_word};

/// An option that a command may have.
#[derive(Clone, Copy, Debug, PartialEq, Eq)]
pub(crate) enum Choice {
    Ticks,
    Transcript,
    Seed,
    Parties,
    Events,
    Summary,
}

impl Choice {
    /// The word that names the option.
    pub(crate) fn word(self) -> &'static str
        ensures { result.now ≡ choice_word self }
    {
        match self {
            Choice::Ticks => "--ticks",
            Choice::Transcript => "--transcript",
            Choice::Seed => "--seed",
            Choice::Parties => "--parties",
            Choice::Events => "--events",
            Choice::Summary => "--summary",
        }
    }

    /// The least and the greatest number that the option takes, where it takes one.
    pub(crate) fn range(self) -> Option<(u32, u32)>
        ensures { result ≡ choice_range self }
    {
        match self {
            Choice::Ticks => Some((1, 1000)),
            Choice::Seed => Some((0, 4294967295)),
            Choice::Parties => Some((2, 24)),
            Choice::Events => Some((0, 200000)),
            Choice::Transcript | Choice::Summary => None,
        }
    }
}
