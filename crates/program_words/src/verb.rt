//! The first words of the commands.

ghost use Rattle.std.specs.Prelude.{◌≡◌};
ghost use Rattle.program_words.specs.Tables.{choices, needed_choices, parse_verb};

use crate::choice::Choice;

/// The first word of a command.
#[derive(Clone, Copy, Debug, PartialEq, Eq)]
pub(crate) enum Verb {
    Check,
    Run,
    Race,
    Audit,
    Make,
    Gen,
    Clear,
    Many,
}

/// The command that the first word asks for.
pub(crate) fn parse_verb(word: &str) -> Option<Verb>
    ensures { result ≡ parse_verb word.now }
{
    match word {
        "check" => Some(Verb::Check),
        "run" => Some(Verb::Run),
        "race" => Some(Verb::Race),
        "audit" => Some(Verb::Audit),
        "make" => Some(Verb::Make),
        "gen" => Some(Verb::Gen),
        "clear" => Some(Verb::Clear),
        "many" => Some(Verb::Many),
        _ => None,
    }
}

impl Verb {
    /// The options that may follow the word.
    pub(crate) fn choices(self) -> &'static [Choice]
        ensures { result.now ≡ choices self }
    {
        match self {
            Verb::Check | Verb::Audit | Verb::Make | Verb::Clear | Verb::Many => &[],
            Verb::Run => &[Choice::Transcript],
            Verb::Race => &[Choice::Ticks, Choice::Transcript],
            Verb::Gen => &[
                Choice::Seed,
                Choice::Parties,
                Choice::Events,
                Choice::Summary,
            ],
        }
    }

    /// The options that must follow the word.
    pub(crate) fn needed_choices(self) -> &'static [Choice]
        ensures { result.now ≡ needed_choices self }
    {
        match self {
            Verb::Gen => &[Choice::Seed, Choice::Parties, Choice::Events],
            _ => &[],
        }
    }
}
