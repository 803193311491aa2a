//! Whether words may ask for a race.

ghost use Rattle.std.specs.Prelude.{◌≡◌, false, map, string_bytes};
ghost use Rattle.swap_commands.specs.Words.{AsksRace};

/// Whether the words may ask for a race, for which alone threads are started and waited for.
pub fn may_race(words: &Vec<String>) -> bool
    ensures { result ≡ false → ¬ AsksRace (map string_bytes words.now.items) }
{
    match words.first() {
        Some(word) => word.as_str() == "race",
        None => false,
    }
}
