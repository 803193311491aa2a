//! What the words of the program `party` ask for.

ghost use Rattle.std.specs.Prelude.{◌≡◌, map, string_bytes};
ghost use Rattle.party_main.specs.Words.{nameless_command, words_party_command, command_input_limit, judge_command, long_command, named_command};

use offer_moves::TextRef;
use party_judge::Form;

/// The most bytes of an input of `keys`, `deal` or `terms`.
///
/// The longest that isn't refused has fewer than a third as many: a header line of 65,536 bytes and
/// 1,024 lines of context of 256 bytes, with their line feeds, come to 328,705.
pub const SHORT_LIMIT: usize = 1_048_576;

/// The most bytes of an input of `next`.
///
/// The largest deal has 128 arcs, all of them next to one party, and a ledger takes at most 32
/// entries of a party. The line of an unlock has at most 137,500 bytes: 32 signatures of 4,288
/// digits, 32 numbers of parties, a secret and the words around them. So the party's own calls come
/// to 563,200,000 bytes at most, those that were refused and made again too. The accepted unlocks
/// are 8 a ledger, and among these; 8 kept hashkeys come to 1,100,000 bytes, header and context to
/// 328,705, and publishes, claims, refunds and ticks to less than 1,000,000. That is less than 540
/// MiB.
pub const NEXT_LIMIT: usize = 566_231_040;

/// The most bytes of an input of `judge`.
///
/// The largest deal has 128 arcs and 8 locks, so at most 1,024 unlocks are accepted. Their lines
/// come to 140,800,000 bytes at most, by the lengths that `next` goes by. Header and context come to
/// 328,705, and 32 lines `agreed` of 90 bytes to 2,880. Other calls, refused ones too, and ticks
/// come to less than 8,000,000, where successive ticks stand in one line. That is less than 144 MiB.
/// Unlocks that were refused are beyond it: they change no ledger, so they may be left out, with
/// their line counted off.
pub const JUDGE_LIMIT: usize = 150_994_944;

/// What the words ask for. Each command but `deal` and `judge` has the name of a party.
#[derive(Debug, Drop)]
pub enum Command<'a> {
    /// The party's row, of its seed.
    Keys(TextRef<'a>),
    /// A deal's header line, of everybody's rows.
    Deal,
    /// What the party agrees to.
    Terms(TextRef<'a>),
    /// What is due for the party.
    Next(TextRef<'a>),
    /// What is found of all ledgers, in either form.
    Judge(Form),
}

fn nameless_command<'a>(word: &[u8]) -> Option<Command<'a>>
    ensures { result ≡ nameless_command word.now }
{
    if word == b"deal".as_slice() {
        Some(Command::Deal)
    } else if word == b"judge".as_slice() {
        Some(Command::Judge(Form::Lines))
    } else {
        None
    }
}

fn named_command<'a>(word: &[u8], name: &'a [u8]) -> Option<Command<'a>>
    ensures { result ≡ named_command word.now name.now }
{
    if word == b"keys".as_slice() {
        Some(Command::Keys(TextRef::new(name)))
    } else if word == b"terms".as_slice() {
        Some(Command::Terms(TextRef::new(name)))
    } else if word == b"next".as_slice() {
        Some(Command::Next(TextRef::new(name)))
    } else {
        None
    }
}

fn judge_command<'a>(option: &[u8]) -> Option<Command<'a>>
    ensures { result ≡ judge_command option.now }
{
    if option == b"--json".as_slice() {
        Some(Command::Judge(Form::Json))
    } else {
        None
    }
}

/// The commands of two words. Behind `judge` stands its option, and behind any other a name.
fn long_command<'a>(word: &[u8], further: &'a [u8]) -> Option<Command<'a>>
    ensures { result ≡ long_command word.now further.now }
{
    if word == b"judge".as_slice() {
        judge_command(further)
    } else {
        named_command(word, further)
    }
}

/// What the words ask for, if they are a command's.
pub(crate) fn words_party_command<'a>(words: &'a [String]) -> Option<Command<'a>>
    ensures { result ≡ words_party_command (map string_bytes words.now) }
{
    match words {
        [word] => nameless_command(word.as_bytes()),
        [word, further] => long_command(word.as_bytes(), further.as_bytes()),
        _ => None,
    }
}

/// The most bytes that are read for a command.
pub(crate) fn command_input_limit(command: &Command<'_>) -> usize
    ensures { result ≡ command_input_limit command.now }
{
    match command {
        Command::Next(_) => NEXT_LIMIT,
        Command::Judge(_) => JUDGE_LIMIT,
        _ => SHORT_LIMIT,
    }
}
