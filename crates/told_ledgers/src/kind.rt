//! What a line of a ledger is, by its words alone.

ghost use Rattle.std.specs.Prelude.{◌≡◌, [], ℕ, decimal, drop};
ghost use Rattle.transcript_book.specs.Between.{separated_parts};
ghost use Rattle.told_ledgers.specs.Words.{ends_accepted, ends_unfunded, foreign_kind, is_repeatable, lacks_funds, line_kind, nth_word, own_kind};

use transcript_book::Parts;

/// What a line of a ledger is to a party.
#[derive(Clone, Copy)]
pub enum Kind {
    /// A call of the party, a tick, or no entry at all: it is read.
    Read,
    /// A call of the party that was refused, and that it may make again.
    Refused,
    /// A call of somebody else that wasn't accepted, or a transfer.
    Noise,
    /// Somebody else's accepted publish.
    Publish,
    /// Another accepted call of somebody else.
    Accepted,
}

/// Takes the next word, or none where there is no further one.
fn next_word<'a>(words: &mut Parts<'a>) -> &'a [u8]
    ensures word { result.now ≡ nth_word 0 words.old }
    ensures rest { words.new ≡ drop 1 words.old }
{
    match words.next() {
        Some(word) => word,
        None => b"".as_slice(),
    }
}

/// Whether the last two words say that a call was accepted.
fn ends_accepted(line: &[u8]) -> bool
    ensures { result ≡ ends_accepted (separated_parts 32 line.now) }
{
    let mut words = Parts::new(b' ', line);
    let mut is_sign = false;
    let mut is_accepted = false;
    'words: while let Some(word) = words.next() {
        is_accepted = is_sign && word == b"accepted".as_slice();
        is_sign = word == b"=".as_slice();
    }
    is_accepted
}

/// Whether the last three words say that a sender's funds were lacking.
fn ends_unfunded(line: &[u8]) -> bool
    ensures { result ≡ ends_unfunded (separated_parts 32 line.now) }
{
    let mut words = Parts::new(b' ', line);
    let mut is_sign = false;
    let mut is_lacking = false;
    let mut is_unfunded = false;
    'words: while let Some(word) = words.next() {
        is_unfunded = is_lacking;
        is_lacking = is_sign && word == b"NoFunds".as_slice();
        is_sign = word == b"=".as_slice();
    }
    is_unfunded
}

/// Whether the word is that of a call that its party may make again where it was refused.
fn is_repeatable(call: &[u8]) -> bool
    ensures { result ≡ is_repeatable call.now }
{
    call == b"unlock".as_slice() || call == b"claim".as_slice() || call == b"refund".as_slice()
}

/// Whether the line is that of a publish, whose third word is given, for which funds were lacking.
fn lacks_funds(call: &[u8], line: &[u8]) -> bool
    requires { call.now ≡ nth_word 2 (separated_parts 32 line.now) }
    ensures { result ≡ lacks_funds (separated_parts 32 line.now) }
{
    call == b"publish".as_slice() && ends_unfunded(line)
}

/// What a call of the party is, whose third word is given.
fn own_kind(call: &[u8], line: &[u8]) -> Kind
    requires { call.now ≡ nth_word 2 (separated_parts 32 line.now) }
    ensures { result ≡ own_kind (separated_parts 32 line.now) }
{
    if (is_repeatable(call) || lacks_funds(call, line)) && !ends_accepted(line) {
        Kind::Refused
    } else {
        Kind::Read
    }
}

/// What a call of somebody else is, whose third word is given.
fn foreign_kind(call: &[u8], line: &[u8]) -> Kind
    requires { call.now ≡ nth_word 2 (separated_parts 32 line.now) }
    ensures { result ≡ foreign_kind (separated_parts 32 line.now) }
{
    if !ends_accepted(line) || call == b"transfer".as_slice() {
        Kind::Noise
    } else if call == b"publish".as_slice() {
        Kind::Publish
    } else {
        Kind::Accepted
    }
}

/// What the line is to the party whose number is `own`, in decimal. The line's end is looked at
/// only where the line is a call.
#[tactic(auto, using(crate::proofs::Words::nth_next))]
pub(crate) fn line_kind(own: &[u8], line: &[u8]) -> Kind
    ensures { (v : ℕ) → own.now ≡ decimal v → result ≡ line_kind v (separated_parts 32 line.now) }
{
    let mut words = Parts::new(b' ', line);
    if next_word(&mut words) != b"c".as_slice() {
        return Kind::Read;
    }
    let sender = next_word(&mut words);
    let call = next_word(&mut words);
    if sender == own {
        own_kind(call, line)
    } else {
        foreign_kind(call, line)
    }
}
