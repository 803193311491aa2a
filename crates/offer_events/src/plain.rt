//! Event lines in a plain form, which are read where they stand.

ghost use Rattle.std.specs.Prelude.{◌≡◌, ◌≢◌, ◌<◌, ◌≤◌, ◌^◌, ℕ, true, not, List, [], ◌∷◌, ◌++◌, position, decimal, MatchOption, IsTrue};
ghost use Rattle.std.specs.List.{list_all};
ghost use Rattle.offer_events.specs.Plain.{is_plain_byte, SaysRawEvent};

use crate::raw::RawEvent;
use offer_moves::TextRef;

fn text_behind_prefix<'a>(text: &'a [u8], prefix: &[u8]) -> Option<&'a [u8]>
    ensures { MatchOption result ((rest : List ℕ) → text.now ≢ prefix.now ++ rest) (λ rest. text.now ≡ prefix.now ++ rest.now) }
{
    text.strip_prefix(prefix)
}

fn is_closed(text: &[u8]) -> bool
    ensures { IsTrue result → text.now ≡ 125 ∷ [] }
{
    matches!(text, [b'}'])
}

/// The number after its first digit was read, and the text behind it.
fn scan_number(first: u8, text: &[u8]) -> (u64, &[u8])
    requires digit { (49 ≤ first) × (first ≤ 57) }
    ensures digits { first ∷ text.now ≡ decimal result.0 ++ result.1.now }
    ensures small { result.0 < 10 ^ 19 }
{
    let mut value = (first - b'0') as u64;
    let mut rest = text;
    while let [digit @ b'0'..=b'9', after @ ..] = rest {
        if value >= 1_000_000_000_000_000_000 {
            break;
        }
        value = value * 10 + (*digit - b'0') as u64;
        rest = after;
    }
    (value, rest)
}

/// The number of up to 19 digits that a text begins with, and what follows it.
fn number(text: &[u8]) -> Option<(u64, &[u8])>
    ensures digits { MatchOption result (Unit {0}) (λ p. text.now ≡ decimal p.0 ++ p.1.now) }
    ensures small { MatchOption result (Unit {0}) (λ p. p.0 < 10 ^ 19) }
{
    match text {
        [b'0', rest @ ..] => Some((0, rest)),
        [first @ b'1'..=b'9', rest @ ..] => Some(scan_number(*first, rest)),
        _ => None,
    }
}

fn is_plain(byte: u8) -> bool
    ensures { result ≡ is_plain_byte byte }
{
    32 <= byte && byte <= 126 && byte != b'"' && byte != b'\\'
}

fn plain_end(text: &[u8]) -> Option<usize>
    ensures { result ≡ position (λ x. not (is_plain_byte x)) text.now }
{
    text.iter().position(|byte| !is_plain(*byte))
}

/// The plain text up to a quote, and what follows the quote.
fn name(text: &[u8]) -> Option<(&[u8], &[u8])>
    ensures quoted { MatchOption result (Unit {0}) (λ p. text.now ≡ p.0.now ++ 34 ∷ p.1.now) }
    ensures plain { MatchOption result (Unit {0}) (λ p. list_all is_plain_byte p.0.now ≡ true) }
{
    let end = plain_end(text)?;
    if text[end] != b'"' {
        return None;
    }
    Some((&text[..end], &text[end + 1..]))
}

fn split_number<'a>(text: &'a [u8], prefix: &[u8]) -> Option<(u64, &'a [u8])>
    ensures digits { MatchOption result (Unit {0}) (λ p. text.now ≡ prefix.now ++ (decimal p.0 ++ p.1.now)) }
    ensures small { MatchOption result (Unit {0}) (λ p. p.0 < 10 ^ 19) }
{
    number(text_behind_prefix(text, prefix)?)
}

fn split_name<'a>(text: &'a [u8], prefix: &[u8]) -> Option<(&'a [u8], &'a [u8])>
    ensures quoted { MatchOption result (Unit {0}) (λ p. text.now ≡ prefix.now ++ (p.0.now ++ 34 ∷ p.1.now)) }
    ensures plain { MatchOption result (Unit {0}) (λ p. list_all is_plain_byte p.0.now ≡ true) }
{
    name(text_behind_prefix(text, prefix)?)
}

/// `{"tick":N}` and `{"tick":N,"by":N}`.
fn tick_first(text: &[u8]) -> Option<RawEvent<'_>>
    ensures { MatchOption result (Unit {0}) (λ e. (line : ℕ) → SaysRawEvent line text.now e) }
{
    let (arc, rest) = split_number(text, b"{\"tick\":")?;
    if is_closed(rest) {
        return Some(RawEvent::Tick { arc, by: None });
    }
    let (heights, end) = split_number(rest, b",\"by\":")?;
    if !is_closed(end) {
        return None;
    }
    let by = Some(heights);
    Some(RawEvent::Tick { arc, by })
}

/// `{"by":N,"tick":N}`.
fn by_first(text: &[u8]) -> Option<RawEvent<'_>>
    ensures { MatchOption result (Unit {0}) (λ e. (line : ℕ) → SaysRawEvent line text.now e) }
{
    let (heights, rest) = split_number(text, b"{\"by\":")?;
    let (arc, end) = split_number(rest, b",\"tick\":")?;
    if !is_closed(end) {
        return None;
    }
    let by = Some(heights);
    Some(RawEvent::Tick { arc, by })
}

/// `{"look":"NAME","arc":N}`.
fn look_first(text: &[u8]) -> Option<RawEvent<'_>>
    ensures { MatchOption result (Unit {0}) (λ e. (line : ℕ) → SaysRawEvent line text.now e) }
{
    let (name, rest) = split_name(text, b"{\"look\":\"")?;
    let (arc, end) = split_number(rest, b",\"arc\":")?;
    if !is_closed(end) {
        return None;
    }
    Some(RawEvent::Look {
        name: TextRef::new(name),
        arc,
    })
}

/// `{"arc":N,"look":"NAME"}`.
fn arc_first(text: &[u8]) -> Option<RawEvent<'_>>
    ensures { MatchOption result (Unit {0}) (λ e. (line : ℕ) → SaysRawEvent line text.now e) }
{
    let (arc, rest) = split_number(text, b"{\"arc\":")?;
    let (name, end) = split_name(rest, b",\"look\":\"")?;
    if !is_closed(end) {
        return None;
    }
    Some(RawEvent::Look {
        name: TextRef::new(name),
        arc,
    })
}

/// `{"act":"NAME"}`.
fn act_alone(text: &[u8]) -> Option<RawEvent<'_>>
    ensures { MatchOption result (Unit {0}) (λ e. (line : ℕ) → SaysRawEvent line text.now e) }
{
    let (name, end) = split_name(text, b"{\"act\":\"")?;
    if !is_closed(end) {
        return None;
    }
    Some(RawEvent::Act {
        name: TextRef::new(name),
    })
}

/// The event of a line in a plain form: no blanks, no escapes, and numbers of up to 19 digits.
/// `None` says nothing of the line.
pub(crate) fn plain_event(text: &[u8]) -> Option<RawEvent<'_>>
    ensures { MatchOption result (Unit {0}) (λ e. (line : ℕ) → SaysRawEvent line text.now e) }
{
    match text.get(3)? {
        b'i' => tick_first(text),
        b'y' => by_first(text),
        b'o' => look_first(text),
        b'r' => arc_first(text),
        b'c' => act_alone(text),
        _ => None,
    }
}
