//! Digests and signatures, in hexadecimal digits of lower case.

ghost use Rattle.std.specs.Prelude.{◌≡◌, ◌<◌, ◌*◌, ℕ, Ok, Some, length, true};
ghost use Rattle.std.specs.List.{list_all};
ghost use Rattle.hex.specs.Hex.{decode_sized, hex_digit_value, pair_value};
ghost use Rattle.swap_base.specs.Fault.{Gives};
ghost use Rattle.transcript_book.specs.Reading.{lower_hex_digest, is_lower_digit, parse_signature};

use crate::number::{WordFault, misspelt};
use hash_signature::{SIGNATURE_BYTES, Sig};
use hex::FromHex;
use swap_base::Digest;

fn is_lower_digit(byte: u8) -> bool
    ensures { result ≡ is_lower_digit byte }
{
    (b'0' <= byte && byte <= b'9') || (b'a' <= byte && byte <= b'f')
}

/// Whether all bytes are digits of lower case. It goes on behind one that isn't, since many are
/// then told at once.
fn are_lower_digits(word: &[u8]) -> bool
    ensures { result ≡ list_all is_lower_digit word.now }
{
    let mut good = true;
    'digits: for byte in word {
        good = good & is_lower_digit(*byte);
    }
    good
}

/// The digest that a field says.
pub fn lower_hex_digest(word: &[u8]) -> Result<Digest, WordFault>
    ensures { Gives (λ d. d) result (lower_hex_digest word.now) }
{
    if !are_lower_digits(word) {
        return Err(misspelt());
    }
    match <[u8; 32] as FromHex>::from_hex(word) {
        Ok(digest) => Ok(digest),
        Err(_) => Err(misspelt()),
    }
}

/// The value of a digit of lower case. Which of the two it is can't be foreseen, so it is better
/// chosen than branched on.
#[tactic(auto, using(crate::proofs::Lower::value_is, crate::proofs::Lower::lower_low, crate::proofs::Lower::lower_high))]
fn value(digit: u8) -> u8
    requires { is_lower_digit digit ≡ true }
    ensures exact { hex_digit_value digit ≡ Some result }
    ensures few { result < 16 }
{
    if digit <= b'9' {
        digit - b'0'
    } else {
        digit - 87
    }
}

/// The byte of two digits of lower case.
fn pair(high: u8, low: u8) -> u8
    requires high { is_lower_digit high ≡ true }
    requires low { is_lower_digit low ≡ true }
    ensures { (i : ℕ) → pair_value high low i ≡ Ok result }
{
    let first = value(high);
    let second = value(low);
    first * 16 + second
}

/// The bytes of a signature's digits.
fn signature_bytes(word: &[u8]) -> [u8; SIGNATURE_BYTES]
    requires lower { list_all is_lower_digit word.now ≡ true }
    requires sized { length word.now ≡ 4288 }
    ensures { decode_sized word.now 2144 ≡ Ok result }
{
    let mut out = [0u8; SIGNATURE_BYTES];
    'bytes: for i in 0..SIGNATURE_BYTES {
        out[i] = pair(word[2 * i], word[2 * i + 1]);
    }
    out
}

/// The signature that a field says.
#[tactic(auto, using(crate::proofs::Lower::wrong_length))]
pub(crate) fn parse_signature(word: &[u8]) -> Result<Sig, WordFault>
    ensures { Gives (λ s. s) result (parse_signature word.now) }
{
    if word.len() != 2 * SIGNATURE_BYTES || !are_lower_digits(word) {
        return Err(misspelt());
    }
    Ok(Sig::from_bytes(&signature_bytes(word)))
}
