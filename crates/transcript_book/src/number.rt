//! Numbers in decimal, without leading zeros.

ghost use Rattle.std.specs.Prelude.{◌≡◌, ◌<◌, ◌^◌, IfOk};
ghost use Rattle.swap_base.specs.Fault.{Gives};
ghost use Rattle.transcript_book.specs.Reading.{decimal_number, bounded_number, continue_reading};
ghost use Rattle.transcript_book.specs.Taking.{append_digit};

use crate::said::Misspelling;
use swap_base::Fault;

/// Why a field says nothing, or want of memory.
pub type WordFault = Fault<Misspelling>;

/// The fault of a line that no writer writes.
pub fn misspelt() -> WordFault
    ensures { result ≡ Fault.Refused Misspelling.Misspelt }
{
    Fault::Refused(Misspelling::Misspelt)
}

fn append_digit(value: u64, byte: u8) -> Result<u64, WordFault>
    ensures { Gives (λ n. n) result (append_digit value byte) }
{
    if byte < b'0' || byte > b'9' {
        return Err(misspelt());
    }
    let digit = (byte - b'0') as u64;
    if value > (u64::MAX - digit) / 10 {
        return Err(misspelt());
    }
    Ok(value * 10 + digit)
}

fn continue_reading(digits: &[u8]) -> Result<u64, WordFault>
    ensures { Gives (λ n. n) result (continue_reading 0 digits.now) }
{
    let mut value: u64 = 0;
    for byte in digits {
        value = append_digit(value, *byte)?;
    }
    Ok(value)
}

/// The number that a field says, below 2^64.
pub fn decimal_number(word: &[u8]) -> Result<u64, WordFault>
    ensures { Gives (λ n. n) result (decimal_number word.now) }
{
    match word {
        [] => Err(misspelt()),
        [b'0'] => Ok(0),
        [b'0', ..] => Err(misspelt()),
        _ => continue_reading(word),
    }
}

/// The number that a field says, below a limit.
pub fn read_bounded(limit: u64, word: &[u8]) -> Result<u64, WordFault>
    ensures exact { Gives (λ n. n) result (bounded_number limit word.now) }
    ensures below { IfOk result (λ n. n < limit) }
{
    let n = decimal_number(word)?;
    if n < limit { Ok(n) } else { Err(misspelt()) }
}

/// The number that a field says, below 2^32.
pub(crate) fn parse_small(word: &[u8]) -> Result<u32, WordFault>
    ensures { Gives (λ n. n) result (bounded_number (2 ^ 32) word.now) }
{
    Ok(read_bounded(4_294_967_296, word)? as u32)
}

/// The number that a field says, below 256.
pub(crate) fn parse_byte(word: &[u8]) -> Result<u8, WordFault>
    ensures { Gives (λ n. n) result (bounded_number 256 word.now) }
{
    Ok(read_bounded(256, word)? as u8)
}
