//! A text whose control characters are written by their numbers.

ghost use Rattle.std.specs.Prelude.{◌≡◌, ◌<◌, ◌++◌, length, false, IfOk, OnOk};
ghost use Rattle.std.specs.Fmt.{digit_glyph};
ghost use Rattle.command_input.specs.Escaped.{code_text, byte_text, is_wide_control, escaped};

use swap_base::{NoMemory, Piece, put};

fn hexadecimal_digit(digit: u8) -> u8
    requires { digit < 16 }
    ensures { result ≡ digit_glyph false digit }
{
    if digit < 10 {
        b'0' + digit
    } else {
        b'a' + (digit - 10)
    }
}

#[tactic(auto, using(crate::proofs::Codes::short_code, crate::proofs::Codes::long_code))]
fn put_code(out: &mut Vec<u8>, code: u8) -> Result<(), NoMemory>
    ensures { OnOk result (out.new.items ≡ out.old.items ++ code_text code) }
{
    let low = hexadecimal_digit(code % 16);
    if code < 16 {
        return put(
            out,
            &[Piece::Text("\\u{"), Piece::Bytes(&[low]), Piece::Text("}")],
        );
    }
    let high = hexadecimal_digit(code / 16);
    put(
        out,
        &[
            Piece::Text("\\u{"),
            Piece::Bytes(&[high, low]),
            Piece::Text("}"),
        ],
    )
}

#[tactic(auto, unfolding(crate::specs::Escaped::byte_text))]
fn put_byte(out: &mut Vec<u8>, byte: u8) -> Result<(), NoMemory>
    ensures { OnOk result (out.new.items ≡ out.old.items ++ byte_text byte) }
{
    if byte < 32 || byte == 127 {
        put_code(out, byte)
    } else {
        put(out, &[Piece::Bytes(&[byte])])
    }
}

/// Whether the two bytes are a control character in UTF-8.
fn is_wide_control(first: u8, second: u8) -> bool
    ensures { result ≡ is_wide_control first second }
{
    first == 0xc2 && (127 < second && second < 160)
}

/// Appends the first character, or a byte of it, and answers the rest of the text.
#[tactic(auto, unfolding(crate::specs::Escaped::escaped))]
fn put_first<'a>(out: &mut Vec<u8>, text: &'a [u8]) -> Result<&'a [u8], NoMemory>
    requires { 0 < length text.now }
    ensures written { IfOk result (λ rest. out.new.items ++ escaped rest.now ≡ out.old.items ++ escaped text.now) }
    ensures shorter { IfOk result (λ rest. length rest.now < length text.now) }
{
    if text.len() > 1 && is_wide_control(text[0], text[1]) {
        put_code(out, text[1])?;
        Ok(&text[2..])
    } else {
        put_byte(out, text[0])?;
        Ok(&text[1..])
    }
}

/// Appends a text, each control character as `\u{HEX}`.
pub(crate) fn put_escaped(out: &mut Vec<u8>, text: &[u8]) -> Result<(), NoMemory>
    ensures { OnOk result (out.new.items ≡ out.old.items ++ escaped text.now) }
{
    let mut rest = text;
    while !rest.is_empty() {
        rest = put_first(out, rest)?;
    }
    Ok(())
}
