//! The lines of a file.

ghost use Rattle.std.specs.Prelude.{◌≡◌, ◌+◌, ◌<◌, ◌^◌, List, length, map, IfOk, ◌≤◌};
ghost use Rattle.command_input.specs.Lines.{bytes_before_feed, bytes_after_feed, is_blank, collect_lines, filled_lines};

use std::alloc::Global;
use swap_base::NoMemory;

#[tactic(auto, using(crate::proofs::Filled::shorter))]
fn first_line(bytes: &[u8]) -> (&[u8], &[u8])
    ensures line { result.0.now ≡ bytes_before_feed bytes.now }
    ensures rest { result.1.now ≡ bytes_after_feed bytes.now }
    ensures shorter { 0 < length bytes.now → length result.1.now < length bytes.now }
{
    for (i, b) in bytes.iter().enumerate() {
        if *b == b'\n' {
            return (&bytes[..i], &bytes[i + 1..]);
        }
    }
    (bytes, &[])
}

/// Whether a line has spaces, tabs and carriage returns alone.
pub fn is_blank(line: &[u8]) -> bool
    ensures { result ≡ is_blank line.now }
{
    for b in line {
        if *b != b' ' && *b != b'\t' && *b != b'\r' {
            return false;
        }
    }
    true
}

/// The lines that aren't blank, with their numbers, counted from 1.
#[tactic(auto, using(crate::proofs::Filled::first, crate::proofs::Filled::one_more, crate::proofs::Filled::none_left, std::proofs::lemmas::List::map_push))]
pub fn filled_lines(alloc: Global, bytes: &[u8]) -> Result<Vec<(u32, &[u8])>, NoMemory>
    requires { length bytes.now < 2 ^ 31 }
    ensures lines { IfOk result (λ v. map (λ p. (p.0, p.1.now)) v.items ≡ filled_lines 1 (collect_lines bytes.now)) }
    ensures few { IfOk result (λ v. length v.items ≤ length bytes.now) }
{
    let mut list = Vec::new(alloc);
    let mut number: u32 = 0;
    let mut rest = bytes;
    while !rest.is_empty() {
        let (line, others) = first_line(rest);
        number += 1;
        if !is_blank(line) {
            list.push((number, line))?;
        }
        rest = others;
    }
    Ok(list)
}
