//! The lines that tell which digest each party agreed on.

ghost use Rattle.std.specs.Prelude.{◌≡◌, ◌≤◌, ◌∷◌, MatchOption, length, true};
ghost use Rattle.swap_base.specs.Fault.{Gives};
ghost use Rattle.party_rows.specs.Lines.{TakesFirstLine};
ghost use Rattle.party_judge.specs.Agreements.{agreement_fields, agreement_told, agreements, check_agreement, is_agreement, party_agreement};
ghost use Rattle.party_judge.specs.Behind.{IsBehindAgreements};

use crate::reason::{JudgeFault, JudgeReason, refusal_fault};
use command_input::{HeaderFault, Reason};
use offer_moves::TextRef;
use party_rows::{party_named, refused, this_word};
use std::alloc::Global;
use swap_base::{ByteText, Digest, Fault};
use transcript_book::{Parts, WordFault, digest_field, nothing_more, word};

/// Which digest a party agreed on, as a line tells it.
#[derive(Debug, Drop)]
pub struct Agreement<'a> {
    pub name: TextRef<'a>,
    pub digest: Digest,
}

#[tactic(auto, unfolding(crate::specs::Agreements::agreement_fields))]
fn agreement_fields<'a>(fields: &mut Parts<'a>) -> Result<Agreement<'a>, WordFault>
    ensures { Gives (λ a. a) result (agreement_fields fields.old) }
{
    this_word(b"agreed".as_slice(), fields)?;
    let name = word(fields)?;
    let digest = digest_field(fields)?;
    nothing_more(fields)?;
    Ok(Agreement {
        name: TextRef::new(name),
        digest,
    })
}

/// What the line of that number tells.
#[tactic(auto, unfolding(crate::specs::Agreements::agreement_told))]
fn agreement_told<'a>(
    alloc: Global,
    number: u32,
    line: &'a [u8],
) -> Result<Agreement<'a>, HeaderFault>
    ensures { Gives (λ a. a) result (agreement_told number line.now) }
{
    match agreement_fields(&mut Parts::new(b' ', line)) {
        Ok(told) => Ok(told),
        Err(Fault::Refused(_)) => Err(refused(alloc, Reason::BadLine(number))),
        Err(Fault::NoMemory) => Err(Fault::NoMemory),
    }
}

/// What the line of that number tells, which names a party.
#[tactic(auto, unfolding(crate::specs::Agreements::party_agreement))]
fn party_agreement(
    alloc: Global,
    number: u32,
    names: &[ByteText],
    line: &[u8],
) -> Result<Digest, HeaderFault>
    requires { length names.now ≤ 256 }
    ensures { Gives (λ d. d) result (party_agreement number names.now line.now) }
{
    let told = agreement_told(alloc, number, line)?;
    party_named(alloc, number, names, told.name.as_slice())?;
    Ok(told.digest)
}

/// The digest that the line of that number tells is this one.
#[tactic(auto, unfolding(crate::specs::Agreements::check_agreement))]
fn check_agreement(
    alloc: Global,
    names: &[ByteText],
    digest: &Digest,
    number: u32,
    line: &[u8],
) -> Result<(), JudgeFault>
    requires { length names.now ≤ 256 }
    ensures { Gives (λ u. u) result (check_agreement names.now digest.now number line.now) }
{
    match party_agreement(alloc, number, names, line) {
        Ok(told) => {
            if told == *digest {
                Ok(())
            } else {
                Err(Fault::Refused(JudgeReason::NotAgreed(*digest)))
            }
        }
        Err(fault) => Err(refusal_fault(fault)),
    }
}

/// Whether a line's first word is `agreed`.
#[tactic(auto, unfolding(crate::specs::Agreements::is_agreement))]
fn is_agreement(line: &[u8]) -> bool
    ensures { result ≡ is_agreement line.now }
{
    match Parts::new(b' ', line).next() {
        Some(word) => word == b"agreed".as_slice(),
        None => false,
    }
}

/// Takes the next line where it tells what a party agreed on.
fn next_agreement<'a>(lines: &mut Parts<'a>) -> Option<&'a [u8]>
    ensures { MatchOption result (IsBehindAgreements lines.old × (lines.new ≡ lines.old)) (λ l. (lines.old ≡ l.now ∷ lines.new) × (is_agreement l.now ≡ true)) }
{
    match lines.peek() {
        Some(line) if is_agreement(line) => {
            let _ = lines.next();
            Some(line)
        }
        _ => None,
    }
}

/// Takes the lines that tell what parties agreed on, which has to be this digest, and answers the
/// number of the line behind them. The first has that number.
#[tactic(auto, unfolding(crate::specs::Agreements::agreements))]
pub(crate) fn read_agreements(
    alloc: Global,
    names: &[ByteText],
    digest: &Digest,
    first: u32,
    lines: &mut Parts<'_>,
) -> Result<u32, JudgeFault>
    requires { length names.now ≤ 256 }
    ensures { TakesFirstLine (λ n. n) result lines.new (agreements names.now digest.now first lines.old) }
{
    let mut number = first;
    'lines: while let Some(line) = next_agreement(lines) {
        match check_agreement(alloc, names, digest, number, line) {
            Ok(()) => number = number.saturating_add(1),
            Err(fault) => return Err(fault),
        }
    }
    Ok(number)
}
