//! What `terms` writes.

ghost use Rattle.swap_base.specs.Fault.{Gives};
ghost use Rattle.party_terms.specs.Inside.{inside_agreed, IsAgreedJob};
ghost use Rattle.party_terms.specs.Terms.{terms_from_lines, named_terms, terms_output};

use crate::agreed::{Agreed, read_agreed};
use crate::text::terms_text;
use command_input::HeaderFault;
use party_rows::{ended_lines, no_line, party_named};
use std::alloc::Global;
use swap_base::ByteText;
use transcript_book::Parts;

/// The terms of the party of that name, by what was agreed on.
#[tactic(auto, unfolding(crate::specs::Terms::named_terms))]
fn named_terms(alloc: Global, name: &[u8], agreed: &Agreed) -> Result<ByteText, HeaderFault>
    requires { IsAgreedJob agreed.now.job }
    ensures { Gives (λ t. t) result (named_terms name.now (inside_agreed agreed.now)) }
{
    let names = agreed.job.names.as_slice();
    let party = party_named(alloc, 1, names, name)?;
    let context = agreed.context.as_slice();
    Ok(terms_text(
        alloc,
        names,
        &agreed.job.deal,
        context,
        &agreed.digest,
        party,
    )?)
}

/// The terms of the party of that name, by all lines of a text.
#[tactic(auto, unfolding(crate::specs::Terms::terms_from_lines))]
fn terms_from_lines(
    alloc: Global,
    name: &[u8],
    lines: &mut Parts<'_>,
) -> Result<ByteText, HeaderFault>
    ensures { Gives (λ t. t) result (terms_from_lines name.now lines.old) }
{
    let agreed = read_agreed(alloc, 1, lines)?;
    no_line(alloc, agreed.next, lines)?;
    named_terms(alloc, name, &agreed)
}

/// The terms of the party of that name, by a text of lines, each ended by a line feed: a deal's
/// header line, as a transcript has it, then lines of context, `about ARC TEXT`. Or the first
/// reason against the text.
#[tactic(auto, unfolding(crate::specs::Terms::terms_output))]
pub fn terms(alloc: Global, name: &[u8], text: &[u8]) -> Result<ByteText, HeaderFault>
    ensures exact { Gives (λ t. t) result (terms_output name.now text.now) }
{
    let mut lines = ended_lines(alloc, text)?;
    terms_from_lines(alloc, name, &mut lines)
}
