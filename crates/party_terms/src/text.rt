//! The text of a party's terms.

ghost use Rattle.std.specs.Prelude.{◌≡◌, ◌<◌, ◌++◌, IfOk, OnOk, length};
ghost use Rattle.std.specs.List.{flat_map};
ghost use Rattle.swap_digraph.specs.Deal.{locks, IsWellSized};
ghost use Rattle.swap_digraph.specs.Graph.{entering, leaving};
ghost use Rattle.party_terms.specs.Text.{got_lines, leads_line, paid_lines, terms_text};

use crate::context::ContextLine;
use crate::lines::{put_awake, put_got, put_head, put_lead, put_paid};
use std::alloc::Global;
use swap_base::{ByteText, Digest, NoMemory, PartyId};
use swap_digraph::Deal;

/// Appends the lines of the arcs that leave the party.
fn put_leaving(
    out: &mut Vec<u8>,
    names: &[ByteText],
    deal: &Deal,
    context: &[ContextLine],
    party: PartyId,
) -> Result<(), NoMemory>
    requires sized { IsWellSized deal.now }
    requires party { party < deal.now.graph.n }
    ensures { OnOk result (out.new.items ≡ out.old.items ++ flat_map (paid_lines names.now deal.now context.now) (leaving deal.now.graph party)) }
{
    'arcs: for arc in deal.graph.leaving(party) {
        put_paid(out, names, deal, context, *arc)?;
    }
    Ok(())
}

/// Appends the lines of the arcs that enter the party.
fn put_entering(
    out: &mut Vec<u8>,
    names: &[ByteText],
    deal: &Deal,
    context: &[ContextLine],
    party: PartyId,
) -> Result<(), NoMemory>
    requires sized { IsWellSized deal.now }
    requires party { party < deal.now.graph.n }
    ensures { OnOk result (out.new.items ≡ out.old.items ++ flat_map (got_lines names.now deal.now context.now) (entering deal.now.graph party)) }
{
    'arcs: for arc in deal.graph.entering(party) {
        put_got(out, names, deal, context, *arc)?;
    }
    Ok(())
}

/// Appends the lines of the locks that the party leads.
#[tactic(auto, using(conduct_check::proofs::KeyLoops::flat_more))]
fn put_leads(out: &mut Vec<u8>, deal: &Deal, party: PartyId) -> Result<(), NoMemory>
    requires sized { IsWellSized deal.now }
    requires few { length deal.now.leaders < 256 }
    requires party { party < deal.now.graph.n }
    ensures { OnOk result (out.new.items ≡ out.old.items ++ flat_map (leads_line deal.now party) (locks deal.now)) }
{
    'locks: for lock in 0..deal.leaders.len() as u8 {
        put_lead(out, deal, party, lock)?;
    }
    Ok(())
}

/// The terms of a party, where the digest to agree on is this.
#[tactic(auto, unfolding(crate::specs::Text::terms_text))]
pub(crate) fn terms_text(
    alloc: Global,
    names: &[ByteText],
    deal: &Deal,
    context: &[ContextLine],
    agreed: &Digest,
    party: PartyId,
) -> Result<ByteText, NoMemory>
    requires sized { IsWellSized deal.now }
    requires party { party < deal.now.graph.n }
    ensures { IfOk result (λ t. t ≡ terms_text names.now deal.now context.now agreed.now party) }
{
    let mut out = Vec::new(alloc);
    put_head(&mut out, names, deal, agreed, party)?;
    put_leaving(&mut out, names, deal, context, party)?;
    put_entering(&mut out, names, deal, context, party)?;
    put_leads(&mut out, deal, party)?;
    put_awake(&mut out, deal, party)?;
    Ok(ByteText::new(out))
}
