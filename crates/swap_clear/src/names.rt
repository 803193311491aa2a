//! The names of a line of wishes, and the numbers that stand for them.

ghost use Rattle.std.specs.Prelude.{◌≡◌, [], map, IfOk};
ghost use Rattle.swap_base.specs.Fault.{Gives, steps};
ghost use Rattle.offer_moves.specs.Lists.{collected_results};
ghost use Rattle.offer_header.specs.Names.{AreNames};
ghost use Rattle.swap_clear.specs.Names.{wished_name_step, numbered_arc, numbered_wishes, AreBoundedEnds};

use crate::fields::RawWishes;
use command_input::OfferFault;
use indexmap::IndexSet;
use offer_header::{Ends, RawActor, RawArc, RawParty, add_name, kept_names, resolve_arc_ends};
use offer_moves::TextRef;
use std::alloc::Global;
use swap_base::{ByteText, Listed};

/// A proposed transfer by its parties' numbers, however many parties there are.
#[derive(Clone, Copy)]
pub struct NumberedArc {
    pub ends: Ends,
    pub amount: u64,
}

/// The names of the parties, and the proposed transfers by number.
#[derive(Drop)]
pub struct Numbered {
    pub names: Listed<ByteText>,
    pub arcs: Listed<NumberedArc>,
}

/// One more party.
fn add_party<'h>(
    alloc: Global,
    line: u32,
    names: &mut IndexSet<&'h [u8]>,
    name: &TextRef<'h>,
) -> Result<(), OfferFault>
    ensures { Gives (λ _. map (λ k. k.now) names.new.keys) result (wished_name_step line (map (λ k. k.now) names.old.keys) name.now) }
{
    let party = RawParty {
        name: TextRef::new(name.as_slice()),
        actor: RawActor::Conforming,
        seed: None,
    };
    add_name(alloc, line, names, &party)
}

#[tactic(auto, using(swap_base::proofs::Steps::steps_on, swap_base::proofs::Steps::steps_done))]
fn add_parties<'h>(
    alloc: Global,
    line: u32,
    names: &mut IndexSet<&'h [u8]>,
    parties: &[TextRef<'h>],
) -> Result<(), OfferFault>
    requires { names.old.keys ≡ [] }
    ensures { Gives (λ _. map (λ k. k.now) names.new.keys) result (steps (wished_name_step line) [] parties.now) }
{
    for name in parties {
        add_party(alloc, line, names, name)?;
    }
    Ok(())
}

#[tactic(auto, unfolding(crate::specs::Names::numbered_arc))]
fn numbered_arc(
    alloc: Global,
    line: u32,
    names: &IndexSet<&[u8]>,
    arc: &RawArc<'_>,
) -> Result<NumberedArc, OfferFault>
    ensures { Gives (λ a. a) result (numbered_arc line (map (λ k. k.now) names.now.keys) arc.now) }
{
    let ends = resolve_arc_ends(alloc, line, names, arc)?;
    Ok(NumberedArc {
        ends,
        amount: arc.amount,
    })
}

fn numbered_arcs(
    alloc: Global,
    line: u32,
    names: &IndexSet<&[u8]>,
    arcs: &[RawArc<'_>],
) -> Result<Listed<NumberedArc>, OfferFault>
    ensures { Gives (λ x. x) result (collected_results (numbered_arc line (map (λ k. k.now) names.now.keys)) arcs.now) }
{
    let mut list = Vec::new(alloc);
    for arc in arcs {
        list.push(numbered_arc(alloc, line, names, arc)?)?;
    }
    Ok(Listed::new(list))
}

/// The names of the parties and the numbers that stand for them, or the first reason why a name is
/// refused.
#[tactic(auto, using(crate::proofs::Named::names_of, crate::proofs::Named::listed_arcs), unfolding(crate::specs::Names::numbered_wishes))]
pub(crate) fn assign_numbers(
    alloc: Global,
    line: u32,
    wishes: &RawWishes<'_>,
) -> Result<Numbered, OfferFault>
    ensures exact { Gives (λ n. n) result (numbered_wishes line wishes.now) }
    ensures names { IfOk result (λ n. AreNames n.names) }
    ensures ends { IfOk result (λ n. AreBoundedEnds n) }
{
    let mut names = IndexSet::new(alloc);
    add_parties(alloc, line, &mut names, wishes.parties.as_slice())?;
    let arcs = numbered_arcs(alloc, line, &names, wishes.arcs.as_slice())?;
    Ok(Numbered {
        names: kept_names(alloc, &names)?,
        arcs,
    })
}
