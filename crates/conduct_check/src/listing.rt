//! What is found, in its order.

ghost use Rattle.std.specs.Prelude.{◌≡◌, ◌<◌, ◌++◌, ◌∷◌, [], OnOk, OnErr, length, if◌then◌else◌};
ghost use Rattle.ledger_core.specs.Book.{IsLegalBook};
ghost use Rattle.swap_rules.specs.Findings.{broken, forgeries};
ghost use Rattle.conduct_check.specs.Judged.{judged_book, IsJudged};
ghost use Rattle.conduct_check.specs.Standing.{IsStanding};
ghost use Rattle.conduct_check.specs.CallConduct.{arc_broken_findings, arc_forged_findings};

use crate::conduct::keeps_entry;
use crate::forged::is_forged;
use crate::judged::Judged;
use crate::past::made_calls;
use crate::standing::{Standing, party_standing};
use ledger_core::is_adjacent;
use swap_base::{ArcId, NoMemory};
use swap_rules::Finding;

/// Adds the finding where the test holds.
fn put_if(out: &mut Vec<Finding>, test: bool, finding: Finding) -> Result<(), NoMemory>
    ensures { OnOk result (out.new.items ≡ out.old.items ++ (if test then finding ∷ [] else [])) }
{
    if test {
        out.push(finding)?;
    }
    Ok(())
}

/// Adds the entries of the arc by which the party broke a rule of conduct. There is none where the
/// arc isn't the party's.
fn put_broken_arc(
    out: &mut Vec<Finding>,
    judged: &Judged<'_>,
    standing: &Standing,
    arc: ArcId,
) -> Result<(), NoMemory>
    requires judged { IsJudged judged.now }
    requires legal { IsLegalBook judged.now.deal.now (judged_book judged.now) }
    requires standing { IsStanding judged.now standing.now }
    requires arc { arc < length judged.now.deal.now.graph.arcs }
    ensures { OnOk result (out.new.items ≡ out.old.items ++ arc_broken_findings judged.now.deal.now (judged_book judged.now) judged.now.party arc) }
{
    if !is_adjacent(judged.deal, arc, judged.party) {
        return Ok(());
    }
    let calls = made_calls(judged.known, arc);
    for made in calls {
        let kept = keeps_entry(judged, standing, arc, made);
        put_if(out, !kept, Finding::Broke(judged.party, arc, made.number))?;
    }
    Ok(())
}

/// Adds where the party broke a rule of conduct, by arc and entry. After want of memory a part
/// stands there.
#[tactic(auto, using(crate::proofs::KeyLoops::flat_more))]
fn put_broken_arcs(out: &mut Vec<Finding>, judged: &Judged<'_>) -> Result<(), NoMemory>
    requires judged { IsJudged judged.now }
    requires legal { IsLegalBook judged.now.deal.now (judged_book judged.now) }
    ensures { OnOk result (out.new.items ≡ out.old.items ++ broken judged.now.deal.now (judged_book judged.now) judged.now.party) }
{
    let standing = party_standing(judged);
    for arc in 0..judged.deal.graph.arcs().len() as u8 {
        put_broken_arc(out, judged, &standing, arc)?;
    }
    Ok(())
}

/// Adds where the party broke a rule of conduct, by arc and entry. Want of memory leaves the list as
/// it was.
pub fn put_broken(out: &mut Vec<Finding>, judged: &Judged<'_>) -> Result<(), NoMemory>
    requires judged { IsJudged judged.now }
    requires legal { IsLegalBook judged.now.deal.now (judged_book judged.now) }
    ensures ok { OnOk result (out.new.items ≡ out.old.items ++ broken judged.now.deal.now (judged_book judged.now) judged.now.party) }
    ensures err { OnErr result (out.new.items ≡ out.old.items) }
{
    let mut found = Vec::new(*out.allocator());
    put_broken_arcs(&mut found, judged)?;
    out.append(&mut found)?;
    Ok(())
}

/// Adds the entries of the arc that are forged in the party's name.
fn put_forged_arc(out: &mut Vec<Finding>, judged: &Judged<'_>, arc: ArcId) -> Result<(), NoMemory>
    requires judged { IsJudged judged.now }
    requires legal { IsLegalBook judged.now.deal.now (judged_book judged.now) }
    requires arc { arc < length judged.now.deal.now.graph.arcs }
    ensures { OnOk result (out.new.items ≡ out.old.items ++ arc_forged_findings judged.now.deal.now (judged_book judged.now) judged.now.party arc) }
{
    let calls = made_calls(judged.known, arc);
    for made in calls {
        let forged = is_forged(judged, &made.entry);
        put_if(out, forged, Finding::Forged(judged.party, arc, made.number))?;
    }
    Ok(())
}

/// Adds where an entry is forged in the party's name, by arc and entry. After want of memory a part
/// stands there.
#[tactic(auto, using(crate::proofs::KeyLoops::flat_more))]
fn put_forged_arcs(out: &mut Vec<Finding>, judged: &Judged<'_>) -> Result<(), NoMemory>
    requires judged { IsJudged judged.now }
    requires legal { IsLegalBook judged.now.deal.now (judged_book judged.now) }
    ensures { OnOk result (out.new.items ≡ out.old.items ++ forgeries judged.now.deal.now (judged_book judged.now) judged.now.party) }
{
    for arc in 0..judged.deal.graph.arcs().len() as u8 {
        put_forged_arc(out, judged, arc)?;
    }
    Ok(())
}

/// Adds where an entry is forged in the party's name, by arc and entry. Want of memory leaves the
/// list as it was.
pub fn put_forgeries(out: &mut Vec<Finding>, judged: &Judged<'_>) -> Result<(), NoMemory>
    requires judged { IsJudged judged.now }
    requires legal { IsLegalBook judged.now.deal.now (judged_book judged.now) }
    ensures ok { OnOk result (out.new.items ≡ out.old.items ++ forgeries judged.now.deal.now (judged_book judged.now) judged.now.party) }
    ensures err { OnErr result (out.new.items ≡ out.old.items) }
{
    let mut found = Vec::new(*out.allocator());
    put_forged_arcs(&mut found, judged)?;
    out.append(&mut found)?;
    Ok(())
}
