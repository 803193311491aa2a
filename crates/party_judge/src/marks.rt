//! What is told of each finding beside its line.

ghost use Rattle.std.specs.Prelude.{◌≡◌, ◌++◌, OnOk};
ghost use Rattle.swap_base.specs.Text.{lines};
ghost use Rattle.swap_digraph.specs.Deal.{IsWellSized};
ghost use Rattle.party_judge.specs.Marks.{is_harmless as harmless_of, mark_line, opens_at, opens_too_late, standing_word, weight_word};

use swap_base::{NoMemory, Piece, put};
use swap_digraph::Deal;
use swap_rules::{Finding, Rule};
use time_bounds::opening_deadline;

fn opens_at(deal: &Deal, height: u64) -> bool
    requires { IsWellSized deal.now }
    ensures { result ≡ opens_at deal.now height }
{
    height <= opening_deadline(deal.start, deal.delta, deal.bound)
}

fn opens_too_late(deal: &Deal, rule: Rule, due: u64) -> bool
    requires { IsWellSized deal.now }
    ensures { result ≡ opens_too_late deal.now rule due }
{
    match rule {
        Rule::Publish => !opens_at(deal, due),
        _ => false,
    }
}

/// Whether a finding is harmless: a party was late with a publish that was due only at a height
/// above the one by which contracts open, so that it could only have hurt the party itself.
#[tactic(auto, unfolding(crate::specs::Marks::is_harmless))]
pub fn is_harmless(deal: &Deal, finding: Finding) -> bool
    requires { IsWellSized deal.now }
    ensures { result ≡ harmless_of deal.now finding }
{
    match finding {
        Finding::Late(_, rule, _, due) => opens_too_late(deal, rule, due),
        _ => false,
    }
}

#[tactic(auto, unfolding(crate::specs::Marks::weight_word))]
fn weight_word(harmless: bool) -> &'static str
    ensures { result.now ≡ weight_word harmless }
{
    if harmless { "harmless" } else { "counts" }
}

#[tactic(auto, unfolding(crate::specs::Marks::standing_word))]
fn standing_word(ended: bool) -> &'static str
    ensures { result.now ≡ standing_word ended }
{
    if ended { "final" } else { "provisional" }
}

#[tactic(auto, unfolding(crate::specs::Marks::mark_line))]
fn put_mark(
    out: &mut Vec<u8>,
    deal: &Deal,
    ended: bool,
    number: usize,
    finding: Finding,
) -> Result<(), NoMemory>
    requires { IsWellSized deal.now }
    ensures { OnOk result (out.new.items ≡ out.old.items ++ mark_line deal.now ended number finding) }
{
    put(
        out,
        &[
            Piece::Text("finding "),
            Piece::Number(number as u64),
            Piece::Text(" "),
            Piece::Text(standing_word(ended)),
            Piece::Text(" "),
            Piece::Text(weight_word(is_harmless(deal, finding))),
            Piece::Text("\n"),
        ],
    )
}

/// The lines of findings.
pub(crate) fn put_marks(
    out: &mut Vec<u8>,
    deal: &Deal,
    ended: bool,
    findings: &[Finding],
) -> Result<(), NoMemory>
    requires { IsWellSized deal.now }
    ensures { OnOk result (out.new.items ≡ out.old.items ++ lines (mark_line deal.now ended) 0 findings.now) }
{
    for (number, finding) in findings.iter().enumerate() {
        put_mark(out, deal, ended, number, *finding)?;
    }
    Ok(())
}
