//! The lines of findings and parties.

ghost use Rattle.std.specs.Prelude.{◌≡◌, ◌<◌, ◌≤◌, ◌++◌, OnOk, length, slice_index_or, false};
ghost use Rattle.swap_base.specs.Text.{lines};
ghost use Rattle.swap_io.specs.Handed.{Hands};
ghost use Rattle.run_texts.specs.Words.{outcome_text as outcome_of, rule_text};
ghost use Rattle.run_texts.specs.Report.{role_text as party_role, ended_text as ended_of, party_line, finding_line, count_line};

use command_input::party_name;
use swap_base::{ByteText, NoMemory, PartyId, Piece, put};
use swap_io::{Sink, TextFault, flush_waiting};
use swap_rules::{Finding, Outcome, Rule};

#[tactic(auto, unfolding(crate::specs::Words::outcome_text))]
fn outcome_text(outcome: Outcome) -> &'static str
    ensures { result.now ≡ outcome_of outcome }
{
    match outcome {
        Outcome::NoDeal => "NoDeal",
        Outcome::FreeRide => "FreeRide",
        Outcome::Underwater => "Underwater",
        Outcome::Deal => "Deal",
        Outcome::Discount => "Discount",
    }
}

#[tactic(auto, unfolding(crate::specs::Report::ended_text))]
fn ended_text(has_ended: bool, outcome: Outcome) -> &'static str
    ensures { result.now ≡ ended_of has_ended outcome }
{
    if has_ended {
        outcome_text(outcome)
    } else {
        "open"
    }
}

#[tactic(auto, unfolding(crate::specs::Report::role_text))]
fn role_text(conforms: bool) -> &'static str
    ensures { result.now ≡ party_role conforms }
{
    if conforms { "conforming" } else { "deviator" }
}

fn conforms(conforming: &[bool], p: usize) -> bool
    ensures { result ≡ slice_index_or conforming.now p false }
{
    match conforming.get(p) {
        Some(conforms) => *conforms,
        None => false,
    }
}

#[tactic(auto, unfolding(crate::specs::Report::party_line))]
fn put_party(
    out: &mut Vec<u8>,
    names: &[ByteText],
    conforming: &[bool],
    has_ended: bool,
    number: usize,
    outcome: Outcome,
) -> Result<(), NoMemory>
    requires { number < 256 }
    ensures { OnOk result (out.new.items ≡ out.old.items ++ party_line names.now conforming.now has_ended number outcome) }
{
    put(
        out,
        &[
            Piece::Text("party "),
            Piece::Bytes(party_name(names, number as u8)),
            Piece::Text(" "),
            Piece::Text(role_text(conforms(conforming, number))),
            Piece::Text(": "),
            Piece::Text(ended_text(has_ended, outcome)),
            Piece::Text("\n"),
        ],
    )
}

/// The line of each party.
pub(crate) fn put_parties(
    out: &mut Vec<u8>,
    names: &[ByteText],
    conforming: &[bool],
    has_ended: bool,
    outcomes: &[Outcome],
) -> Result<(), NoMemory>
    requires { length outcomes.now ≤ 256 }
    ensures { OnOk result (out.new.items ≡ out.old.items ++ lines (party_line names.now conforming.now has_ended) 0 outcomes.now) }
{
    for (number, outcome) in outcomes.iter().enumerate() {
        put_party(out, names, conforming, has_ended, number, *outcome)?;
    }
    Ok(())
}

#[tactic(auto, unfolding(crate::specs::Words::rule_text))]
fn put_rule(out: &mut Vec<u8>, rule: Rule) -> Result<(), NoMemory>
    ensures { OnOk result (out.new.items ≡ out.old.items ++ rule_text rule) }
{
    match rule {
        Rule::Publish => put(out, &[Piece::Text("publish")]),
        Rule::Unlock(lock) => put(out, &[Piece::Text("unlock "), Piece::Number(lock as u64)]),
        Rule::Claim => put(out, &[Piece::Text("claim")]),
        Rule::Refund => put(out, &[Piece::Text("refund")]),
    }
}

#[tactic(auto, unfolding(crate::specs::Report::finding_line))]
fn put_late(
    out: &mut Vec<u8>,
    names: &[ByteText],
    late: PartyId,
    rule: Rule,
    arc: u8,
    due: u64,
) -> Result<(), NoMemory>
    ensures { OnOk result (out.new.items ≡ out.old.items ++ finding_line names.now (Finding.Late late rule arc due)) }
{
    put(
        out,
        &[
            Piece::Text("late "),
            Piece::Bytes(party_name(names, late)),
            Piece::Text(" "),
        ],
    )?;
    put_rule(out, rule)?;
    put(
        out,
        &[
            Piece::Text(" on "),
            Piece::Number(arc as u64),
            Piece::Text(" due "),
            Piece::Number(due),
            Piece::Text("\n"),
        ],
    )
}

#[tactic(auto, unfolding(crate::specs::Report::finding_line))]
fn put_finding(out: &mut Vec<u8>, names: &[ByteText], finding: Finding) -> Result<(), NoMemory>
    ensures { OnOk result (out.new.items ≡ out.old.items ++ finding_line names.now finding) }
{
    match finding {
        Finding::Broke(v, a, e) => put(
            out,
            &[
                Piece::Text("broke "),
                Piece::Bytes(party_name(names, v)),
                Piece::Text(" on "),
                Piece::Number(a as u64),
                Piece::Text(" entry "),
                Piece::Number(e as u64),
                Piece::Text("\n"),
            ],
        ),
        Finding::Late(v, rule, a, due) => put_late(out, names, v, rule, a, due),
        Finding::Forged(v, a, e) => put(
            out,
            &[
                Piece::Text("forged "),
                Piece::Bytes(party_name(names, v)),
                Piece::Text(" on "),
                Piece::Number(a as u64),
                Piece::Text(" entry "),
                Piece::Number(e as u64),
                Piece::Text("\n"),
            ],
        ),
        Finding::Unfinished(a, height) => put(
            out,
            &[
                Piece::Text("unfinished "),
                Piece::Number(a as u64),
                Piece::Text(" height "),
                Piece::Number(height as u64),
                Piece::Text("\n"),
            ],
        ),
    }
}

/// The line of each finding, handed on.
pub(crate) fn write_findings<K: Sink>(
    sink: &mut K,
    out: &mut Vec<u8>,
    names: &[ByteText],
    findings: &[Finding],
) -> Result<(), TextFault>
    ensures { Hands (K.taken sink.old) (K.taken sink.new) (K.faults sink.old) (K.faults sink.new) out.old.items out.new.items
        (lines (λ _. finding_line names.now) 0 findings.now) result }
{
    for finding in findings {
        put_finding(out, names, *finding)?;
        flush_waiting(sink, out)?;
    }
    Ok(())
}

/// The last line of a report, which tells how many findings there are.
#[tactic(auto, unfolding(crate::specs::Report::count_line))]
pub fn put_count(out: &mut Vec<u8>, count: u64) -> Result<(), NoMemory>
    ensures { OnOk result (out.new.items ≡ out.old.items ++ count_line count) }
{
    put(
        out,
        &[
            Piece::Text("findings "),
            Piece::Number(count),
            Piece::Text("\n"),
        ],
    )
}
