//! A judgement as JSON, on one line.

ghost use Rattle.std.specs.Prelude.{◌≡◌, ◌<◌, ◌≤◌, ◌++◌, IfOk, OnOk, false, length, slice_index_or};
ghost use Rattle.hex.specs.Hex.{encode_lower};
ghost use Rattle.swap_base.specs.Text.{lines};
ghost use Rattle.swap_digraph.specs.Deal.{IsWellSized};
ghost use Rattle.ledger_core.specs.Book.{IsLegalBook};
ghost use Rattle.run_texts.specs.Report.{ended_text, report as report_of};
ghost use Rattle.run_texts.specs.Words.{outcome_text};
ghost use Rattle.party_judge.specs.Json.{json_agree, json_begun, json_bool, json_broken, json_byte, json_comma, json_deal, json_due, json_end, json_entry, json_finding, json_findings, json_findings_key, json_forged};
ghost use Rattle.party_judge.specs.Json.{json_found, json_kind, json_late, json_mark, json_name, json_outcome, json_parties, json_party, json_rule, json_text as text_of, json_unfinished, judgement_json};

use crate::marks::is_harmless;
use command_input::party_name;
use ledger_core::Book;
use outcome_rules::Report;
use run_texts::{put_digits, report_text};
use std::alloc::Global;
use swap_base::{ByteText, Digest, NoMemory, Piece, put};
use swap_digraph::Deal;
use swap_job::Job;
use swap_rules::{Finding, Outcome, Rule};

// ---- words

#[tactic(auto, unfolding(crate::specs::Json::json_bool))]
fn bool_word(holds: bool) -> &'static str
    ensures { result.now ≡ json_bool holds }
{
    if holds { "true" } else { "false" }
}

/// What stands before a member of a list, by its number.
#[tactic(auto, unfolding(crate::specs::Json::json_comma))]
fn comma(number: usize) -> &'static str
    ensures { result.now ≡ json_comma number }
{
    if number == 0 { "" } else { "," }
}

#[tactic(auto, unfolding(run_texts::specs::Words::outcome_text))]
fn outcome_word(outcome: Outcome) -> &'static str
    ensures { result.now ≡ outcome_text outcome }
{
    match outcome {
        Outcome::NoDeal => "NoDeal",
        Outcome::FreeRide => "FreeRide",
        Outcome::Underwater => "Underwater",
        Outcome::Deal => "Deal",
        Outcome::Discount => "Discount",
    }
}

#[tactic(auto, unfolding(run_texts::specs::Report::ended_text))]
fn ended_word(ended: bool, outcome: Outcome) -> &'static str
    ensures { result.now ≡ ended_text ended outcome }
{
    if ended { outcome_word(outcome) } else { "open" }
}

fn conforms(conforming: &[bool], party: usize) -> bool
    ensures { result ≡ slice_index_or conforming.now party false }
{
    match conforming.get(party) {
        Some(conforms) => *conforms,
        None => false,
    }
}

// ---- parties

#[tactic(auto, unfolding(crate::specs::Json::json_name))]
fn put_name(out: &mut Vec<u8>, names: &[ByteText], number: usize) -> Result<(), NoMemory>
    requires { number < 256 }
    ensures { OnOk result (out.new.items ≡ out.old.items ++ json_name names.now number) }
{
    put(
        out,
        &[
            Piece::Text(comma(number)),
            Piece::Text("{\"name\":\""),
            Piece::Bytes(party_name(names, number as u8)),
            Piece::Text("\""),
        ],
    )
}

#[tactic(auto, unfolding(crate::specs::Json::json_outcome))]
fn put_outcome(
    out: &mut Vec<u8>,
    conforms: bool,
    ended: bool,
    outcome: Outcome,
) -> Result<(), NoMemory>
    ensures { OnOk result (out.new.items ≡ out.old.items ++ json_outcome conforms ended outcome) }
{
    put(
        out,
        &[
            Piece::Text(",\"conforming\":"),
            Piece::Text(bool_word(conforms)),
            Piece::Text(",\"outcome\":\""),
            Piece::Text(ended_word(ended, outcome)),
            Piece::Text("\"}"),
        ],
    )
}

#[tactic(auto, unfolding(crate::specs::Json::json_party))]
fn put_party(
    out: &mut Vec<u8>,
    names: &[ByteText],
    conforming: &[bool],
    ended: bool,
    number: usize,
    outcome: Outcome,
) -> Result<(), NoMemory>
    requires { number < 256 }
    ensures { OnOk result (out.new.items ≡ out.old.items ++ json_party names.now conforming.now ended number outcome) }
{
    put_name(out, names, number)?;
    put_outcome(out, conforms(conforming, number), ended, outcome)
}

fn put_parties(
    out: &mut Vec<u8>,
    names: &[ByteText],
    conforming: &[bool],
    ended: bool,
    outcomes: &[Outcome],
) -> Result<(), NoMemory>
    requires { length outcomes.now ≤ 256 }
    ensures { OnOk result (out.new.items ≡ out.old.items ++ lines (json_party names.now conforming.now ended) 0 outcomes.now) }
{
    for (number, outcome) in outcomes.iter().enumerate() {
        put_party(out, names, conforming, ended, number, *outcome)?;
    }
    Ok(())
}

// ---- findings

/// The kind of a finding, and its party.
#[tactic(auto, unfolding(crate::specs::Json::json_kind))]
fn put_kind<'a>(out: &mut Vec<u8>, kind: &'a str, name: &'a [u8]) -> Result<(), NoMemory>
    ensures { OnOk result (out.new.items ≡ out.old.items ++ json_kind kind.now name.now) }
{
    put(
        out,
        &[
            Piece::Text("{\"kind\":\""),
            Piece::Text(kind),
            Piece::Text("\",\"party\":\""),
            Piece::Bytes(name),
            Piece::Text("\""),
        ],
    )
}

#[tactic(auto, unfolding(crate::specs::Json::json_entry))]
fn put_entry(out: &mut Vec<u8>, arc: u8, entry: u32) -> Result<(), NoMemory>
    ensures { OnOk result (out.new.items ≡ out.old.items ++ json_entry arc entry) }
{
    put(
        out,
        &[
            Piece::Text(",\"ledger\":"),
            Piece::Number(arc as u64),
            Piece::Text(",\"entry\":"),
            Piece::Number(entry as u64),
        ],
    )
}

#[tactic(auto, unfolding(crate::specs::Json::json_broken))]
fn put_broken(out: &mut Vec<u8>, name: &[u8], arc: u8, entry: u32) -> Result<(), NoMemory>
    ensures { OnOk result (out.new.items ≡ out.old.items ++ json_broken name.now arc entry) }
{
    put_kind(out, "broke", name)?;
    put_entry(out, arc, entry)
}

#[tactic(auto, unfolding(crate::specs::Json::json_forged))]
fn put_forged(out: &mut Vec<u8>, name: &[u8], arc: u8, entry: u32) -> Result<(), NoMemory>
    ensures { OnOk result (out.new.items ≡ out.old.items ++ json_forged name.now arc entry) }
{
    put_kind(out, "forged", name)?;
    put_entry(out, arc, entry)
}

#[tactic(auto, unfolding(crate::specs::Json::json_rule))]
fn put_rule(out: &mut Vec<u8>, rule: Rule) -> Result<(), NoMemory>
    ensures { OnOk result (out.new.items ≡ out.old.items ++ json_rule rule) }
{
    match rule {
        Rule::Publish => put(out, &[Piece::Text("\"publish\"")]),
        Rule::Unlock(lock) => put(
            out,
            &[
                Piece::Text("\"unlock\",\"lock\":"),
                Piece::Number(lock as u64),
            ],
        ),
        Rule::Claim => put(out, &[Piece::Text("\"claim\"")]),
        Rule::Refund => put(out, &[Piece::Text("\"refund\"")]),
    }
}

#[tactic(auto, unfolding(crate::specs::Json::json_due))]
fn put_due(out: &mut Vec<u8>, arc: u8, due: u64) -> Result<(), NoMemory>
    ensures { OnOk result (out.new.items ≡ out.old.items ++ json_due arc due) }
{
    put(
        out,
        &[
            Piece::Text(",\"ledger\":"),
            Piece::Number(arc as u64),
            Piece::Text(",\"due\":"),
            Piece::Number(due),
        ],
    )
}

#[tactic(auto, unfolding(crate::specs::Json::json_late))]
fn put_late(out: &mut Vec<u8>, name: &[u8], rule: Rule, arc: u8, due: u64) -> Result<(), NoMemory>
    ensures { OnOk result (out.new.items ≡ out.old.items ++ json_late name.now rule arc due) }
{
    put_kind(out, "late", name)?;
    put(out, &[Piece::Text(",\"rule\":")])?;
    put_rule(out, rule)?;
    put_due(out, arc, due)
}

#[tactic(auto, unfolding(crate::specs::Json::json_unfinished))]
fn put_unfinished(out: &mut Vec<u8>, arc: u8, height: u32) -> Result<(), NoMemory>
    ensures { OnOk result (out.new.items ≡ out.old.items ++ json_unfinished arc height) }
{
    put(
        out,
        &[
            Piece::Text("{"),
            Piece::Text("\"kind\":\"unfinished\",\"ledger\":"),
            Piece::Number(arc as u64),
            Piece::Text(",\"height\":"),
            Piece::Number(height as u64),
        ],
    )
}

/// What was found, up to the marks.
#[tactic(auto, unfolding(crate::specs::Json::json_found))]
fn put_found(out: &mut Vec<u8>, names: &[ByteText], finding: Finding) -> Result<(), NoMemory>
    ensures { OnOk result (out.new.items ≡ out.old.items ++ json_found names.now finding) }
{
    match finding {
        Finding::Broke(v, a, e) => put_broken(out, party_name(names, v), a, e),
        Finding::Late(v, rule, a, due) => put_late(out, party_name(names, v), rule, a, due),
        Finding::Forged(v, a, e) => put_forged(out, party_name(names, v), a, e),
        Finding::Unfinished(a, height) => put_unfinished(out, a, height),
    }
}

#[tactic(auto, unfolding(crate::specs::Json::json_mark))]
fn put_mark(out: &mut Vec<u8>, ended: bool, harmless: bool) -> Result<(), NoMemory>
    ensures { OnOk result (out.new.items ≡ out.old.items ++ json_mark ended harmless) }
{
    put(
        out,
        &[
            Piece::Text(",\"final\":"),
            Piece::Text(bool_word(ended)),
            Piece::Text(",\"harmless\":"),
            Piece::Text(bool_word(harmless)),
            Piece::Text("}"),
        ],
    )
}

#[tactic(auto, unfolding(crate::specs::Json::json_finding))]
fn put_finding(
    out: &mut Vec<u8>,
    names: &[ByteText],
    deal: &Deal,
    ended: bool,
    number: usize,
    finding: Finding,
) -> Result<(), NoMemory>
    requires { IsWellSized deal.now }
    ensures { OnOk result (out.new.items ≡ out.old.items ++ json_finding names.now deal.now ended number finding) }
{
    put(out, &[Piece::Text(comma(number))])?;
    put_found(out, names, finding)?;
    put_mark(out, ended, is_harmless(deal, finding))
}

fn put_findings(
    out: &mut Vec<u8>,
    names: &[ByteText],
    deal: &Deal,
    ended: bool,
    findings: &[Finding],
) -> Result<(), NoMemory>
    requires { IsWellSized deal.now }
    ensures { OnOk result (out.new.items ≡ out.old.items ++ lines (json_finding names.now deal.now ended) 0 findings.now) }
{
    for (number, finding) in findings.iter().enumerate() {
        put_finding(out, names, deal, ended, number, *finding)?;
    }
    Ok(())
}

// ---- the report

fn put_byte(out: &mut Vec<u8>, byte: u8) -> Result<(), NoMemory>
    ensures { OnOk result (out.new.items ≡ out.old.items ++ json_byte 0 byte) }
{
    if byte == b'\n' {
        put(out, &[Piece::Text("\\n")])
    } else {
        out.push(byte)?;
        Ok(())
    }
}

/// A text within a string. It has neither quotes nor backslashes.
fn put_text(out: &mut Vec<u8>, text: &[u8]) -> Result<(), NoMemory>
    ensures { OnOk result (out.new.items ≡ out.old.items ++ text_of text.now) }
{
    for byte in text {
        put_byte(out, *byte)?;
    }
    Ok(())
}

fn put_report(
    alloc: Global,
    out: &mut Vec<u8>,
    job: &Job,
    book: &Book,
    report: &Report,
) -> Result<(), NoMemory>
    requires sized { IsWellSized job.now.deal }
    requires legal { IsLegalBook job.now.deal book.now.histories }
    requires parties { length report.now.outcomes ≤ 256 }
    ensures { OnOk result (out.new.items ≡ out.old.items ++ text_of (report_of job.now book.now.histories report.now)) }
{
    let text = report_text(alloc, job, book, report)?;
    put_text(out, text.as_slice())
}

/// What stands behind the findings.
#[tactic(auto, unfolding(crate::specs::Json::json_end))]
fn put_end(
    alloc: Global,
    out: &mut Vec<u8>,
    job: &Job,
    book: &Book,
    report: &Report,
) -> Result<(), NoMemory>
    requires sized { IsWellSized job.now.deal }
    requires legal { IsLegalBook job.now.deal book.now.histories }
    requires parties { length report.now.outcomes ≤ 256 }
    ensures { OnOk result (out.new.items ≡ out.old.items ++ json_end job.now book.now.histories report.now) }
{
    put(out, &[Piece::Text(",\"report\":\"")])?;
    put_report(alloc, out, job, book, report)?;
    put(out, &[Piece::Text("\"}\n")])
}

// ---- the whole

#[tactic(auto, unfolding(crate::specs::Json::json_deal))]
fn put_deal(out: &mut Vec<u8>, id: &Digest) -> Result<(), NoMemory>
    ensures { OnOk result (out.new.items ≡ out.old.items ++ json_deal id.now) }
{
    put(out, &[Piece::Text("{\"deal\":\"")])?;
    put_digits(out, id.as_slice())
}

#[tactic(auto, unfolding(crate::specs::Json::json_agree))]
fn put_agree(out: &mut Vec<u8>, agreed: &Digest) -> Result<(), NoMemory>
    ensures { OnOk result (out.new.items ≡ out.old.items ++ json_agree agreed.now) }
{
    put(out, &[Piece::Text("\",\"agree\":\"")])?;
    put_digits(out, agreed.as_slice())
}

#[tactic(auto, unfolding(crate::specs::Json::json_parties))]
fn put_party_list(out: &mut Vec<u8>, job: &Job, report: &Report) -> Result<(), NoMemory>
    requires { length report.now.outcomes ≤ 256 }
    ensures { OnOk result (out.new.items ≡ out.old.items ++ json_parties job.now report.now) }
{
    put(out, &[Piece::Text("\",\"parties\":[")])?;
    put_parties(
        out,
        job.names.as_slice(),
        job.conforming.as_slice(),
        report.ended,
        report.outcomes.as_slice(),
    )
}

#[tactic(auto, unfolding(crate::specs::Json::json_findings_key))]
fn put_findings_key(out: &mut Vec<u8>) -> Result<(), NoMemory>
    ensures { OnOk result (out.new.items ≡ out.old.items ++ json_findings_key) }
{
    put(out, &[Piece::Text("],\"findings\":[")])
}

#[tactic(auto, unfolding(crate::specs::Json::json_findings))]
fn put_finding_list(out: &mut Vec<u8>, job: &Job, report: &Report) -> Result<(), NoMemory>
    requires { IsWellSized job.now.deal }
    ensures { OnOk result (out.new.items ≡ out.old.items ++ json_findings job.now report.now) }
{
    put_findings_key(out)?;
    put_findings(
        out,
        job.names.as_slice(),
        &job.deal,
        report.ended,
        report.findings.as_slice(),
    )?;
    put(out, &[Piece::Text("]")])
}

/// What stands before the report.
#[tactic(auto, unfolding(crate::specs::Json::json_begun))]
fn put_begun(out: &mut Vec<u8>, job: &Job, digest: &Digest, report: &Report) -> Result<(), NoMemory>
    requires sized { IsWellSized job.now.deal }
    requires parties { length report.now.outcomes ≤ 256 }
    ensures { OnOk result (out.new.items ≡ out.old.items ++ json_begun job.now digest.now report.now) }
{
    put_deal(out, &job.deal.id)?;
    put_agree(out, digest)?;
    put_party_list(out, job, report)?;
    put_finding_list(out, job, report)
}

/// The judgement as JSON, where this digest was agreed on.
#[tactic(auto, unfolding(crate::specs::Json::judgement_json))]
pub(crate) fn judgement_json(
    alloc: Global,
    job: &Job,
    digest: &Digest,
    book: &Book,
    report: &Report,
) -> Result<ByteText, NoMemory>
    requires sized { IsWellSized job.now.deal }
    requires legal { IsLegalBook job.now.deal book.now.histories }
    requires parties { length report.now.outcomes ≤ 256 }
    ensures { IfOk result (λ t. t ≡ judgement_json job.now digest.now book.now.histories report.now) }
{
    let mut out = Vec::new(alloc);
    put_begun(&mut out, job, digest, report)?;
    put_end(alloc, &mut out, job, book, report)?;
    Ok(ByteText::new(out))
}
