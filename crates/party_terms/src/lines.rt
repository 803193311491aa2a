//! The lines of terms.

ghost use Rattle.std.specs.Prelude.{◌≡◌, ◌<◌, ◌++◌, OnOk, length};
ghost use Rattle.swap_digraph.specs.Deal.{IsWellSized};
ghost use Rattle.party_terms.specs.Text.{context_line_if, arc_context, digest_lines, gets_line, got_lines, terms_head_text, leads_line, mode_word, paid_lines};
ghost use Rattle.party_terms.specs.Text.{awake_line, terms_party_line, pays_line, times_line, until_text};

use crate::context::ContextLine;
use crate::heights::{
    awake_height, claim_deadline, last_opening, publish_deadline, refund_height, show_deadline,
};
use command_input::party_name;
use due_calls::leads;
use run_texts::put_digits;
use swap_base::{ArcId, ByteText, Digest, LockId, NoMemory, PartyId, Piece, put};
use swap_digraph::{Deal, Mode};
use time_bounds::horizon;

#[tactic(auto, unfolding(crate::specs::Text::terms_party_line))]
fn put_party(out: &mut Vec<u8>, names: &[ByteText], party: PartyId) -> Result<(), NoMemory>
    ensures { OnOk result (out.new.items ≡ out.old.items ++ terms_party_line names.now party) }
{
    put(
        out,
        &[
            Piece::Text("terms "),
            Piece::Bytes(party_name(names, party)),
            Piece::Text(" "),
            Piece::Number(party as u64),
            Piece::Text(" of "),
            Piece::Number(names.len() as u64),
            Piece::Text("\n"),
        ],
    )
}

#[tactic(auto, unfolding(crate::specs::Text::digest_lines))]
fn put_digests(out: &mut Vec<u8>, id: &Digest, agreed: &Digest) -> Result<(), NoMemory>
    ensures { OnOk result (out.new.items ≡ out.old.items ++ digest_lines id.now agreed.now) }
{
    put(out, &[Piece::Text("deal ")])?;
    put_digits(out, id.as_slice())?;
    put(out, &[Piece::Text("\nagree ")])?;
    put_digits(out, agreed.as_slice())?;
    put(out, &[Piece::Text("\n")])
}

fn mode_word(mode: Mode) -> &'static str
    ensures { result.now ≡ mode_word mode }
{
    match mode {
        Mode::Timelocks => "timelocks",
        Mode::Hashkeys => "hashkeys",
    }
}

#[tactic(auto, unfolding(crate::specs::Text::times_line))]
fn put_times(out: &mut Vec<u8>, deal: &Deal) -> Result<(), NoMemory>
    requires { IsWellSized deal.now }
    ensures { OnOk result (out.new.items ≡ out.old.items ++ times_line deal.now) }
{
    put(
        out,
        &[
            Piece::Text("mode "),
            Piece::Text(mode_word(deal.mode)),
            Piece::Text(" start "),
            Piece::Number(deal.start as u64),
            Piece::Text(" delta "),
            Piece::Number(deal.delta as u64),
            Piece::Text(" bound "),
            Piece::Number(deal.bound as u64),
            Piece::Text(" horizon "),
            Piece::Number(horizon(deal.start, deal.delta, deal.bound)),
            Piece::Text("\n"),
        ],
    )
}

/// Appends what stands before the arcs.
#[tactic(auto, unfolding(crate::specs::Text::terms_head_text))]
pub(crate) fn put_head(
    out: &mut Vec<u8>,
    names: &[ByteText],
    deal: &Deal,
    agreed: &Digest,
    party: PartyId,
) -> Result<(), NoMemory>
    requires { IsWellSized deal.now }
    ensures { OnOk result (out.new.items ≡ out.old.items ++ terms_head_text names.now deal.now agreed.now party) }
{
    put_party(out, names, party)?;
    put_digests(out, &deal.id, agreed)?;
    put_times(out, deal)
}

/// Appends a line of context, where it is of the arc.
fn put_context_line(out: &mut Vec<u8>, arc: ArcId, about: &ContextLine) -> Result<(), NoMemory>
    ensures { OnOk result (out.new.items ≡ out.old.items ++ context_line_if arc about.now) }
{
    if about.arc == arc {
        put(
            out,
            &[Piece::Bytes(about.line.as_slice()), Piece::Text("\n")],
        )
    } else {
        Ok(())
    }
}

/// Appends the lines of context of an arc, as they stand.
fn put_arc_context(out: &mut Vec<u8>, context: &[ContextLine], arc: ArcId) -> Result<(), NoMemory>
    ensures { OnOk result (out.new.items ≡ out.old.items ++ arc_context context.now arc) }
{
    for about in context {
        put_context_line(out, arc, about)?;
    }
    Ok(())
}

#[tactic(auto, unfolding(crate::specs::Text::pays_line))]
fn put_pays(out: &mut Vec<u8>, names: &[ByteText], deal: &Deal, arc: ArcId) -> Result<(), NoMemory>
    requires sized { IsWellSized deal.now }
    requires arc { arc < length deal.now.graph.arcs }
    ensures { OnOk result (out.new.items ≡ out.old.items ++ pays_line names.now deal.now arc) }
{
    let ends = deal.graph.arcs()[arc as usize];
    put(
        out,
        &[
            Piece::Text("pays "),
            Piece::Number(arc as u64),
            Piece::Text(" "),
            Piece::Bytes(party_name(names, ends.to)),
            Piece::Text(" "),
            Piece::Number(deal.amounts.as_slice()[arc as usize]),
            Piece::Text(" publish by "),
            Piece::Number(publish_deadline(deal, ends.from)),
            Piece::Text(" back "),
            Piece::Number(refund_height(deal, arc)),
            Piece::Text("\n"),
        ],
    )
}

/// Appends until when an arc can be opened, and by when it is claimed.
#[tactic(auto, unfolding(crate::specs::Text::until_text))]
fn put_until(out: &mut Vec<u8>, deal: &Deal, arc: ArcId) -> Result<(), NoMemory>
    requires sized { IsWellSized deal.now }
    requires arc { arc < length deal.now.graph.arcs }
    ensures { OnOk result (out.new.items ≡ out.old.items ++ until_text deal.now arc) }
{
    put(
        out,
        &[
            Piece::Text(" open"),
            Piece::Text(" until "),
            Piece::Number(last_opening(deal, arc)),
            Piece::Text(" claim"),
            Piece::Text(" by "),
            Piece::Number(claim_deadline(deal, arc)),
            Piece::Text("\n"),
        ],
    )
}

#[tactic(auto, unfolding(crate::specs::Text::gets_line))]
fn put_gets(out: &mut Vec<u8>, names: &[ByteText], deal: &Deal, arc: ArcId) -> Result<(), NoMemory>
    requires sized { IsWellSized deal.now }
    requires arc { arc < length deal.now.graph.arcs }
    ensures { OnOk result (out.new.items ≡ out.old.items ++ gets_line names.now deal.now arc) }
{
    let ends = deal.graph.arcs()[arc as usize];
    put(
        out,
        &[
            Piece::Text("gets "),
            Piece::Number(arc as u64),
            Piece::Text(" "),
            Piece::Bytes(party_name(names, ends.from)),
            Piece::Text(" "),
            Piece::Number(deal.amounts.as_slice()[arc as usize]),
        ],
    )?;
    put_until(out, deal, arc)
}

/// Appends the lines of an arc that leaves the party.
#[tactic(auto, unfolding(crate::specs::Text::paid_lines))]
pub(crate) fn put_paid(
    out: &mut Vec<u8>,
    names: &[ByteText],
    deal: &Deal,
    context: &[ContextLine],
    arc: ArcId,
) -> Result<(), NoMemory>
    requires sized { IsWellSized deal.now }
    requires arc { arc < length deal.now.graph.arcs }
    ensures { OnOk result (out.new.items ≡ out.old.items ++ paid_lines names.now deal.now context.now arc) }
{
    put_pays(out, names, deal, arc)?;
    put_arc_context(out, context, arc)
}

/// Appends the lines of an arc that enters the party.
#[tactic(auto, unfolding(crate::specs::Text::got_lines))]
pub(crate) fn put_got(
    out: &mut Vec<u8>,
    names: &[ByteText],
    deal: &Deal,
    context: &[ContextLine],
    arc: ArcId,
) -> Result<(), NoMemory>
    requires sized { IsWellSized deal.now }
    requires arc { arc < length deal.now.graph.arcs }
    ensures { OnOk result (out.new.items ≡ out.old.items ++ got_lines names.now deal.now context.now arc) }
{
    put_gets(out, names, deal, arc)?;
    put_arc_context(out, context, arc)
}

/// Appends the line of a lock, where the party leads it.
pub(crate) fn put_lead(
    out: &mut Vec<u8>,
    deal: &Deal,
    party: PartyId,
    lock: LockId,
) -> Result<(), NoMemory>
    requires sized { IsWellSized deal.now }
    requires party { party < deal.now.graph.n }
    ensures { OnOk result (out.new.items ≡ out.old.items ++ leads_line deal.now party lock) }
{
    if leads(deal, party, lock) {
        put(
            out,
            &[
                Piece::Text("leads "),
                Piece::Number(lock as u64),
                Piece::Text(" show by "),
                Piece::Number(show_deadline(deal)),
                Piece::Text("\n"),
            ],
        )
    } else {
        Ok(())
    }
}

/// Appends until when the party's wallet has to be awake.
#[tactic(auto, unfolding(crate::specs::Text::awake_line))]
pub(crate) fn put_awake(out: &mut Vec<u8>, deal: &Deal, party: PartyId) -> Result<(), NoMemory>
    requires { IsWellSized deal.now }
    ensures { OnOk result (out.new.items ≡ out.old.items ++ awake_line deal.now party) }
{
    put(
        out,
        &[
            Piece::Text("awake"),
            Piece::Text(" until "),
            Piece::Number(awake_height(deal, party)),
            Piece::Text("\n"),
        ],
    )
}
