//! What a party's notes keep.

ghost use Rattle.std.specs.Prelude.{◌≡◌, ◌<◌, ◌==◌, not, filter, IfOk, OnOk, length, option_copied, replicate, None};
ghost use Rattle.swap_base.specs.Fault.{Gives};
ghost use Rattle.swap_digraph.specs.Deal.{IsWellSized};
ghost use Rattle.swap_digraph.specs.Graph.{entering, is_listed, leaving};
ghost use Rattle.command_input.specs.declared.reason.Reason.TheVariants.{BadLine};
ghost use Rattle.party_wallet.specs.Value.{signed_hashkey};
ghost use Rattle.party_notes.specs.NoteStates.{kept_state, noted_state, AreGoodKeptKeys, HasPlaces};
ghost use Rattle.party_notes.specs.declared.note.Note.TheVariants.{Keep, Sent, Never};
ghost use Rattle.party_notes.specs.Kept.{may_be_kept, no_notes_kept, notes_kept, opens_arc, opens_first, with_key, with_note, with_notes, with_seen, with_torn};

use crate::note::Note;
use command_input::{HeaderFault, Reason};
use conduct_check::is_first_key;
use hashkey_path::{Hashkey, HashkeyAnswer, check};
use party_rows::refused;
use party_wallet::Signed;
use std::alloc::Global;
use swap_base::{ArcId, Listed, LockId, NoMemory, PartyId, Shared, TryCopy};
use swap_digraph::Deal;

/// What a party kept, sent and saw.
#[derive(Debug, Drop)]
pub struct Kept {
    /// For each lock the hashkey that it kept.
    pub signed: Signed,
    /// The arcs on which a publish was sent that may land.
    pub sent: Listed<ArcId>,
    /// For each arc the greatest height at which its ledger was seen.
    pub seen: Listed<u32>,
    /// The locks whose notes are torn, or tell different hashkeys.
    pub stopped: Listed<LockId>,
}

/// What was taken of notes so far, as `Kept` has it.
#[derive(Drop)]
pub struct Noted {
    pub keys: Vec<Option<Shared<Hashkey>>>,
    pub sent: Vec<ArcId>,
    pub seen: Vec<u32>,
    pub stopped: Vec<LockId>,
}

/// Whether the hashkey opens its lock on the arc.
fn opens_arc(deal: &Deal, arc: ArcId, key: &Hashkey) -> bool
    requires sized { IsWellSized deal.now }
    requires arc { arc < length deal.now.graph.arcs }
    requires lock { key.now.lock < length deal.now.leaders }
    ensures { result ≡ opens_arc deal.now arc key.now }
{
    let hashlock = deal.hashlocks.as_slice()[key.lock as usize];
    check(deal, arc, &hashlock, key, 0) == HashkeyAnswer::Valid
}

/// Whether the hashkey opens its lock on the first arc that enters the party.
fn opens_first(deal: &Deal, me: PartyId, key: &Hashkey) -> bool
    requires sized { IsWellSized deal.now }
    requires me { me < deal.now.graph.n }
    requires lock { key.now.lock < length deal.now.leaders }
    ensures { result ≡ opens_first deal.now (entering deal.now.graph me) key.now }
{
    match deal.graph.entering(me) {
        [] => false,
        [arc, ..] => opens_arc(deal, *arc, key),
    }
}

/// The hashkey that was kept for the lock, if any.
fn kept_hashkey(keys: &[Option<Shared<Hashkey>>], lock: LockId) -> Option<&Hashkey>
    ensures { option_copied result ≡ signed_hashkey keys.now lock }
{
    match keys.get(lock as usize) {
        Some(Some(key)) => Some(key),
        _ => None,
    }
}

/// Whether the party may have kept the hashkey for its lock, where this was kept before.
fn may_be_kept(deal: &Deal, me: PartyId, before: Option<&Hashkey>, key: &Hashkey) -> bool
    requires sized { IsWellSized deal.now }
    requires me { me < deal.now.graph.n }
    requires lock { key.now.lock < length deal.now.leaders }
    ensures { result ≡ may_be_kept deal.now me (option_copied before.entry) key.now }
{
    is_first_key(before, key) || (before.is_none() && opens_first(deal, me, key))
}

/// Whether the arc leaves the party.
fn leaves(deal: &Deal, me: PartyId, arc: ArcId) -> bool
    requires { me < deal.now.graph.n }
    ensures { result ≡ is_listed arc (leaving deal.now.graph me) }
{
    deal.graph.leaving(me).iter().any(|other| *other == arc)
}

/// The arcs but this one.
fn without_arc(alloc: Global, sent: &[ArcId], arc: ArcId) -> Result<Vec<ArcId>, NoMemory>
    ensures { IfOk result (λ v. v.items ≡ filter (λ a. not (a == arc)) sent.now) }
{
    let mut left = Vec::new(alloc);
    for other in sent {
        if *other != arc {
            left.push(*other)?;
        }
    }
    Ok(left)
}

/// Adds a hashkey for a lock of the deal. Where the party can't have kept it, the lock stops.
fn put_key(
    deal: &Deal,
    me: PartyId,
    kept: &mut Noted,
    key: &Shared<Hashkey>,
) -> Result<(), NoMemory>
    requires sized { IsWellSized deal.now }
    requires me { me < deal.now.graph.n }
    requires places { HasPlaces deal.now kept.old }
    requires lock { key.now.lock < length deal.now.leaders }
    ensures exact { OnOk result (noted_state kept.new ≡ with_key deal.now me (noted_state kept.old) key.now) }
    ensures places { HasPlaces deal.now kept.new }
{
    let lock = key.lock;
    if may_be_kept(deal, me, kept_hashkey(&kept.keys, lock), key) {
        kept.keys[lock as usize] = Some(key.copy()?);
    } else {
        kept.stopped.push(lock)?;
    }
    Ok(())
}

/// Adds a hashkey, of the line of that number.
fn add_key(
    deal: &Deal,
    me: PartyId,
    number: u32,
    kept: &mut Noted,
    key: &Shared<Hashkey>,
) -> Result<(), HeaderFault>
    requires sized { IsWellSized deal.now }
    requires me { me < deal.now.graph.n }
    requires places { HasPlaces deal.now kept.old }
    ensures exact { Gives (λ u. noted_state kept.new) result (with_note deal.now me number (noted_state kept.old) (Keep key.now)) }
    ensures places { HasPlaces deal.now kept.new }
{
    let alloc = *kept.keys.allocator();
    if deal.leaders.len() <= key.lock as usize {
        return Err(refused(alloc, Reason::BadLine(number)));
    }
    put_key(deal, me, kept, key)?;
    Ok(())
}

/// Adds the lock of a torn hashkey, of the line of that number.
fn add_torn(deal: &Deal, number: u32, kept: &mut Noted, lock: LockId) -> Result<(), HeaderFault>
    requires places { HasPlaces deal.now kept.old }
    ensures exact { Gives (λ u. noted_state kept.new) result (with_torn deal.now number (noted_state kept.old) lock) }
    ensures places { HasPlaces deal.now kept.new }
{
    let alloc = *kept.keys.allocator();
    if deal.leaders.len() <= lock as usize {
        return Err(refused(alloc, Reason::BadLine(number)));
    }
    kept.stopped.push(lock)?;
    Ok(())
}

/// Adds an arc on which a publish was sent, of the line of that number.
fn add_sent(
    deal: &Deal,
    me: PartyId,
    number: u32,
    kept: &mut Noted,
    arc: ArcId,
) -> Result<(), HeaderFault>
    requires me { me < deal.now.graph.n }
    requires places { HasPlaces deal.now kept.old }
    ensures exact { Gives (λ u. noted_state kept.new) result (with_note deal.now me number (noted_state kept.old) (Sent arc)) }
    ensures places { HasPlaces deal.now kept.new }
{
    let alloc = *kept.keys.allocator();
    if !leaves(deal, me, arc) {
        return Err(refused(alloc, Reason::BadLine(number)));
    }
    kept.sent.push(arc)?;
    Ok(())
}

/// Takes back an arc on which a publish was sent, by the line of that number.
fn take_back(
    deal: &Deal,
    me: PartyId,
    number: u32,
    kept: &mut Noted,
    arc: ArcId,
) -> Result<(), HeaderFault>
    requires me { me < deal.now.graph.n }
    requires places { HasPlaces deal.now kept.old }
    ensures exact { Gives (λ u. noted_state kept.new) result (with_note deal.now me number (noted_state kept.old) (Never arc)) }
    ensures places { HasPlaces deal.now kept.new }
{
    let alloc = *kept.keys.allocator();
    if !leaves(deal, me, arc) {
        return Err(refused(alloc, Reason::BadLine(number)));
    }
    kept.sent = without_arc(alloc, &kept.sent, arc)?;
    Ok(())
}

/// Adds a height at which the arc's ledger was seen, of the line of that number.
fn add_seen(
    deal: &Deal,
    number: u32,
    kept: &mut Noted,
    arc: ArcId,
    height: u32,
) -> Result<(), HeaderFault>
    requires places { HasPlaces deal.now kept.old }
    ensures exact { Gives (λ u. noted_state kept.new) result (with_seen deal.now number (noted_state kept.old) arc height) }
    ensures places { HasPlaces deal.now kept.new }
{
    let alloc = *kept.keys.allocator();
    let index = arc as usize;
    if deal.graph.arcs().len() <= index {
        return Err(refused(alloc, Reason::BadLine(number)));
    }
    kept.seen[index] = kept.seen[index].max(height);
    Ok(())
}

/// Adds a note, of the line of that number.
fn add_note(
    deal: &Deal,
    me: PartyId,
    number: u32,
    kept: &mut Noted,
    note: &Note,
) -> Result<(), HeaderFault>
    requires sized { IsWellSized deal.now }
    requires me { me < deal.now.graph.n }
    requires places { HasPlaces deal.now kept.old }
    ensures exact { Gives (λ u. noted_state kept.new) result (with_note deal.now me number (noted_state kept.old) note.now) }
    ensures places { HasPlaces deal.now kept.new }
{
    match note {
        Note::Keep(key) => add_key(deal, me, number, kept, key),
        Note::Torn(lock) => add_torn(deal, number, kept, *lock),
        Note::Sent(arc) => add_sent(deal, me, number, kept, *arc),
        Note::Never(arc) => take_back(deal, me, number, kept, *arc),
        Note::Seen(arc, height) => add_seen(deal, number, kept, *arc, *height),
    }
}

fn none_kept(alloc: Global, locks: u8) -> Result<Vec<Option<Shared<Hashkey>>>, NoMemory>
    ensures { IfOk result (λ v. v.items ≡ replicate locks None) }
{
    let mut keys = Vec::new(alloc);
    'locks: for _lock in 0..locks {
        keys.push(None)?;
    }
    Ok(keys)
}

fn none_seen(alloc: Global, arcs: usize) -> Result<Vec<u32>, NoMemory>
    ensures { IfOk result (λ v. v.items ≡ replicate arcs 0) }
{
    let mut seen = Vec::new(alloc);
    'arcs: for _arc in 0..arcs {
        seen.push(0)?;
    }
    Ok(seen)
}

/// What is kept without a note.
fn nothing_noted(alloc: Global, deal: &Deal) -> Result<Noted, NoMemory>
    requires { IsWellSized deal.now }
    ensures exact { IfOk result (λ k. noted_state k ≡ no_notes_kept deal.now) }
    ensures places { IfOk result (HasPlaces deal.now) }
{
    let keys = none_kept(alloc, deal.leaders.len() as u8)?;
    let seen = none_seen(alloc, deal.graph.arcs().len())?;
    Ok(Noted {
        keys,
        sent: Vec::new(alloc),
        seen,
        stopped: Vec::new(alloc),
    })
}

/// Adds what notes keep. The first note stands on the line of that number.
fn add_notes(
    deal: &Deal,
    me: PartyId,
    first: u32,
    kept: &mut Noted,
    notes: &[Note],
) -> Result<(), HeaderFault>
    requires sized { IsWellSized deal.now }
    requires me { me < deal.now.graph.n }
    requires places { HasPlaces deal.now kept.old }
    ensures exact { Gives (λ u. noted_state kept.new) result (with_notes deal.now me first (noted_state kept.old) notes.now) }
    ensures places { HasPlaces deal.now kept.new }
{
    let mut number = first;
    for note in notes {
        match add_note(deal, me, number, kept, note) {
            Ok(()) => number = number.saturating_add(1),
            Err(fault) => return Err(fault),
        }
    }
    Ok(())
}

/// What a party's notes keep. The first note stands on the line of that number. A lock stops where a
/// hashkey for it is torn, is another one than before, or opens nothing. A note is refused by its line
/// if its hashkey is for no lock of the deal, its publish is on an arc that doesn't leave the party,
/// or the ledger that was seen is that of no arc. A note that a publish can't land takes back those
/// before it.
#[tactic(auto, unfolding(crate::specs::Kept::notes_kept))]
pub fn notes_kept(
    alloc: Global,
    deal: &Deal,
    me: PartyId,
    first: u32,
    notes: &[Note],
) -> Result<Kept, HeaderFault>
    requires sized { IsWellSized deal.now }
    requires me { me < deal.now.graph.n }
    ensures exact { Gives kept_state result (notes_kept deal.now me first notes.now) }
    ensures places { IfOk result (λ k. length k.signed.keys ≡ length deal.now.leaders) }
    ensures good { IfOk result (λ k. AreGoodKeptKeys deal.now me k.signed.keys) }
{
    let mut noted = nothing_noted(alloc, deal)?;
    add_notes(deal, me, first, &mut noted, notes)?;
    Ok(Kept {
        signed: Signed {
            keys: Listed::new(noted.keys),
        },
        sent: Listed::new(noted.sent),
        seen: Listed::new(noted.seen),
        stopped: Listed::new(noted.stopped),
    })
}
