//! What an event does to one ledger, whose slot may be swept, and to the machine or the planner of
//! the party that looks or calls.

ghost use Rattle.std.specs.Prelude.{◌≡◌, ◌==◌, ◌||◌, ◌<◌, ◌≤◌, ◌+◌, ◌-◌, ◌⊎◌, ℕ, Some, None, false, IsTrue, OnOk};
ghost use Rattle.std.specs.Prelude.{OnErr, IfOk, IfSome, length, drop, slice_set, option_copied, option_map};
ghost use Rattle.swap_digraph.specs.Deal.{IsWellSized, party, counterparty};
ghost use Rattle.ledger_core.specs.CallSignatures.{is_known_call};
ghost use Rattle.ledger_core.specs.History.{IsLegal, fit};
ghost use Rattle.ledger_core.specs.Book.{history};
ghost use Rattle.ledger_core.specs.Runs.{run_ticks, IsRightRun};
ghost use Rattle.std.specs.Option.{ForSome};
ghost use Rattle.swap_job.specs.Fitting.{IsFitting, is_near};
ghost use Rattle.swap_job.specs.Resolved.{move_arc, opening_named, key_opened, resolved};
ghost use Rattle.swap_run.specs.Script.{next_call};
ghost use Rattle.swap_run.specs.View.{MayAnswer};
ghost use Rattle.swap_run.specs.Shown.{IsShown};
ghost use Rattle.swap_rules.specs.Machine.{Begins};
ghost use Rattle.swap_rules.specs.Due.{Action};
ghost use Rattle.swap_run.specs.Run.{after_tick, plan_with_ledger};
ghost use Rattle.swap_run.specs.Called.{is_barred};
ghost use Rattle.party_wallet.specs.Value.{signed_hashkey};
ghost use Rattle.party_machine.specs.Machine.{due_action, next_due, noted_if_called, IsOfSame};
ghost use Rattle.wallet_journal.specs.Stopped.{ShowsAll};
ghost use Rattle.swap_world.specs.Journals.{IsDiskDuringSigning, IsMachineJournal};
ghost use Rattle.swap_world.specs.Acting.{IsMakable, IsSameOwner, histories, landed, next_book, next_machine, build_told, seen, taken, party_told, turned};
ghost use Rattle.swap_world.specs.On.{is_slot_swept, call_told};
ghost use Rattle.swap_world.specs.Inside.{AreArcLedgers, IsArcLedger, HaveRoom};

use crate::call_outcome::Told;
use hashkey_path::Hashkey;
use history_index::Steps;
use ledger_core::{Call, Ledger, Run};
use party_machine::Machine;
use std::alloc::Global;
use std::marker::Brand;
use std::sync::ledger::{Blank, Ledger as Counted};
use swap_base::{ArcId, Digest, NoMemory, PartyId};
use swap_digraph::Deal;
use swap_job::{Move, find_opened_key, opening_named, resolve_keyed_move};
use swap_run::Planner;
use wallet_journal::{Journal, MemoryDisk};

/// Ticks a ledger that has room by k heights, and makes room for a further entry.
#[tactic(auto, unfolding(swap_run::specs::Run::after_tick))]
pub(crate) fn tick(ledger: &mut Ledger, k: u32) -> Result<(), NoMemory>
    requires some { 1 ≤ k }
    requires below { k ≤ 1000000 }
    requires room { 0 < ledger.old.spare }
    requires legal { IsLegal ledger.old.deal ledger.old.arc ledger.old.history }
    ensures ticked { ledger.new.history ≡ after_tick k ledger.old.history }
    ensures room { OnOk result (0 < ledger.new.spare) }
    ensures deal { ledger.new.deal ≡ ledger.old.deal }
    ensures arc { ledger.new.arc ≡ ledger.old.arc }
    ensures legal { IsLegal ledger.new.deal ledger.new.arc ledger.new.history }
{
    let _ = ledger.tick(k);
    ledger.reserve()
}

/// Whether a call never reaches its ledger. On a swept slot that is a transfer, and any call before
/// something was published.
fn is_barred(ledger: &Ledger, call: &Call, swept: bool) -> bool
    ensures { result ≡ is_barred swept ledger.now.history call.now }
{
    match call {
        Call::Publish(_) => swept && !ledger.is_published(),
        Call::Unlock(_) => swept && !ledger.is_published(),
        Call::Claim => swept && !ledger.is_published(),
        Call::Refund => swept && !ledger.is_published(),
        Call::Transfer(_, _) => swept,
    }
}

/// Makes a call on a ledger with room, and answers what its party is told. The slot may be swept.
/// It makes room for a further entry.
fn call(
    ledger: &mut Ledger,
    sender: PartyId,
    call: Call,
    verified: usize,
    swept: bool,
) -> Result<Told, NoMemory>
    requires of_the_two { IsTrue ((sender == party ledger.old.deal ledger.old.arc) || (sender == counterparty ledger.old.deal ledger.old.arc)) }
    requires fits { IsTrue (fit ledger.old.deal ledger.old.arc call) }
    requires known { IsTrue (is_known_call verified ledger.old.deal call) }
    requires legal { IsLegal ledger.old.deal ledger.old.arc ledger.old.history }
    requires room { 0 < ledger.old.spare }
    ensures leaves { ledger.new.history ≡ landed swept ledger.old.deal ledger.old.arc sender call ledger.old.history }
    ensures told { IfOk result (λ r. r ≡ call_told swept ledger.old.deal ledger.old.arc sender call ledger.old.history) }
    ensures room { OnOk result (0 < ledger.new.spare) }
    ensures deal { ledger.new.deal ≡ ledger.old.deal }
    ensures arc { ledger.new.arc ≡ ledger.old.arc }
    ensures legal { IsLegal ledger.new.deal ledger.new.arc ledger.new.history }
{
    if is_barred(ledger, &call, swept) {
        return Ok(Told::Passed);
    }
    let reply = ledger.apply(sender, call, verified);
    ledger.reserve()?;
    Ok(Told::Replied(reply))
}

/// Whether the slot of an arc is swept, by a list that is empty where none is.
fn is_swept(swept: &[bool], arc: ArcId) -> bool
    ensures { result ≡ is_slot_swept swept.now arc }
{
    match swept.get(arc as usize) {
        Some(is) => *is,
        None => false,
    }
}

/// The hashkey of the opening that a move names, where that opening took place.
fn ledger_key_named<'l>(ledgers: &'l [Ledger], mv: &Move) -> Option<&'l Hashkey>
    requires { ForSome (opening_named mv.now) (λ x. x.0 < length ledgers.now) }
    ensures { option_copied result ≡ key_opened (histories ledgers.now) (opening_named mv.now) }
{
    match opening_named(mv) {
        Some((onto, lock)) => find_opened_key(ledgers[onto as usize].history(), lock),
        None => None,
    }
}

/// The call that a move stands for over the ledgers as they stand, with its arc.
fn resolve_move(
    alloc: Global,
    ledgers: &[Ledger],
    deal: &Deal,
    seeds: &[Option<Digest>],
    mv: &Move,
) -> Result<Option<(ArcId, Call)>, NoMemory>
    requires sized { IsWellSized deal.now }
    requires ledgers { AreArcLedgers deal.now ledgers.now }
    requires fits { IsFitting deal.now seeds.now mv.now }
    ensures exact { IfOk result (λ o. o ≡ resolved deal.now seeds.now (histories ledgers.now) mv.now) }
    ensures fits { IfOk result (λ o. ForSome o (λ x. IsTrue (fit deal.now x.0 x.1))) }
{
    resolve_keyed_move(alloc, deal, seeds, mv, ledger_key_named(ledgers, mv))
}

/// A move, and the party whose call it stands for.
#[derive(Clone, Copy)]
pub(crate) struct PartyMove<'m> {
    pub sender: PartyId,
    pub mv: &'m Move,
}

/// Makes the call that a move stands for, if any, over the ledgers as they stand, and answers what
/// its party is told.
pub(crate) fn make(
    ledgers: &mut Vec<Ledger>,
    deal: &Deal,
    seeds: &[Option<Digest>],
    made: &PartyMove<'_>,
    swept: &[bool],
) -> Result<Told, NoMemory>
    requires sized { IsWellSized deal.now }
    requires ledgers { AreArcLedgers deal.now ledgers.old.items }
    requires fits { IsFitting deal.now seeds.now made.now.mv.now }
    requires near { IsTrue (is_near deal.now made.now.sender (move_arc made.now.mv.now)) }
    requires room { HaveRoom ledgers.old.items }
    ensures ok { OnOk result (histories ledgers.new.items
        ≡ taken (is_slot_swept swept.now) deal.now made.now.sender (resolved deal.now seeds.now (histories ledgers.old.items) made.now.mv.now) (histories ledgers.old.items)) }
    ensures told { IfOk result (λ r.
        r ≡ party_told (is_slot_swept swept.now) deal.now made.now.sender (resolved deal.now seeds.now (histories ledgers.old.items) made.now.mv.now) (histories ledgers.old.items)) }
    ensures err { OnErr result ((histories ledgers.new.items ≡ histories ledgers.old.items)
        ⊎ (histories ledgers.new.items
        ≡ taken (is_slot_swept swept.now) deal.now made.now.sender (resolved deal.now seeds.now (histories ledgers.old.items) made.now.mv.now) (histories ledgers.old.items))) }
    ensures ledgers { AreArcLedgers deal.now ledgers.new.items }
    ensures room { OnOk result (HaveRoom ledgers.new.items) }
{
    let alloc = *ledgers.allocator();
    match resolve_move(alloc, ledgers, deal, seeds, made.mv)? {
        Some((arc, due)) => {
            let is = is_swept(swept, arc);
            call(&mut ledgers[arc as usize], made.sender, due, 0, is)
        }
        None => Ok(Told::Nothing),
    }
}

/// The last n ticks of a run.
#[tactic(auto, using(ledger_core::proofs::Ticks::last_right))]
fn last_run(run: Run, n: u32) -> Run
    requires within { n ≤ run.count }
    requires right { IsRightRun run }
    ensures ticks { run_ticks result ≡ drop (run.count - n) (run_ticks run) }
    ensures right { IsRightRun result }
    ensures count { result.count ≡ n }
{
    Run {
        above: run.above + run.by * (run.count - n),
        by: run.by,
        count: n,
    }
}

/// The entries from `seen` on, where all of them are ticks after the ledger's last call, as nearly
/// always.
pub(crate) fn fresh_ticks(ledger: &Ledger, seen: u32) -> Option<Run>
    requires { seen ≤ length ledger.now.history }
    ensures ticks { IfSome result (λ r. run_ticks r ≡ drop seen ledger.now.history) }
    ensures right { IfSome result IsRightRun }
    ensures count { IfSome result (λ r. seen + r.count ≡ length ledger.now.history) }
{
    let (_, open) = ledger.history().parts();
    let fresh = ledger.len() - seen;
    if fresh <= open.count {
        Some(last_run(open, fresh))
    } else {
        None
    }
}

/// Lets a machine know a ledger up to its end. It takes a step for each entry that the machine
/// doesn't know.
fn learn_entries<L: Counted>(
    machine: &mut Machine,
    ledger: &Ledger,
    steps: &mut Steps<L>,
) -> Result<(), NoMemory>
    requires same { ledger.now.deal ≡ machine.old.deal }
    requires legal { IsLegal ledger.now.deal ledger.now.arc ledger.now.history }
    requires arc { ledger.now.arc < length ledger.now.deal.graph.arcs }
    requires begins { Begins (history machine.old.known ledger.now.arc) ledger.now.history }
    ensures ok { OnOk result (machine.new ≡ record machine.old { known = slice_set machine.old.known ledger.now.arc ledger.now.history }) }
    ensures err { OnErr result (machine.new ≡ machine.old) }
    ensures counted { OnOk result (steps.new + length (history machine.old.known ledger.now.arc) ≡ steps.old + length ledger.now.history) }
{
    let arc = ledger.arc();
    let seen = machine.known(arc).count();
    match fresh_ticks(ledger, seen) {
        Some(run) => {
            machine.learn_ticks(arc, run, steps);
            Ok(())
        }
        None => {
            let fresh = ledger.copy_tail(seen as usize)?;
            machine.learn(arc, fresh, steps)
        }
    }
}

fn learn_ledger_counted<L: Counted>(
    machine: &mut Machine,
    ledger: &Ledger,
    blank: Blank,
) -> Result<(), NoMemory>
    requires name { blank.name ≡ L.name }
    requires parts { blank.parts ≡ L.parts }
    requires one { blank.parts ≡ 1 }
    requires same { ledger.now.deal ≡ machine.old.deal }
    requires legal { IsLegal ledger.now.deal ledger.now.arc ledger.now.history }
    requires arc { ledger.now.arc < length ledger.now.deal.graph.arcs }
    requires begins { Begins (history machine.old.known ledger.now.arc) ledger.now.history }
    ensures ok { OnOk result (machine.new ≡ record machine.old { known = slice_set machine.old.known ledger.now.arc ledger.now.history }) }
    ensures err { OnErr result (machine.new ≡ machine.old) }
{
    let mut steps = Steps::<L>::new(blank);
    learn_entries(machine, ledger, &mut steps)
}

/// Lets a machine know a ledger up to its end.
pub(crate) fn learn(machine: &mut Machine, ledger: &Ledger) -> Result<(), NoMemory>
    requires same { ledger.now.deal ≡ machine.old.deal }
    requires legal { IsLegal ledger.now.deal ledger.now.arc ledger.now.history }
    requires arc { ledger.now.arc < length ledger.now.deal.graph.arcs }
    requires begins { Begins (history machine.old.known ledger.now.arc) ledger.now.history }
    ensures ok { OnOk result (machine.new ≡ record machine.old { known = slice_set machine.old.known ledger.now.arc ledger.now.history }) }
    ensures err { OnErr result (machine.new ≡ machine.old) }
{
    learn_ledger_counted::<Brand>(machine, ledger, Blank::new(1))
}

/// Makes a call of a machine, which then knows the ledger up to its end. It verifies none of its
/// signatures.
#[tactic(auto, using(ledger_core::proofs::CallSignatures::valid_is_known_in))]
fn make_due(
    machine: &mut Machine,
    ledger: &mut Ledger,
    arc: ArcId,
    due: Call,
    swept: bool,
) -> Result<Told, NoMemory>
    requires ledger { IsArcLedger machine.old.deal arc ledger.old }
    requires makable { IsMakable machine.old.deal machine.old.me (record { arc = arc; call = due }) }
    requires begins { Begins (history machine.old.known arc) ledger.old.history }
    requires room { 0 < ledger.old.spare }
    ensures leaves { ledger.new.history ≡ landed swept machine.old.deal arc machine.old.me due ledger.old.history }
    ensures told { IfOk result (λ r. r ≡ call_told swept machine.old.deal arc machine.old.me due ledger.old.history) }
    ensures room { OnOk result (0 < ledger.new.spare) }
    ensures knows { OnOk result (machine.new ≡ record machine.old {
      known =
          slice_set machine.old.known arc (landed swept machine.old.deal arc machine.old.me due ledger.old.history);
    }) }
    ensures signed { machine.new.signed ≡ machine.old.signed }
    ensures ledger { IsArcLedger machine.old.deal arc ledger.new }
    ensures owner { IsSameOwner machine.old machine.new }
{
    let told = call(ledger, machine.me(), due, usize::MAX, swept)?;
    learn(machine, ledger)?;
    Ok(told)
}

/// The first call that is due for a machine. Its hashkey, if any, is recorded in the machine's
/// journal.
fn next(
    machine: &mut Machine,
    journal: &mut Journal<MemoryDisk>,
) -> Result<Option<(ArcId, Call)>, NoMemory>
    requires journal { IsMachineJournal machine.old.deal machine.old.me machine.old.signed journal.old }
    ensures due { IfOk result (λ o. option_map due_action o ≡ next_due machine.old) }
    ensures signed { IfOk result (λ o. signed_hashkey machine.new.signed ≡ noted_if_called (signed_hashkey machine.old.signed) o) }
    ensures same { IsOfSame machine.old machine.new }
    ensures journal { OnOk result (IsMachineJournal machine.old.deal machine.old.me machine.new.signed journal.new) }
    ensures between { IsDiskDuringSigning machine.old.signed machine.new.signed journal.new.disk.held }
{
    match machine.next_recorded(journal) {
        Ok(answer) => {
            // What the journal shows is what each crash leaves of its disk, and a read gives what a
            // crash may leave.
            let _disk = journal.disk();
            let _disk = journal.memory();
            Ok(answer)
        }
        Err(_) => Err(NoMemory),
    }
}

/// Makes the first call that is due for a machine, if any, and answers what its party is told. A
/// hashkey that the machine signs is recorded before the call is made.
pub(crate) fn act(
    machine: &mut Machine,
    journal: &mut Journal<MemoryDisk>,
    ledgers: &mut Vec<Ledger>,
    swept: &[bool],
) -> Result<Told, NoMemory>
    requires journal { IsMachineJournal machine.old.deal machine.old.me machine.old.signed journal.old }
    requires ledgers { AreArcLedgers machine.old.deal ledgers.old.items }
    requires makable { (x : Action) → next_due machine.old ≡ Some x → IsMakable machine.old.deal machine.old.me x }
    requires begins { (a : ℕ) → Begins (history machine.old.known a) (history (histories ledgers.old.items) a) }
    requires room { HaveRoom ledgers.old.items }
    ensures ok { OnOk result (histories ledgers.new.items
        ≡ next_book (is_slot_swept swept.now) machine.old (next_due machine.old) (histories ledgers.old.items)) }
    ensures knows { OnOk result (machine.new ≡ next_machine (is_slot_swept swept.now) machine.old (next_due machine.old) (histories ledgers.old.items)) }
    ensures told { IfOk result (λ r. r ≡ build_told (is_slot_swept swept.now) machine.old (next_due machine.old) (histories ledgers.old.items)) }
    ensures err { OnErr result ((histories ledgers.new.items ≡ histories ledgers.old.items)
        ⊎ (histories ledgers.new.items ≡ next_book (is_slot_swept swept.now) machine.old (next_due machine.old) (histories ledgers.old.items))) }
    ensures ledgers { AreArcLedgers machine.old.deal ledgers.new.items }
    ensures room { OnOk result (HaveRoom ledgers.new.items) }
    ensures owner { IsSameOwner machine.old machine.new }
    ensures journal { OnOk result (IsMachineJournal machine.old.deal machine.old.me machine.new.signed journal.new) }
    ensures between { OnErr result (IsDiskDuringSigning machine.old.signed machine.new.signed journal.new.disk.held) }
    ensures made { OnErr result ((histories ledgers.new.items ≡ histories ledgers.old.items)
        ⊎ ((histories ledgers.new.items ≡ next_book (is_slot_swept swept.now) machine.old (next_due machine.old) (histories ledgers.old.items))
        × (machine.new.signed ≡ (next_machine (is_slot_swept swept.now) machine.old (next_due machine.old) (histories ledgers.old.items)).signed)
        × ShowsAll machine.new.signed journal.new.disk.held)) }
{
    match next(machine, journal)? {
        None => Ok(Told::Nothing),
        Some((arc, due)) => {
            let is = is_swept(swept, arc);
            let told = make_due(machine, &mut ledgers[arc as usize], arc, due, is)?;
            Ok(told)
        }
    }
}

/// Lets a party that follows a script or a strategy know a ledger up to its end, by a copy of the
/// entries that it doesn't know.
pub(crate) fn watch(planner: &mut Planner, ledger: &Ledger, arc: ArcId) -> Result<(), NoMemory>
    requires arc { arc < length planner.old.known }
    requires begins { Begins (history planner.old.known arc) ledger.now.history }
    ensures ok { OnOk result (planner.new ≡ plan_with_ledger planner.old arc ledger.now.history) }
    ensures err { OnErr result (planner.new ≡ planner.old) }
{
    let fresh = ledger.copy_tail(planner.count(arc))?;
    planner.learn(arc, fresh)
}

/// Makes a call of a party that follows a script or a strategy, which then knows the ledger up to
/// its end.
fn make_planned(
    planner: &mut Planner,
    ledger: &mut Ledger,
    arc: ArcId,
    sender: PartyId,
    made: Call,
    swept: bool,
) -> Result<Told, NoMemory>
    requires arc { arc < length planner.old.known }
    requires begins { Begins (history planner.old.known arc) ledger.old.history }
    requires of_the_two { IsTrue ((sender == party ledger.old.deal ledger.old.arc) || (sender == counterparty ledger.old.deal ledger.old.arc)) }
    requires fits { IsTrue (fit ledger.old.deal ledger.old.arc made) }
    requires legal { IsLegal ledger.old.deal ledger.old.arc ledger.old.history }
    requires room { 0 < ledger.old.spare }
    ensures leaves { ledger.new.history ≡ landed swept ledger.old.deal ledger.old.arc sender made ledger.old.history }
    ensures told { IfOk result (λ r. r ≡ call_told swept ledger.old.deal ledger.old.arc sender made ledger.old.history) }
    ensures room { OnOk result (0 < ledger.new.spare) }
    ensures knows { OnOk result (planner.new
        ≡ plan_with_ledger planner.old arc (landed swept ledger.old.deal ledger.old.arc sender made ledger.old.history)) }
    ensures deal { ledger.new.deal ≡ ledger.old.deal }
    ensures arc { ledger.new.arc ≡ ledger.old.arc }
    ensures legal { IsLegal ledger.new.deal ledger.new.arc ledger.new.history }
{
    let told = call(ledger, sender, made, 0, swept)?;
    watch(planner, ledger, arc)?;
    Ok(told)
}

/// Makes a call, if there is one, of a party that follows a script or a strategy, and answers what
/// the party is told.
pub(crate) fn take(
    planner: &mut Planner,
    ledgers: &mut Vec<Ledger>,
    deal: &Deal,
    sender: PartyId,
    made: Option<(ArcId, Call)>,
    swept: &[bool],
) -> Result<Told, NoMemory>
    requires ledgers { AreArcLedgers deal.now ledgers.old.items }
    requires known { length planner.old.known ≡ length deal.now.graph.arcs }
    requires begins { (a : ℕ) → Begins (history planner.old.known a) (history (histories ledgers.old.items) a) }
    requires may { MayAnswer deal.now sender made }
    requires room { HaveRoom ledgers.old.items }
    ensures leaves { histories ledgers.new.items ≡ taken (is_slot_swept swept.now) deal.now sender made (histories ledgers.old.items) }
    ensures told { IfOk result (λ r. r ≡ party_told (is_slot_swept swept.now) deal.now sender made (histories ledgers.old.items)) }
    ensures knows { OnOk result (planner.new ≡ seen (is_slot_swept swept.now) deal.now sender made (histories ledgers.old.items) planner.old) }
    ensures ledgers { AreArcLedgers deal.now ledgers.new.items }
    ensures room { OnOk result (HaveRoom ledgers.new.items) }
{
    match made {
        Some((arc, due)) => {
            let is = is_swept(swept, arc);
            make_planned(planner, &mut ledgers[arc as usize], arc, sender, due, is)
        }
        None => Ok(Told::Nothing),
    }
}

/// Makes the call that a move stands for, if any, of a party that follows a script or a strategy.
pub(crate) fn make_by_hand(
    planner: &mut Planner,
    ledgers: &mut Vec<Ledger>,
    deal: &Deal,
    seeds: &[Option<Digest>],
    made: &PartyMove<'_>,
    swept: &[bool],
) -> Result<Told, NoMemory>
    requires sized { IsWellSized deal.now }
    requires ledgers { AreArcLedgers deal.now ledgers.old.items }
    requires known { length planner.old.known ≡ length deal.now.graph.arcs }
    requires begins { (a : ℕ) → Begins (history planner.old.known a) (history (histories ledgers.old.items) a) }
    requires fits { IsFitting deal.now seeds.now made.now.mv.now }
    requires near { IsTrue (is_near deal.now made.now.sender (move_arc made.now.mv.now)) }
    requires room { HaveRoom ledgers.old.items }
    ensures ok { OnOk result (histories ledgers.new.items
        ≡ taken (is_slot_swept swept.now) deal.now made.now.sender (resolved deal.now seeds.now (histories ledgers.old.items) made.now.mv.now) (histories ledgers.old.items)) }
    ensures told { IfOk result (λ r.
        r ≡ party_told (is_slot_swept swept.now) deal.now made.now.sender (resolved deal.now seeds.now (histories ledgers.old.items) made.now.mv.now) (histories ledgers.old.items)) }
    ensures knows { OnOk result (planner.new ≡ seen (is_slot_swept swept.now) deal.now made.now.sender
        (resolved deal.now seeds.now (histories ledgers.old.items) made.now.mv.now) (histories ledgers.old.items) planner.old) }
    ensures err { OnErr result ((histories ledgers.new.items ≡ histories ledgers.old.items)
        ⊎ (histories ledgers.new.items
        ≡ taken (is_slot_swept swept.now) deal.now made.now.sender (resolved deal.now seeds.now (histories ledgers.old.items) made.now.mv.now) (histories ledgers.old.items))) }
    ensures ledgers { AreArcLedgers deal.now ledgers.new.items }
    ensures room { OnOk result (HaveRoom ledgers.new.items) }
{
    let alloc = *ledgers.allocator();
    let due = resolve_move(alloc, ledgers, deal, seeds, made.mv)?;
    take(planner, ledgers, deal, made.sender, due, swept)
}

/// Makes the next call of a party's script, if any, and answers what the party is told.
pub(crate) fn follow(
    planner: &mut Planner,
    ledgers: &mut Vec<Ledger>,
    deal: &Deal,
    seeds: &[Option<Digest>],
    me: PartyId,
    swept: &[bool],
) -> Result<Told, NoMemory>
    requires ledgers { AreArcLedgers deal.now ledgers.old.items }
    requires known { length planner.old.known ≡ length deal.now.graph.arcs }
    requires begins { (a : ℕ) → Begins (history planner.old.known a) (history (histories ledgers.old.items) a) }
    requires shown { IsShown deal.now seeds.now me planner.old }
    requires room { HaveRoom ledgers.old.items }
    ensures ok { OnOk result (histories ledgers.new.items
        ≡ taken (is_slot_swept swept.now) deal.now me (next_call deal.now seeds.now planner.old.known planner.old.moves) (histories ledgers.old.items)) }
    ensures told { IfOk result (λ r.
        r ≡ party_told (is_slot_swept swept.now) deal.now me (next_call deal.now seeds.now planner.old.known planner.old.moves) (histories ledgers.old.items)) }
    ensures knows { OnOk result (planner.new ≡ seen (is_slot_swept swept.now) deal.now me (next_call deal.now seeds.now planner.old.known planner.old.moves)
        (histories ledgers.old.items) (turned planner.old)) }
    ensures err { OnErr result ((histories ledgers.new.items ≡ histories ledgers.old.items)
        ⊎ (histories ledgers.new.items
        ≡ taken (is_slot_swept swept.now) deal.now me (next_call deal.now seeds.now planner.old.known planner.old.moves) (histories ledgers.old.items))) }
    ensures ledgers { AreArcLedgers deal.now ledgers.new.items }
    ensures room { OnOk result (HaveRoom ledgers.new.items) }
{
    let made = planner.follow(deal, me, seeds)?;
    take(planner, ledgers, deal, me, made, swept)
}
