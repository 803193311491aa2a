//! A party that acts on what it knows.

ghost use Rattle.std.specs.Prelude.{◌≡◌, ◌⊎◌, ◌<◌, ◌≤◌, ◌+◌, ◌++◌, ℕ, List, length, true, None, Some, replicate, option_map, IfOk, IfErr, IfSome, OnOk, OnErr};
ghost use Rattle.swap_base.specs.Fault.{IsNoMemory};
ghost use Rattle.swap_base.specs.Fault.{Gives};
ghost use Rattle.swap_digraph.specs.Deal.{IsWellSized};
ghost use Rattle.hashkey_path.specs.declared.hashkey.Hashkey.{Hashkey};
ghost use Rattle.ledger_core.specs.Book.{history};
ghost use Rattle.ledger_core.specs.History.{IsLegal};
ghost use Rattle.ledger_core.specs.Runs.{run_ticks, IsRightRun};
ghost use Rattle.history_index.specs.Value.{new_index, IsSameArc};
ghost use Rattle.swap_rules.specs.Accepted.{IsAccepted};
ghost use Rattle.swap_rules.specs.Machine.{IsWallet};
ghost use Rattle.swap_rules.specs.Rest.{rest_deadline};
ghost use Rattle.party_wallet.specs.Value.{signed_hashkey};
ghost use Rattle.party_wallet.specs.Keys.{new_wallet};
ghost use Rattle.party_wallet.specs.Fits.{wrong_lock};
ghost use Rattle.party_machine.specs.Wallet.{seed_wallet};
ghost use Rattle.party_machine.specs.Rest.{rest_end_height, IsAtRest};
ghost use Rattle.wallet_journal.specs.Device.{LeavesOnly, IsUntouched};
ghost use Rattle.wallet_journal.specs.Journal.{KeepsRecorded};
ghost use Rattle.wallet_journal.specs.OwnDisks.{IsOwn};
ghost use Rattle.wallet_journal.specs.Recording.{IsRefusedRecord, IsWritten};
ghost use Rattle.wallet_journal.specs.Layout.{recorded};
ghost use Rattle.wallet_journal.specs.Stopped.{bytes_left, kept_key, IsOfWrites};
ghost use Rattle.wallet_journal.specs.declared.fault.RecordFault.TheVariants.{DiskFault as Stopped, NoMemory as Wanting};
ghost use Rattle.party_machine.specs.Machine.{fresh_machine, new_machine, resumed_if_fitting, resumed_machine, learnt, due_action, next_due, noted_if_called, IsOfSame};
ghost use Rattle.party_machine.specs.Recording.{new_key, signs_next, IsRecorded, IsStoppedNext, IsWholeKey, MayHave};

use crate::actions::{due_first, due_last};
use crate::knowledge::build_indexes;
use crate::misfit::{MachineFault, Misfit};
use crate::recording::key_to_record;
use crate::rest::{Rest, are_ticks};
use crate::signing::chosen_hashkey;
use due_calls::{due_unlock, rest_deadline};
use hashkey_path::Hashkey as SignedKey;
use history_index::{Index, Steps};
use ledger_core::{Call, EntryList, Facts, Run};
use party_wallet::Wallet;
use std::alloc::Global;
use std::marker::Model;
use std::sync::ledger::Ledger;
use swap_base::{ArcId, Fault, NoMemory, PartyId, Shared};
use swap_digraph::{Deal, copy_deal};
use wallet_journal::{Disk, Journal, RecordFault};

/// A conforming party: its deal, its wallet, and what it knows of each arc. It rests while it has
/// nothing to do.
#[derive(Drop)]
pub struct Machine {
    deal: Deal,
    wallet: Wallet,
    known: Vec<Index>,
    rest: Rest,
}

impl Model for Machine {
    ghost use Rattle.party_machine.specs.Machine.{MachineState};

    ghost Value = { MachineState };

    ghost use Rattle.party_machine.specs.Within.{inside_machine, IsKeptMachine};

    ghost view = { inside_machine };

    ghost invariant = { IsKeptMachine };
}

/// The height that stands for rest up to that height, if any: the greatest, where no tick ends the
/// rest.
fn rest_end_height(until: Option<u64>) -> u64
    ensures { result ≡ rest_end_height until }
{
    match until {
        Some(until) => until,
        None => u32::MAX as u64,
    }
}

impl Machine {
    /// A party with a new wallet that has what the deal states. It knows nothing and signed
    /// nothing. It keeps a copy of the deal.
    pub fn fitting(
        alloc: Global,
        deal: &Deal,
        me: PartyId,
        wallet: Wallet,
    ) -> Result<Machine, NoMemory>
        requires sized { IsWellSized deal.now }
        requires party { me < deal.now.graph.n }
        requires wallet { wallet ≡ new_wallet wallet.seed me deal.now }
        requires fits { wrong_lock deal.now me wallet.seed ≡ None }
        ensures new { IfOk result (λ m. m ≡ new_machine deal.now me wallet.seed) }
        ensures good { OnOk result (IsAccepted deal.now → IsWallet deal.now me (seed_wallet wallet.seed me deal.now)) }
    {
        let known = build_indexes(alloc, deal)?;
        Ok(Machine {
            deal: copy_deal(deal)?,
            wallet,
            known,
            rest: Rest::Awake,
        })
    }

    /// A party that knows nothing and signed nothing, with the wallet's seed; or the least lock for
    /// which the wallet lacks what the deal states of the party: where it was made for another
    /// party or deal, or has signed for a lock, its keys aren't those.
    pub fn new(
        alloc: Global,
        deal: &Deal,
        me: PartyId,
        wallet: Wallet,
    ) -> Result<Machine, MachineFault>
        requires sized { IsWellSized deal.now }
        requires party { me < deal.now.graph.n }
        ensures exact { Gives (λ m. m) result (fresh_machine deal.now me wallet) }
        ensures new { IfOk result (λ m. m ≡ new_machine deal.now me wallet.seed) }
        ensures good { IfOk result (λ m. IsAccepted deal.now → IsWallet deal.now me (seed_wallet wallet.seed me deal.now)) }
    {
        match wallet.mismatched_lock(deal, me) {
            Some(lock) => Err(Fault::Refused(Misfit::WrongWallet(lock))),
            None => {
                let fresh = wallet.renewed_wallet(alloc, deal, me)?;
                Ok(Machine::fitting(alloc, deal, me, fresh)?)
            }
        }
    }

    /// The machine with the hashkeys that it signed before it was restarted.
    fn restored(self, signed: &[Option<Shared<SignedKey>>]) -> Result<Machine, MachineFault>
        requires new { self.signed ≡ replicate (length self.deal.leaders) None }
        requires places { length signed.now ≡ length self.deal.leaders }
        requires locks { (i : ℕ) (k : Hashkey) → i < length signed.now → signed_hashkey signed.now i ≡ Some k → k.lock ≡ i }
        ensures value { IfOk result (λ m. m ≡ record self { signed = signed.now }) }
        ensures fault { IfErr result IsNoMemory }
    {
        let Machine {
            deal,
            wallet,
            known,
            rest: _,
        } = self;
        let wallet = wallet.restored(signed)?;
        Ok(Machine {
            deal,
            wallet,
            known,
            rest: Rest::Awake,
        })
    }

    /// A party that is restarted, or the least lock for which the wallet lacks what the deal states
    /// of the party. The party knows nothing, and has signed what its journal records; the journal
    /// was opened for this deal and party. For programs of others.
    pub fn resume<D: Disk>(
        alloc: Global,
        deal: &Deal,
        me: PartyId,
        wallet: Wallet,
        journal: &Journal<D>,
    ) -> Result<Machine, MachineFault>
        requires sized { IsWellSized deal.now }
        requires party { me < deal.now.graph.n }
        requires opened { (journal.now.id ≡ deal.now.id) × (journal.now.me ≡ me) }
        requires sound { journal.now.sound ≡ true }
        requires places { length journal.now.signed ≡ length deal.now.leaders }
        ensures exact { Gives (λ m. m) result (resumed_if_fitting deal.now me wallet journal.now.signed) }
        ensures resumed { IfOk result (λ m. m ≡ resumed_machine deal.now me wallet.seed journal.now.signed) }
    {
        let machine = Machine::new(alloc, deal, me, wallet)?;
        machine.restored(journal.keys().as_slice())
    }

    /// The party restarts: it knows nothing, and signed what its journal has recorded, which was
    /// opened for its deal and itself. Want of memory leaves it as it was.
    pub fn restart<D: Disk>(&mut self, journal: &Journal<D>) -> Result<(), NoMemory>
        requires opened { (journal.now.id ≡ self.old.deal.id) × (journal.now.me ≡ self.old.me) }
        requires sound { journal.now.sound ≡ true }
        requires places { length journal.now.signed ≡ length self.old.deal.leaders }
        ensures ok { OnOk result (self.new ≡ resumed_machine self.old.deal self.old.me self.old.seed journal.now.signed) }
        ensures err { OnErr result (self.new ≡ self.old) }
    {
        let alloc = *self.known.allocator();
        let known = build_indexes(alloc, &self.deal)?;
        let wallet = self.wallet.resumed(alloc, journal.keys().as_slice())?;
        self.known = known;
        self.wallet = wallet;
        self.rest = Rest::Awake;
        Ok(())
    }

    /// Adds entries to what is known of an arc, a step each. Want of memory leaves everything as it
    /// was, in no step.
    pub fn learn<L: Ledger>(
        &mut self,
        arc: ArcId,
        entries: EntryList,
        steps: &mut Steps<L>,
    ) -> Result<(), NoMemory>
        requires arc { arc < length self.old.deal.graph.arcs }
        requires legal { IsLegal self.old.deal arc (history self.old.known arc ++ entries) }
        ensures ok { OnOk result (self.new ≡ learnt self.old arc entries) }
        ensures steps { OnOk result (steps.new ≡ steps.old + length entries) }
        ensures err { OnErr result (self.new ≡ self.old) }
        ensures no_step { OnErr result (steps.new ≡ steps.old) }
    {
        let ticks = are_ticks(&entries);
        let index = &mut self.known[arc as usize];
        let added = index.extend(entries, steps);
        let height = index.height();
        self.rest = self.rest.remaining_rest(ticks, height);
        added
    }

    /// Adds ticks to what is known of an arc, a step each. It takes no memory, and as long for many
    /// as for one.
    pub fn learn_ticks<L: Ledger>(&mut self, arc: ArcId, run: Run, steps: &mut Steps<L>)
        requires arc { arc < length self.old.deal.graph.arcs }
        requires right { IsRightRun run }
        requires legal { IsLegal self.old.deal arc (history self.old.known arc ++ run_ticks run) }
        ensures learnt { self.new ≡ learnt self.old arc (run_ticks run) }
        ensures steps { steps.new ≡ steps.old + run.count }
    {
        let index = &mut self.known[arc as usize];
        index.push_ticks(run, steps);
        let height = index.height();
        self.rest = self.rest.remaining_rest(true, height);
    }

    /// The first call that is due, with its arc. It signs a hashkey only for the call that it
    /// answers, and keeps it. Once nothing is due it rests: it looks again only after it has learnt
    /// a call, or a tick above an expiry that it waits for.
    pub fn next(&mut self) -> Result<Option<(ArcId, Call)>, NoMemory>
        ensures due { IfOk result (λ o. option_map due_action o ≡ next_due self.old) }
        ensures signed { IfOk result (λ o. signed_hashkey self.new.signed ≡ noted_if_called (signed_hashkey self.old.signed) o) }
        ensures once { (i : ℕ) (k : Hashkey) → signed_hashkey self.old.signed i ≡ Some k → signed_hashkey self.new.signed i ≡ Some k }
        ensures whole { IfOk result (λ o. (k : Hashkey) → new_key self.old.signed (option_map due_action o) ≡ Some k → IsWholeKey self.old.deal k) }
        ensures same { IsOfSame self.old self.new }
        ensures err { OnErr result (self.new ≡ self.old) }
    {
        match self.rest {
            Rest::Until(_) => return Ok(None),
            Rest::Awake => {}
        }
        let me = self.wallet.party();
        let alloc = *self.known.allocator();
        let first = due_first(alloc, &self.deal, me, &self.known)?;
        if first.is_some() {
            return Ok(first);
        }
        match due_unlock(&self.deal, me, &self.known, self.wallet.signed()) {
            Some(due) => {
                let key = chosen_hashkey(alloc, &mut self.wallet, &self.deal, &self.known, due)?;
                Ok(Some((due.arc, Call::Unlock(key))))
            }
            None => {
                let last = due_last(&self.deal, me, &self.known);
                if last.is_none() {
                    self.rest = Rest::Until(rest_deadline(&self.deal, me, &self.known));
                }
                Ok(last)
            }
        }
    }

    /// The first call that is due, where a hashkey that it signs is recorded in the party's journal
    /// before it is answered. The journal was opened for the machine's deal and party. After a
    /// fault it is to be opened again, and the machine to be made again by `resume`.
    pub fn next_recorded<D: Disk>(
        &mut self,
        journal: &mut Journal<D>,
    ) -> Result<Option<(ArcId, Call)>, RecordFault>
        requires opened { (journal.old.id ≡ self.old.deal.id) × (journal.old.me ≡ self.old.me) }
        requires sound { journal.old.sound ≡ true }
        requires recorded { journal.old.signed ≡ self.old.signed }
        ensures due { IfOk result (λ o. option_map due_action o ≡ next_due self.old) }
        ensures signed { IfOk result (λ o. signed_hashkey self.new.signed ≡ noted_if_called (signed_hashkey self.old.signed) o) }
        ensures once { (i : ℕ) (k : Hashkey) → signed_hashkey self.old.signed i ≡ Some k → signed_hashkey self.new.signed i ≡ Some k }
        ensures same { IsOfSame self.old self.new }

        // The journal has the hashkeys that were signed. The answered hashkey is recorded on each
        // device that a crash leaves.
        ensures noted { OnOk result (journal.new.signed ≡ self.new.signed) }
        ensures sound { OnOk result (journal.new.sound ≡ true) }
        ensures recorded { IfOk result (IsRecorded (D.may_leave journal.new.disk)) }

        // The journal is written where a hashkey is signed, and only there.
        ensures unwritten { signs_next self.old ≡ None → journal.new ≡ journal.old }
        ensures calm { signs_next self.old ≡ None → IfErr result (λ e. e ≡ Wanting) }
        ensures written { OnOk result ((k : Hashkey) → signs_next self.old ≡ Some k
            → IsWritten k (D.synced journal.old.disk) (D.synced journal.new.disk) (D.loose journal.new.disk)) }

        // A crash at any moment leaves what was recorded, and else the new hashkey whole or not at
        // all.
        ensures any_moment { LeavesOnly D.moment D.left_since journal.old.disk journal.new.disk (KeepsRecorded (D.may_leave journal.old.disk)) }
        ensures whole { LeavesOnly D.moment D.left_since journal.old.disk journal.new.disk
            (λ c. D.may_leave journal.old.disk c ⊎ MayHave (D.seen journal.old.disk) (signs_next self.old) c) }
        ensures own { ((c : List ℕ) → D.may_leave journal.old.disk c → IsOwn self.old.deal journal.old.me c)
            → LeavesOnly D.moment D.left_since journal.old.disk journal.new.disk (IsOwn self.old.deal journal.old.me) }

        // A disk that never fails stays one, and gives no fault. One that stops within the four
        // calls of a record has the writes of those so far.
        ensures never { D.never_fails journal.old.disk → D.never_fails journal.new.disk }
        ensures passes { D.never_fails journal.old.disk → IfErr result (λ e. e ≡ Wanting) }
        ensures stops { (n : ℕ) (k : Hashkey) → n < 4 → D.stops_after journal.old.disk n → signs_next self.old ≡ Some k
            → IsStoppedNext n k (D.synced journal.old.disk) (D.synced journal.new.disk) (D.loose journal.new.disk) result }

        // Where the disk is one in memory, that tells what a crash then leaves recorded.
        ensures left { (n image : ℕ) (k : Hashkey) → n < 4 → D.stops_after journal.old.disk n
            → IsOfWrites (D.seen journal.old.disk) (D.synced journal.old.disk) → signs_next self.old ≡ Some k → IfErr result (λ e. e ≡ Stopped
            → recorded (bytes_left image (D.synced journal.new.disk) (D.loose journal.new.disk)) k.lock ≡ kept_key k n image) }

        // Where the disk fails, the hashkey that it was to record is signed.
        ensures kept { IfErr result (λ e. e ≡ Stopped → (k : Hashkey) → signs_next self.old ≡ Some k → signed_hashkey self.new.signed k.lock ≡ Some k) }
        ensures journal { (journal.new.id ≡ journal.old.id) × (journal.new.me ≡ journal.old.me) }
        ensures later { D.faults journal.old.disk ≤ D.faults journal.new.disk }
        ensures untouched { IfErr result (λ e. e ≡ Wanting
            → IsUntouched (D.seen journal.old.disk) (D.seen journal.new.disk) (D.may_leave journal.old.disk) (D.may_leave journal.new.disk)) }
        ensures fault { IfErr result (λ e. IsRefusedRecord (D.faults journal.old.disk) (D.faults journal.new.disk) e journal.old.signed journal.new.signed
            journal.new.sound) }
    {
        let answer = self.next()?;
        let Some(key) = key_to_record(journal, &answer) else {
            return Ok(answer);
        };
        journal.record(key)?;
        Ok(answer)
    }

    /// The height up to which no tick makes anything due, where nothing is due and the party rests:
    /// the least expiry that it waits for, or the greatest height, where it waits for none.
    pub fn idle_deadline(&self) -> Option<u64>
        ensures at_rest { IfSome result (λ t. IsAtRest (Some t) self.now) }
        ensures height { IfSome result (λ t. t ≡ rest_end_height (rest_deadline self.now.deal self.now.me self.now.known)) }
    {
        match self.rest {
            Rest::Awake => None,
            Rest::Until(until) => Some(rest_end_height(until)),
        }
    }

    pub fn me(&self) -> PartyId
        ensures { result ≡ self.now.me }
    {
        self.wallet.party()
    }

    /// The deal. What the party signs under an accepted one is good.
    pub fn deal(&self) -> &Deal
        ensures value { result.now ≡ self.now.deal }
        ensures sized { IsWellSized result.now }
        ensures wallet { IsAccepted self.now.deal → IsWallet self.now.deal self.now.me (seed_wallet self.now.seed self.now.me self.now.deal) }
    {
        &self.deal
    }

    /// What is known of an arc, as an index that was made for it.
    pub fn known(&self, arc: ArcId) -> &Index
        requires { arc < length self.now.deal.graph.arcs }
        ensures entries { result.now.entries ≡ history self.now.known arc }
        ensures made { IsSameArc (new_index self.now.deal arc) result.now }
    {
        &self.known[arc as usize]
    }
}
