//! What is read of many swaps before their events.

ghost use Rattle.std.specs.Prelude.{◌≡◌, ◌<◌, ◌≤◌, true, is_some, map, length, IfOk, OnOk};
ghost use Rattle.swap_base.specs.Fault.{Gives};
ghost use Rattle.offer_header.specs.Names.{has_strategy};
ghost use Rattle.many_lines.specs.declared.stage.Stage.TheVariants.{Words};
ghost use Rattle.many_lines.specs.Heading.{chain_taken, fields_taken, finish_taken, first_taken, header_taken, kind_taken, line_taken, swap_taken, nothing_headed};
ghost use Rattle.many_lines.specs.Heading.{finish_told, with_swap};
ghost use Rattle.many_lines.specs.Whole.{AreBoundedChains, AreSwaps, HoldsEverySwap, IsSwap};
ghost use Rattle.many_lines.specs.Below.{AreChainsBelow};
ghost use Rattle.swap_offer.specs.Wallets.{prepared_wallets};

use crate::fault::bad;
use crate::many_job::ManyJob;
use crate::said::{collect_accounts, parse_chains, parse_finish};
use crate::stage::{Stage, SwapLine};
use crate::swap::read_swap;
use command_input::HeaderFault;
use party_wallet::Wallet;
use std::alloc::Global;
use std::marker::Model;
use std::mem;
use swap_base::{ByteText, Listed, NoMemory};
use swap_job::{Finish, Purpose};
use swap_offer::Prepared;
use transcript_book::Parts;

/// The most chains.
const MOST_CHAINS: usize = 32;

/// The most swaps.
const MOST_SWAPS: usize = 8;

/// Reads the lines before the events, one after another.
#[derive(Drop)]
pub struct Heading {
    names: Vec<Listed<ByteText>>,
    units: Vec<Listed<u64>>,
    jobs: Vec<swap_job::Job>,
    chains: Vec<Listed<u8>>,
    /// The wallets of each swap.
    wallets: Vec<Vec<Option<Wallet>>>,
    stage: Stage,
}

impl Model for Heading {
    ghost use Rattle.many_lines.specs.Heading.{HeadingState};

    ghost Value = { HeadingState };

    ghost use Rattle.many_lines.specs.Inside.{inside_heading, IsReadingManyJob};

    ghost view = { inside_heading };

    ghost invariant = { IsReadingManyJob };
}

impl Heading {
    /// No line was read yet.
    pub fn new(alloc: Global) -> Result<Heading, NoMemory>
        ensures { IfOk result (λ h. h ≡ nothing_headed) }
    {
        Ok(Heading {
            names: Vec::with_capacity(alloc, MOST_CHAINS)?,
            units: Vec::with_capacity(alloc, MOST_CHAINS)?,
            jobs: Vec::with_capacity(alloc, MOST_SWAPS)?,
            chains: Vec::with_capacity(alloc, MOST_SWAPS)?,
            wallets: Vec::with_capacity(alloc, MOST_SWAPS)?,
            stage: Stage::First,
        })
    }

    /// Takes the first line.
    fn take_first(&mut self, alloc: Global, line: u32, text: &[u8]) -> Result<(), HeaderFault>
        ensures exact { Gives (λ _. self.new) result (first_taken self.old line text.now) }
        ensures jobs { OnOk result (self.new.many.jobs ≡ self.old.many.jobs) }
    {
        if text != b"swap many 1".as_slice() {
            return Err(bad(alloc, line));
        }
        self.stage = Stage::Words;
        Ok(())
    }

    /// Takes a line of a chain.
    #[tactic(auto, using(crate::proofs::Swaps::chains_more, crate::proofs::Swaps::no_swaps_yet), unfolding(crate::specs::Heading::chain_taken))]
    fn take_chain(
        &mut self,
        alloc: Global,
        line: u32,
        fields: &mut Parts<'_>,
    ) -> Result<(), HeaderFault>
        requires { self.old.stage ≡ Words }
        ensures exact { Gives (λ _. self.new) result (chain_taken self.old line fields.old) }
        ensures jobs { OnOk result (self.new.many.jobs ≡ self.old.many.jobs) }
    {
        if !self.jobs.is_empty() || self.names.len() >= MOST_CHAINS {
            return Err(bad(alloc, line));
        }
        let accounts = collect_accounts(alloc, line, fields)?;
        self.names.push(accounts.names).unwrap();
        self.units.push(accounts.units).unwrap();
        Ok(())
    }

    /// Takes the line before a swap's header.
    #[tactic(auto, unfolding(crate::specs::Heading::swap_taken))]
    fn take_swap(
        &mut self,
        alloc: Global,
        line: u32,
        fields: &mut Parts<'_>,
    ) -> Result<(), HeaderFault>
        ensures exact { Gives (λ _. self.new) result (swap_taken self.old line fields.old) }
        ensures jobs { OnOk result (self.new.many.jobs ≡ self.old.many.jobs) }
    {
        if self.jobs.len() >= MOST_SWAPS {
            return Err(bad(alloc, line));
        }
        let chains = parse_chains(alloc, line, self.names.len(), fields)?;
        self.stage = Stage::Header(SwapLine {
            number: line,
            chains,
        });
        Ok(())
    }

    /// Takes the line of the finish.
    #[tactic(auto, unfolding(crate::specs::Heading::finish_taken))]
    fn take_finish(
        &mut self,
        alloc: Global,
        line: u32,
        fields: &mut Parts<'_>,
    ) -> Result<(), HeaderFault>
        ensures exact { Gives (λ _. self.new) result (finish_taken self.old line fields.old) }
        ensures jobs { OnOk result (self.new.many.jobs ≡ self.old.many.jobs) }
    {
        if self.jobs.is_empty() {
            return Err(bad(alloc, line));
        }
        let finish = parse_finish(alloc, line, fields)?;
        self.stage = Stage::Over(finish);
        Ok(())
    }

    /// Takes a line of a chain, of a swap or of the finish, by its first field.
    fn take_kind(
        &mut self,
        alloc: Global,
        line: u32,
        first: &[u8],
        fields: &mut Parts<'_>,
    ) -> Result<(), HeaderFault>
        requires { self.old.stage ≡ Words }
        ensures exact { Gives (λ _. self.new) result (kind_taken self.old line first.now fields.old) }
        ensures jobs { OnOk result (self.new.many.jobs ≡ self.old.many.jobs) }
    {
        if first == b"chain".as_slice() {
            self.take_chain(alloc, line, fields)
        } else if first == b"swap".as_slice() {
            self.take_swap(alloc, line, fields)
        } else if first == b"finish".as_slice() {
            self.take_finish(alloc, line, fields)
        } else {
            Err(bad(alloc, line))
        }
    }

    fn take_fields(
        &mut self,
        alloc: Global,
        line: u32,
        fields: &mut Parts<'_>,
    ) -> Result<(), HeaderFault>
        requires { self.old.stage ≡ Words }
        ensures exact { Gives (λ _. self.new) result (fields_taken self.old line fields.old) }
        ensures jobs { OnOk result (self.new.many.jobs ≡ self.old.many.jobs) }
    {
        match fields.next() {
            Some(first) => self.take_kind(alloc, line, first, fields),
            None => Err(bad(alloc, line)),
        }
    }

    /// Keeps a swap with its wallets, and the chains of its arcs.
    #[tactic(auto, using(crate::proofs::Swaps::swaps_more))]
    fn keep(&mut self, swap: Prepared, chains: Listed<u8>)
        requires next { length self.old.many.jobs < 8 }
        requires words { self.old.stage ≡ Words }
        requires swap { IsSwap (length self.old.many.names) swap.job chains }
        requires wallets { swap.wallets.items ≡ prepared_wallets Purpose.Run swap.job }
        ensures { self.new ≡ with_swap self.old.many swap.job chains }
    {
        let Prepared { job, wallets, .. } = swap;
        self.jobs.push(job).unwrap();
        self.chains.push(chains).unwrap();
        self.wallets.push(wallets).unwrap();
    }

    /// Takes the header of a swap, whose line before it names the chains of its arcs.
    #[tactic(auto, unfolding(crate::specs::Heading::header_taken))]
    fn take_header(
        &mut self,
        alloc: Global,
        strategies: &[ByteText],
        before: SwapLine,
        line: u32,
        text: &[u8],
    ) -> Result<(), HeaderFault>
        requires next { length self.old.many.jobs < 8 }
        requires below { AreChainsBelow (length self.old.many.names) before.chains }
        requires words { self.old.stage ≡ Words }
        ensures exact { Gives (λ _. self.new) result
            (header_taken (has_strategy strategies.now) self.old.many before line text.now) }
        ensures held { OnOk result (HoldsEverySwap (has_strategy strategies.now) self.old.many
            → HoldsEverySwap (has_strategy strategies.now) self.new.many) }
    {
        let swap = read_swap(alloc, strategies, line, text)?;
        if before.chains.len() != swap.job.deal.graph.arcs().len() {
            return Err(bad(alloc, before.number));
        }
        self.keep(swap, before.chains);
        Ok(())
    }

    /// Takes the next line, or says what is against it.
    pub fn push(
        &mut self,
        alloc: Global,
        strategies: &[ByteText],
        line: u32,
        text: &[u8],
    ) -> Result<(), HeaderFault>
        ensures takes { Gives (λ _. self.new) result (line_taken (has_strategy strategies.now) self.old line text.now) }
        // The strategies of every swap are those of the strategies, where those of the swaps before
        // are.
        ensures held { OnOk result (HoldsEverySwap (has_strategy strategies.now) self.old.many
            → HoldsEverySwap (has_strategy strategies.now) self.new.many) }
    {
        match mem::replace(&mut self.stage, Stage::Words) {
            Stage::First => self.take_first(alloc, line, text),
            Stage::Words => self.take_fields(alloc, line, &mut Parts::new(b' ', text)),
            Stage::Header(before) => self.take_header(alloc, strategies, before, line, text),
            Stage::Over(_) => Err(bad(alloc, line)),
        }
    }

    /// The finish, once its line was read.
    pub fn finish(&self) -> Option<Finish>
        ensures { result ≡ finish_told self.now.stage }
    {
        match self.stage {
            Stage::Over(finish) => Some(finish),
            _ => None,
        }
    }

    /// The swaps that were read, and the wallets of each.
    pub fn into_parts(self) -> (ManyJob, Vec<Vec<Option<Wallet>>>)
        ensures many { result.0 ≡ self.many }
        ensures wallets { map (λ v. v.items) result.1.items ≡ map (prepared_wallets Purpose.Run) self.many.jobs }
        ensures chains { AreBoundedChains self.many }
        ensures swaps { AreSwaps self.many }
        // Once the finish was read there are a swap and a chain.
        ensures some_swap { is_some (finish_told self.stage) ≡ true → 1 ≤ length self.many.jobs }
        ensures some_chain { is_some (finish_told self.stage) ≡ true → 1 ≤ length self.many.names }
    {
        let Heading {
            names,
            units,
            jobs,
            chains,
            wallets,
            ..
        } = self;
        let many = ManyJob {
            names: Listed::new(names),
            units: Listed::new(units),
            jobs: Listed::new(jobs),
            chains: Listed::new(chains),
        };
        (many, wallets)
    }
}
