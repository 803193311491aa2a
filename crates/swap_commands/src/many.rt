//! The command `many`: several swaps on shared chains are run, and their reports are written.

ghost use Rattle.std.specs.Prelude.{◌≡◌, ◌<◌, IfOk, IfErr, Err, length, map, slice_index_or, is_some, [], true};
ghost use Rattle.swap_base.specs.Fault.{Fails};
ghost use Rattle.swap_offer.specs.Wallets.{prepared_wallets};
ghost use Rattle.swap_world.specs.Value.{new_world};
ghost use Rattle.swap_many.specs.Value.{AreAllHeld, HasManyGone, many_kept};
ghost use Rattle.many_lines.specs.Heading.{finish_told};
ghost use Rattle.many_lines.specs.Event.{next_told};
ghost use Rattle.many_lines.specs.Whole.{AreBoundedChains, AreSwaps, HoldsEverySwap};
ghost use Rattle.many_text.specs.Shown.{AreChainsShown, AreShown};
ghost use Rattle.command_input.specs.Input.{Ends, Fits, Stops, ahead, desk, fresh};
ghost use Rattle.command_input.specs.Written.{StatusWrites};
ghost use Rattle.command_input.specs.Streams.{streams};
ghost use Rattle.swap_commands.specs.Many.{kept_after_finish, headed, many_written, opened_places};
ghost use Rattle.swap_commands.specs.ManyRead.{AreRun, CanReplayMany, HasStepped, IsHeading, IsLack, IsManyPlayed, AreOpenedWorlds, places_after_events};
ghost use Rattle.swap_commands.specs.Says.{CommandSays, IsCommandRefusal};
ghost use Rattle.swap_commands.specs.Walk.{ReadsOrStops};
ghost use Rattle.swap_commands.specs.Words.{Many};
ghost use Rattle.swap_commands.specs.Strategies.{given_strategies};

use crate::header::strategy_names;
use crate::replay::new_world;
use crate::walk::{Skip, Walker, walk};
use command_input::{HeaderFault, Input, InputFault, Reason, Refusal, Status, nameless, unread};
use many_lines::{Heading, ManyJob, find_places, next_many};
use many_text::write_many;
use party_wallet::Wallet;
use std::alloc::Global;
use swap_base::{ByteText, Fault, Listed, NoMemory, TryCopy};
use swap_io::{Sink, Source, TextFault};
use swap_job::{Finish, Purpose};
use swap_many::{ManyEvent, ManyWorld, Overdrawn};
use swap_run::Strategies;
use swap_world::World;

/// Several swaps, what is done after their last event, and their worlds after it.
#[derive(Drop)]
struct Played {
    many: ManyJob,
    finish: Finish,
    world: ManyWorld,
}

/// The refusal of an input that ends before its events.
fn cut_short(alloc: Global) -> InputFault<Refusal>
    ensures { result ≡ InputFault.Refused (record { reason = Reason.CutShort; names = [] }) }
{
    InputFault::Refused(nameless(alloc, Reason::CutShort))
}

/// The lines before the events.
fn read_heading<S: Source, A: Strategies>(
    alloc: Global,
    strategies: &A,
    input: &mut Input,
    source: &mut S,
) -> Result<Heading, InputFault<Refusal>>
    requires { input.old ≡ fresh }
    ensures over { IfOk result (λ h. is_some (finish_told h.stage) ≡ true) }
    ensures held { IfOk result (λ h. HoldsEverySwap (A.holds strategies.now) h.many) }
    ensures reads { ReadsOrStops (IsHeading (A.holds strategies.now)) (λ bytes r. headed (A.holds strategies.now) (ahead fresh bytes) ≡ Err r)
        (desk (S.left source.old) (S.faults source.old) fresh) (desk (S.left source.new) (S.faults source.new) input.new) result }
{
    let names = strategy_names(strategies)?;
    let mut heading = Heading::new(alloc)?;
    'lines: while heading.finish().is_none() {
        if !input.next(source)? {
            return Err(cut_short(alloc));
        }
        heading.push(alloc, names.as_slice(), input.number(), input.text())?;
    }
    Ok(heading)
}

/// A copy of the name of an account.
fn account_name(names: &[Listed<ByteText>], chain: u8, account: u8) -> Result<ByteText, NoMemory>
    requires chain { chain < length names.now }
    requires account { account < length (slice_index_or names.now chain []) }
    ensures { IfOk result (λ n. n ≡ slice_index_or (slice_index_or names.now chain []) account []) }
{
    names[chain as usize].as_slice()[account as usize].copy()
}

/// The refusal of chains on which an account lacks units.
fn overdrawn(alloc: Global, many: &ManyJob, lack: Overdrawn) -> HeaderFault
    requires chain { lack.chain < length many.now.names }
    requires account { lack.account < length (slice_index_or many.now.names lack.chain []) }
    ensures { IsLack many.now (Fault.Refused lack) result }
{
    match account_name(many.names.as_slice(), lack.chain, lack.account) {
        Ok(name) => Fault::Refused(nameless(
            alloc,
            Reason::Overdrawn(lack.chain, name, lack.have, lack.wanted),
        )),
        Err(NoMemory) => Fault::NoMemory,
    }
}

/// The worlds of swaps whose conforming parties have these wallets.
fn new_worlds(
    alloc: Global,
    many: &ManyJob,
    wallets: Vec<Vec<Option<Wallet>>>,
) -> Result<Vec<World>, NoMemory>
    requires swaps { AreSwaps many.now }
    requires made { map (λ v. v.items) wallets.items ≡ map (prepared_wallets Purpose.Run) many.now.jobs }
    ensures { IfOk result (λ v. v.items ≡ map new_world many.now.jobs) }
{
    let jobs = many.jobs.as_slice();
    let mut worlds = Vec::new(alloc);
    'swaps: for own in wallets {
        let world = new_world(alloc, &jobs[worlds.len()], own)?;
        worlds.push(world)?;
    }
    Ok(worlds)
}

/// The worlds on their chains, or what is said of an account that lacks units or isn't there.
fn open(
    alloc: Global,
    many: &ManyJob,
    wallets: Vec<Vec<Option<Wallet>>>,
) -> Result<ManyWorld, HeaderFault>
    requires chains { AreBoundedChains many.now }
    requires swaps { AreSwaps many.now }
    requires made { map (λ v. v.items) wallets.items ≡ map (prepared_wallets Purpose.Run) many.now.jobs }
    ensures opened { IfOk result (AreOpenedWorlds many.now) }
    ensures refused { IfErr result (λ e. Fails e (opened_places many.now)) }
{
    let places = find_places(alloc, many)?;
    let worlds = new_worlds(alloc, many, wallets)?;
    match ManyWorld::new(alloc, many.units.as_slice(), worlds, places) {
        Ok(world) => Ok(world),
        Err(Fault::Refused(lack)) => Err(overdrawn(alloc, many, lack)),
        Err(Fault::NoMemory) => Err(Fault::NoMemory),
    }
}

/// The worlds step by the events of the swaps' lines, where `strategies` answers for each party
/// that follows a strategy.
impl<'v, A: Strategies> Walker<(&'v ManyJob, &'v A), Refusal> for ManyWorld {
    type Event = ManyEvent;

    ghost can_take = { λ c w. CanReplayMany (A.holds c.1.now) c.0.now w };

    ghost told = { λ c. next_told c.0.now };

    ghost leads = { λ c. HasStepped (A.gives c.1.now) c.0.now };

    fn take(
        &mut self,
        alloc: Global,
        context: (&'v ManyJob, &'v A),
        count: u32,
        line: u32,
        text: &[u8],
    ) -> Result<(), HeaderFault> {
        let (many, strategies) = context;
        let event = next_many(alloc, many, count, line, text)?;
        self.step(strategies, &event)?;
        Ok(())
    }
}

/// The events of the swaps' lines are read and passed over.
impl<'v> Walker<&'v ManyJob, Refusal> for Skip {
    type Event = ManyEvent;

    ghost can_take = { λ many u. AreBoundedChains many.now × AreSwaps many.now };

    ghost told = { λ many. next_told many.now };

    ghost leads = { λ many u e v. Unit };

    fn take(
        &mut self,
        alloc: Global,
        many: &'v ManyJob,
        count: u32,
        line: u32,
        text: &[u8],
    ) -> Result<(), HeaderFault> {
        next_many(alloc, many, count, line, text)?;
        Ok(())
    }
}

/// Reads on to the end of the input and answers why it is refused: by the first faulty line of an
/// event, or else by `refusal`, which speaks of the swaps before any event.
fn refuse<S: Source>(
    alloc: Global,
    many: &ManyJob,
    refusal: Refusal,
    input: &mut Input,
    source: &mut S,
) -> InputFault<Refusal>
    requires chains { AreBoundedChains many.now }
    requires swaps { AreSwaps many.now }
    requires refused { opened_places many.now ≡ Err refusal }
    requires fits { Fits (S.left source.old) input.old }
    ensures stops { Stops (λ bytes r. places_after_events many.now (ahead input.old bytes) ≡ Err r) (desk (S.left source.old) (S.faults source.old) input.old)
        (desk (S.left source.new) (S.faults source.new) input.new) result }
{
    match walk(alloc, many, &mut Skip, input, source) {
        Ok(()) => InputFault::Refused(refusal),
        Err(fault) => fault,
    }
}

/// The worlds of the swaps after all events.
fn run_events<S: Source, A: Strategies>(
    alloc: Global,
    many: &ManyJob,
    wallets: Vec<Vec<Option<Wallet>>>,
    strategies: &A,
    input: &mut Input,
    source: &mut S,
) -> Result<ManyWorld, InputFault<Refusal>>
    requires chains { AreBoundedChains many.now }
    requires swaps { AreSwaps many.now }
    requires made { map (λ v. v.items) wallets.items ≡ map (prepared_wallets Purpose.Run) many.now.jobs }
    requires held { HoldsEverySwap (A.holds strategies.now) many.now }
    requires fits { Fits (S.left source.old) input.old }
    ensures held { IfOk result (AreAllHeld (A.holds strategies.now)) }
    ensures reads { ReadsOrStops (AreRun (A.gives strategies.now) many.now) (λ bytes r. places_after_events many.now (ahead input.old bytes) ≡ Err r)
        (desk (S.left source.old) (S.faults source.old) input.old) (desk (S.left source.new) (S.faults source.new) input.new) result }
{
    match open(alloc, many, wallets) {
        Ok(mut world) => {
            walk(alloc, (many, strategies), &mut world, input, source)?;
            Ok(world)
        }
        Err(Fault::Refused(refusal)) => Err(refuse(alloc, many, refusal, input, source)),
        Err(Fault::NoMemory) => Err(InputFault::NoMemory),
    }
}

/// The swaps of an input, and their worlds after all events.
fn play<S: Source, A: Strategies>(
    alloc: Global,
    strategies: &A,
    input: &mut Input,
    source: &mut S,
) -> Result<Played, InputFault<Refusal>>
    requires { input.old ≡ fresh }
    ensures chains { IfOk result (λ p. AreBoundedChains p.many) }
    ensures swaps { IfOk result (λ p. AreSwaps p.many) }
    ensures held { IfOk result (λ p. AreAllHeld (A.holds strategies.now) p.world) }
    ensures reads { ReadsOrStops (λ p. Ends (λ bytes. IsManyPlayed (A.holds strategies.now) (A.gives strategies.now) bytes p.many p.finish p.world))
        (IsCommandRefusal (A.holds strategies.now) Many)
        (desk (S.left source.old) (S.faults source.old) fresh) (desk (S.left source.new) (S.faults source.new) input.new) result }
{
    let heading = read_heading(alloc, strategies, input, source)?;
    let finish = heading.finish().unwrap();
    let (many, wallets) = heading.into_parts();
    match run_events(alloc, &many, wallets, strategies, input, source) {
        Ok(world) => Ok(Played {
            many,
            finish,
            world,
        }),
        Err(fault) => Err(fault),
    }
}

/// The worlds after the finish of the swaps.
fn conclude<A: Strategies>(
    strategies: &A,
    finish: Finish,
    mut world: ManyWorld,
) -> Result<ManyWorld, NoMemory>
    requires held { AreAllHeld (A.holds strategies.now) world }
    ensures { IfOk result (λ w. HasManyGone (A.gives strategies.now) (kept_after_finish finish) world w) }
{
    match finish {
        Finish::Stop => Ok(world),
        Finish::Fair => {
            world.finish_fair(strategies)?;
            Ok(world)
        }
    }
}

/// Writes the text of the swaps, and says whether it tells of a finding.
fn write_played_swaps<K: Sink>(
    alloc: Global,
    sink: &mut K,
    many: &ManyJob,
    world: &ManyWorld,
) -> Status
    requires shown { AreShown world.now many.now.jobs }
    requires chains { AreChainsShown world.now many.now.names }
    ensures { StatusWrites (K.taken sink.old) (K.taken sink.new) (K.faults sink.old) (K.faults sink.new) (many_written many.now (many_kept world.now)) result }
{
    match write_many(
        alloc,
        sink,
        many.jobs.as_slice(),
        many.names.as_slice(),
        world,
    ) {
        Ok(false) => Status::Done,
        Ok(true) => Status::Named,
        Err(TextFault::WriteFault) => Status::WriteFault,
        Err(TextFault::NoMemory) => Status::NoMemory,
    }
}

/// Runs several swaps on shared chains.
pub(crate) fn many<S: Source, K: Sink, A: Strategies>(
    alloc: Global,
    strategies: &A,
    input: &mut Input,
    source: &mut S,
    sink: &mut K,
) -> Status
    requires { input.old ≡ fresh }
    ensures { CommandSays (given_strategies (A.holds strategies.now) (A.gives strategies.now)) Many
        (streams (S.left source.old) (S.faults source.old) (K.taken sink.old) (K.faults sink.old))
        (streams (S.left source.new) (S.faults source.new) (K.taken sink.new) (K.faults sink.new)) result }
{
    let Played {
        many,
        finish,
        world,
    } = match play(alloc, strategies, input, source) {
        Ok(played) => played,
        Err(fault) => return unread(input.stop(source, fault)),
    };
    let Ok(world) = conclude(strategies, finish, world) else {
        return Status::NoMemory;
    };
    write_played_swaps(alloc, sink, &many, &world)
}
