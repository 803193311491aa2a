//! An input is replayed as it comes: its first event is over before much of what follows is asked
//! for.

ghost use Rattle.std.specs.Prelude.{IfOk};
ghost use Rattle.swap_io.specs.Supply.{supply_tape};
ghost use Rattle.swap_run.specs.View.{IsView, MayAnswer};

use crate::tests::attackers::Answered;
use crate::tests::deals::{HASHKEYS, edited};
use crate::tests::runs::{collect_words, rule_kit};
use ledger_core::Book;
use std::alloc::Global;
use std::sync::atomic::AtomicBool;
use std::sync::atomic::Ordering::SeqCst;
use std::test::Fail;
use swap_base::{PartyId, Shared, TryCopy};
use swap_digraph::Deal;
use swap_io::{Failed, Source, TextSink, VecSource};
use swap_main::{Status, swap_plain};
use swap_run::{Kit, Rule};

/// Up to which byte a source may be asked before the first event is over.
const NEAR: usize = 65_536;

/// A source in memory that raises a flag when it is asked past its first bytes.
#[derive(Drop)]
struct Watched {
    source: VecSource,
    given: usize,
    far: Shared<AtomicBool>,
}

impl Source for Watched {
    ghost left = { λ w. supply_tape w.source };

    ghost faults = { λ w. w.source.faults };

    fn read(&mut self, buf: &mut [u8]) -> Result<usize, Failed> {
        if self.given.saturating_add(buf.len()) > NEAR {
            self.far.store(true, SeqCst);
        }
        let count = self.source.read(buf)?;
        self.given = self.given.saturating_add(count);
        Ok(count)
    }
}

/// A job of 200,000 bytes, whose first event asks carol's strategy.
fn long_job(alloc: Global) -> Result<Vec<u8>, Fail> {
    let actor = r#""carol", => "carol","actor":{"strategy":"watcher"},"#;
    let header = edited(alloc, HASHKEYS, actor)?;
    let ticks = "{\"tick\":0}\n".repeat(alloc, 18_200)?;
    Ok(format!(in alloc; "{header}{{\"act\":\"carol\"}}\n{ticks}")?.into_bytes())
}

/// The job as a source.
fn source(alloc: Global) -> Result<VecSource, Fail> {
    let job = long_job(alloc)?;
    if job.len() < 200_000 {
        return Err("too short".into());
    }
    Ok(VecSource::new(job, 4096, Vec::new(alloc)))
}

/// Whether what the program answers to such words, without races, names findings.
fn names_findings(alloc: Global, words: &Vec<String>, source: &mut Watched, kit: &Kit) -> bool {
    let mut sink = TextSink::new(alloc);
    matches!(
        swap_plain(alloc, words, source, &mut sink, kit),
        Status::Named
    )
}

/// Whether a run of what the source gives names findings, where the strategy `watcher` makes no
/// call, and notes that the first flag is down.
fn is_named_early(
    alloc: Global,
    far: Shared<AtomicBool>,
    early: Shared<AtomicBool>,
    source: &mut Watched,
) -> Result<bool, Fail> {
    let rule: Rule = Box::new(
        alloc,
        move |deal: &Deal, me: PartyId, _turn: u32, known: &Book| -> Answered
            requires view { IsView deal.now me known.now.histories }
            ensures fits { IfOk result (MayAnswer deal.now me) }
        {
            early.store(!far.load(SeqCst), SeqCst);
            Ok(None)
        },
    )?;
    let kit = rule_kit(alloc, "watcher", rule)?;
    let words = collect_words(alloc, "run")?;
    Ok(names_findings(alloc, &words, source, &kit))
}

/// The run of a long job, which names that no ledger ended.
fn run_early(
    alloc: Global,
    far: &Shared<AtomicBool>,
    early: &Shared<AtomicBool>,
) -> Result<bool, Fail> {
    let mut watched = Watched {
        source: source(alloc)?,
        given: 0,
        far: far.copy()?,
    };
    is_named_early(alloc, far.copy()?, early.copy()?, &mut watched)
}

#[test]
fn streams_its_input(rt: HostRuntime) -> Result<(), Fail> {
    let far = Shared::new(rt.alloc(), AtomicBool::new(false))?;
    let early = Shared::new(rt.alloc(), AtomicBool::new(false))?;
    assert!(rt; run_early(rt.alloc(), &far, &early)?);
    assert!(rt; early.load(SeqCst) && far.load(SeqCst));
    Ok(())
}
