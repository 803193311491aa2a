//! Whole offers, read at once.

use crate::tests::deals::TIMELOCKS;
use command_input::Refusal;
use std::alloc::Global;
use std::test::Fail;
use swap_base::Fault;
use swap_job::{Event, Job, Purpose};
use swap_offer::read_job;

/// How many names are told, and how many events where the job is read.
fn job_counts(read: &Result<(Job, Vec<Event>), Fault<Refusal>>) -> (usize, Option<usize>) {
    match read {
        Ok((job, events)) => (job.names.len(), Some(events.len())),
        Err(Fault::Refused(refusal)) => (refusal.names.len(), None),
        Err(Fault::NoMemory) => (0, None),
    }
}

/// How many names and events are read of a text that isn't too long.
fn counts(alloc: Global, text: &str) -> (usize, Option<usize>) {
    if text.len() >= 1_000_000 {
        return (0, None);
    }
    let read = read_job(alloc, text.as_bytes(), Purpose::Run, &[]);
    job_counts(&read)
}

/// Of the deal with such lines behind it.
fn line_counts(alloc: Global, lines: &str) -> Result<(usize, Option<usize>), Fail> {
    let text = format!(in alloc; "{TIMELOCKS}{lines}")?;
    Ok(counts(alloc, text.as_str()))
}

#[test]
fn reads_a_job_with_its_events(rt: HostRuntime) -> Result<(), Fail> {
    let lines = "\n \t\n{\"tick\":2,\"by\":40}\n{\"act\":\"bob\"}";
    let (names, events) = line_counts(rt.alloc(), lines)?;
    assert!(rt; names == 3 && events == Some(2));
    Ok(())
}

#[test]
fn refuses_a_job_with_its_names(rt: HostRuntime) -> Result<(), Fail> {
    let (names, events) = line_counts(rt.alloc(), "\n{\"act\":\"dave\"}\n")?;
    assert!(rt; names == 3 && events.is_none());
    Ok(())
}
