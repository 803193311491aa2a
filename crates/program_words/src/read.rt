//! The task that words ask for.

ghost use Rattle.std.specs.Prelude.{◌≡◌, ◌<◌, ◌^◌, ℕ, IfErr, IfOk, List, None, Ok, Some, drop, false, length, map, string_bytes, true};
ghost use Rattle.clap.specs.Matches.{found_of, one_text};
ghost use Rattle.clap.specs.Simple.{app_of};
ghost use Rattle.clap.specs.Values.{kind_of};
ghost use Rattle.clap.specs.Walk.{rule_of};
ghost use Rattle.program_words.specs.Parsed.{AreRead, Numbers, verb_app, bare_app, flag_rule, number_rule};
ghost use Rattle.program_words.specs.Tables.{choices};
ghost use Rattle.program_words.specs.Words.{are_well_formed, verb_task, task_text, AreNumbersInRange};
ghost use Rattle.program_words.specs.declared.task.Task.{Task};

use crate::task::{Order, Request, Task};
use crate::verb::{Verb, parse_verb};
use crate::well_formed::are_well_formed;
use clap::error::ErrorKind;
use clap::{Arg, ArgAction, ArgMatches, Error};
use std::alloc::{AllocError, Global};
use swap_base::NoMemory;

/// A command with no options yet, and none for help.
fn bare<'a>(alloc: Global, name: &'a str) -> clap::Command<'a>
    ensures { app_of result ≡ bare_app name.entry.now }
{
    clap::Command::new(alloc, name).disable_help_flag(true)
}

/// An option that takes no number.
fn flag<'a>(alloc: Global, name: &'a str) -> Arg<'a>
    ensures rule { rule_of result ≡ flag_rule name.entry.now }
    ensures own { result.global ≡ false }
{
    Arg::new(alloc, name).long(name).action(ArgAction::SetTrue)
}

/// An option that takes a number.
fn number<'a>(alloc: Global, name: &'a str) -> Arg<'a>
    ensures rule { rule_of result ≡ number_rule name.entry.now }
    ensures own { result.global ≡ false }
{
    Arg::new(alloc, name).long(name)
}

fn run_command<'a>(alloc: Global) -> Result<clap::Command<'a>, AllocError>
    ensures { IfOk result (λ command. app_of command ≡ verb_app Verb.Run) }
{
    bare(alloc, "run").arg(flag(alloc, "transcript"))
}

fn race_command<'a>(alloc: Global) -> Result<clap::Command<'a>, AllocError>
    ensures { IfOk result (λ command. app_of command ≡ verb_app Verb.Race) }
{
    bare(alloc, "race")
        .arg(number(alloc, "ticks"))?
        .arg(flag(alloc, "transcript"))
}

fn gen_command<'a>(alloc: Global) -> Result<clap::Command<'a>, AllocError>
    ensures { IfOk result (λ command. app_of command ≡ verb_app Verb.Gen) }
{
    bare(alloc, "gen")
        .arg(number(alloc, "seed"))?
        .arg(number(alloc, "parties"))?
        .arg(number(alloc, "events"))?
        .arg(flag(alloc, "summary"))
}

/// The command line of a first word.
fn verb_command<'a>(alloc: Global, verb: Verb) -> Result<clap::Command<'a>, AllocError>
    ensures { IfOk result (λ command. app_of command ≡ verb_app verb) }
{
    match verb {
        Verb::Check => Ok(bare(alloc, "check")),
        Verb::Run => run_command(alloc),
        Verb::Race => race_command(alloc),
        Verb::Audit => Ok(bare(alloc, "audit")),
        Verb::Make => Ok(bare(alloc, "make")),
        Verb::Gen => gen_command(alloc),
        Verb::Clear => Ok(bare(alloc, "clear")),
        Verb::Many => Ok(bare(alloc, "many")),
    }
}

/// What the words give the options of their first word. It fails for want of memory alone.
fn option_matches<'a>(
    alloc: Global,
    verb: Verb,
    words: &'a [String],
) -> Result<ArgMatches<'a>, Error>
    requires some { 0 < length words.now }
    requires whole { are_well_formed verb (map string_bytes (drop 1 words.now)) ≡ true }
    ensures read { IfOk result (AreRead (choices verb) (map string_bytes (drop 1 words.now))) }
    ensures memory { IfErr result (λ error. kind_of error ≡ ErrorKind.OutOfMemory) }
{
    let command = verb_command(alloc, verb)?;
    match command.try_get_matches_from(words) {
        Ok(matches) => Ok(matches),
        Err(error) => Err(error),
    }
}

/// The number of an option, where it is given.
fn given_number(matches: &ArgMatches<'_>, name: &str) -> Option<u32>
    ensures none { one_text (found_of matches.now) name.now ≡ None → result ≡ None }
    ensures number { Numbers (2 ^ 32) (one_text (found_of matches.now) name.now) result }
{
    matches.get_one(name)
}

/// The number of an option whose numbers are below 256, where it is given.
fn given_small_number(matches: &ArgMatches<'_>, name: &str) -> Option<u8>
    ensures none { one_text (found_of matches.now) name.now ≡ None → result ≡ None }
    ensures number { Numbers (2 ^ 8) (one_text (found_of matches.now) name.now) result }
{
    matches.get_one(name)
}

fn run_task(matches: &ArgMatches<'_>) -> Task
    ensures { (words : List (List ℕ)) → are_well_formed Verb.Run words ≡ true → AreRead (choices Verb.Run) words matches.now → result ≡ verb_task Verb.Run words }
{
    Task::Input(Order::Run {
        transcript: matches.get_flag("transcript"),
    })
}

fn race_task(matches: &ArgMatches<'_>) -> Task
    ensures { (words : List (List ℕ)) → are_well_formed Verb.Race words ≡ true → AreRead (choices Verb.Race) words matches.now
        → result ≡ verb_task Verb.Race words }
{
    Task::Race {
        ticks: given_number(matches, "ticks").unwrap_or(1),
        transcript: matches.get_flag("transcript"),
    }
}

fn gen_task(matches: &ArgMatches<'_>) -> Task
    ensures { (words : List (List ℕ)) → are_well_formed Verb.Gen words ≡ true → AreRead (choices Verb.Gen) words matches.now → result ≡ verb_task Verb.Gen words }
{
    Task::Number(Request {
        seed: given_number(matches, "seed").unwrap_or(0),
        parties: given_small_number(matches, "parties").unwrap_or(0),
        events: given_number(matches, "events").unwrap_or(0),
        summary: matches.get_flag("summary"),
    })
}

/// The task, with the values of its options.
fn parse_task(verb: Verb, matches: &ArgMatches<'_>) -> Task
    ensures { (words : List (List ℕ)) → are_well_formed verb words ≡ true → AreRead (choices verb) words matches.now → result ≡ verb_task verb words }
{
    match verb {
        Verb::Check => Task::Input(Order::Check),
        Verb::Run => run_task(matches),
        Verb::Race => race_task(matches),
        Verb::Audit => Task::Input(Order::Audit),
        Verb::Make => Task::Input(Order::Make),
        Verb::Gen => gen_task(matches),
        Verb::Clear => Task::Input(Order::Clear),
        Verb::Many => Task::Input(Order::Many),
    }
}

/// Reads the task of well-formed words.
fn read_whole(alloc: Global, verb: Verb, words: &[String]) -> Result<Task, NoMemory>
    requires some { 0 < length words.now }
    requires whole { are_well_formed verb (map string_bytes (drop 1 words.now)) ≡ true }
    ensures exact { IfOk result (λ task. task ≡ verb_task verb (map string_bytes (drop 1 words.now))) }
    ensures within { IfOk result AreNumbersInRange }
{
    match option_matches(alloc, verb, words) {
        Ok(matches) => Ok(parse_task(verb, &matches)),
        Err(_) => Err(NoMemory),
    }
}

/// Reads the task that the words after the program's name ask for: `None` where they aren't well
/// formed.
#[tactic(auto, using(crate::proofs::Whole::no_task, crate::proofs::Whole::wrong_first, crate::proofs::Whole::wrong_rest, crate::proofs::Whole::whole_words))]
pub fn read_task(alloc: Global, words: &[String]) -> Result<Option<Task>, NoMemory>
    ensures exact { IfOk result (λ task. task ≡ task_text (map string_bytes words.now)) }
    // Words that aren't well formed are found without memory.
    ensures wrong { task_text (map string_bytes words.now) ≡ None → result ≡ Ok None }
    ensures within { (task : Task) → result ≡ Ok (Some task) → AreNumbersInRange task }
{
    let [first, rest @ ..] = words else {
        return Ok(None);
    };
    let Some(verb) = parse_verb(first.as_str()) else {
        return Ok(None);
    };
    if !are_well_formed(verb, rest) {
        return Ok(None);
    }
    Ok(Some(read_whole(alloc, verb, words)?))
}
