//! The words of the command line.
ghost use Rattle.std.specs.Prelude.{◌≡◌, ◌≢◌, [], codes, map, option_map, None, Some, IfOk, IfErr, false};
ghost use Rattle.std.specs.String.{string_bytes};
ghost use Rattle.clap.specs.Faults.{fault_of};
ghost use Rattle.clap.specs.Matches.{found_of};
ghost use Rattle.clap.specs.Simple.{app_of, matches_of, new_app, on_top, with_rule};
ghost use Rattle.clap.specs.Values.{kind_of};
ghost use Rattle.clap.specs.Walk.{first_of, is_empty, rows_of};
ghost use Rattle.clap.specs.declared.error.kind.ErrorKind.TheVariants.{OutOfMemory};
ghost use Rattle.command_words.specs.declared.options.TheConstants.{DEFAULT_OPTIONS};
ghost use Rattle.command_words.specs.Values.{mode_of, order_of, workers_of, delay_of, seed_of};
ghost use Rattle.command_words.specs.Words as rules;

use crate::options::{DEFAULT_OPTIONS, Options, WordsFault};
use crate::values::{delay_in, mode_in, order_in, seed_in, workers_in};
use clap::error::ErrorKind;
use clap::{Arg, ArgAction, ArgMatches, Command, Error};
use rma_types::{Delay, Order};
use run_texts::Mode;
use std::alloc::{AllocError, Global};

/// The command with one more option, which takes one value.
fn with_option<'a>(
    alloc: Global,
    command: Command<'a>,
    name: &'a str,
) -> Result<Command<'a>, AllocError>
    ensures { IfOk result (λ made. app_of made ≡
        with_rule (app_of command.entry) (rules.option_rule name.entry.now)) }
{
    let option = Arg::new(alloc, name).long(name).action(ArgAction::Set);
    command.arg(option)
}

/// The command without options.
fn bare_command<'a>(alloc: Global) -> Command<'a>
    ensures { app_of result ≡ on_top rules.bare (new_app (codes "rma_runner")) }
{
    Command::new(alloc, "rma_runner")
        .no_binary_name(true)
        .disable_help_flag(true)
}

/// The command with its five options.
fn whole_command<'a>(alloc: Global) -> Result<Command<'a>, AllocError>
    ensures { IfOk result (λ made. app_of made ≡ rules.command) }
{
    let command = bare_command(alloc);
    let command = with_option(alloc, command, "mode")?;
    let command = with_option(alloc, command, "order")?;
    let command = with_option(alloc, command, "workers")?;
    let command = with_option(alloc, command, "delay")?;
    with_option(alloc, command, "seed")
}

/// The text that the words give an option.
#[tactic(auto, using(crate::proofs::Matches::text_in_rows))]
fn text_of<'a>(matches: &ArgMatches<'a>, name: &str) -> Option<&'a str>
    ensures { option_map (λ text. text.now) result ≡
        first_of name.now (rows_of (found_of matches.now)) }
{
    matches.get_str(name)
}

fn mode_given(matches: &ArgMatches) -> Option<Mode>
    ensures { result ≡ rules.value_or (DEFAULT_OPTIONS.mode) mode_of
        (first_of (codes "mode") (rows_of (found_of matches.now))) }
{
    match text_of(matches, "mode") {
        Some(text) => mode_in(text),
        None => Some(DEFAULT_OPTIONS.mode),
    }
}

fn order_given(matches: &ArgMatches) -> Option<Order>
    ensures { result ≡ rules.value_or (DEFAULT_OPTIONS.order) order_of
        (first_of (codes "order") (rows_of (found_of matches.now))) }
{
    match text_of(matches, "order") {
        Some(text) => order_in(text),
        None => Some(DEFAULT_OPTIONS.order),
    }
}

fn workers_given(matches: &ArgMatches) -> Option<u8>
    ensures { result ≡ rules.value_or (DEFAULT_OPTIONS.workers) workers_of
        (first_of (codes "workers") (rows_of (found_of matches.now))) }
{
    match text_of(matches, "workers") {
        Some(text) => workers_in(text),
        None => Some(DEFAULT_OPTIONS.workers),
    }
}

fn delay_given(matches: &ArgMatches) -> Option<Delay>
    ensures { result ≡ rules.value_or (DEFAULT_OPTIONS.delay) delay_of
        (first_of (codes "delay") (rows_of (found_of matches.now))) }
{
    match text_of(matches, "delay") {
        Some(text) => delay_in(text),
        None => Some(DEFAULT_OPTIONS.delay),
    }
}

fn seed_given(matches: &ArgMatches) -> Option<u32>
    ensures { result ≡ rules.value_or (DEFAULT_OPTIONS.seed) seed_of
        (first_of (codes "seed") (rows_of (found_of matches.now))) }
{
    match text_of(matches, "seed") {
        Some(text) => seed_in(text),
        None => Some(DEFAULT_OPTIONS.seed),
    }
}

/// The options that the matches give.
fn options_in(matches: &ArgMatches) -> Option<Options>
    ensures { result ≡ rules.options_in (rows_of (found_of matches.now)) }
{
    Some(Options {
        mode: mode_given(matches)?,
        order: order_given(matches)?,
        workers: workers_given(matches)?,
        delay: delay_given(matches)?,
        seed: seed_given(matches)?,
    })
}

fn why_none(error: &Error) -> WordsFault
    ensures memory { kind_of error.now ≡ OutOfMemory → result ≡ WordsFault.NoMemory }
    ensures usage { result ≡ WordsFault.Usage → kind_of error.now ≢ OutOfMemory }
    ensures no_memory { result ≡ WordsFault.NoMemory → kind_of error.now ≡ OutOfMemory }
{
    match error.kind() {
        ErrorKind::OutOfMemory => WordsFault::NoMemory,
        _ => WordsFault::Usage,
    }
}

/// The matches of the words, where the command takes them.
#[tactic(auto, using(crate::proofs::Matches::command_is_free, crate::proofs::Matches::command_is_simple, crate::proofs::Matches::some_kind))]
fn matches_in<'a>(alloc: Global, words: &'a [String]) -> Result<ArgMatches<'a>, WordsFault>
    ensures taken { IfOk result (λ _. fault_of rules.command (map string_bytes words.entry.now) ≡
        []) }
    ensures rows { IfOk result (λ found.
        rows_of (found_of found) ≡ matches_of rules.command (map string_bytes words.entry.now)) }
    ensures refused { IfErr result (λ why. why ≡ WordsFault.Usage →
        is_empty (fault_of rules.command (map string_bytes words.entry.now)) ≡ false) }
{
    let Ok(command) = whole_command(alloc) else {
        return Err(WordsFault::NoMemory);
    };
    match command.try_get_matches_from(words) {
        Ok(matches) => Ok(matches),
        Err(error) => Err(why_none(&error)),
    }
}

/// The options that the words of the command line stand for, by the definition of all lists of words (`options_of`).
pub fn read_words(alloc: Global, words: &[String]) -> Result<Options, WordsFault>
    ensures ok { IfOk result (λ options. rules.options_of (map string_bytes words.now) ≡
        Some options) }
    ensures refused { IfErr result (λ why. why ≡ WordsFault.Usage →
        rules.options_of (map string_bytes words.now) ≡ None) }
{
    let matches = matches_in(alloc, words)?;
    match options_in(&matches) {
        Some(options) => Ok(options),
        None => Err(WordsFault::Usage),
    }
}
