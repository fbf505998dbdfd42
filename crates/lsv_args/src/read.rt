ghost use Rattle.std.specs.Prelude.{◌≡◌, ◌≢◌, [], Some, None, IsTrue, IfOk, OnOk, map};
ghost use Rattle.std.specs.List.{list_all};
ghost use Rattle.std.specs.Str.{is_utf8};
ghost use Rattle.clap.specs.Words.{fault_of, found_of, rows_of, subcommand_of, subcommand_rows_of};
ghost use Rattle.lsv_args.specs.Commands.{commands};
ghost use Rattle.lsv_args.specs.Reading.{IsInRange, asked, asked_by, asked_in, number_in, number_of, options_in, options_of};
ghost use Rattle.lsv_args.specs.declared.command.ArgFault.TheVariants as faults;

use crate::commands::commands;
use crate::{ArgFault, Command, Opts};
use clap::ArgMatches;
use clap::error::ErrorKind;
use lsv_base::{Bytes, List, NoMem};
use std::alloc::{AllocError, Global};
use std::str;

/// This many workers serve where the words name none.
const DEFAULT_WORKERS: u32 = 4;

/// The settings file where the words name none.
const DEFAULT_CONF: &str = "/etc/sudo_logsrvd.conf";

impl From<NoMem> for ArgFault {
    ghost from_gives = { λ _ fault. fault ≡ faults.NoMem };

    fn from(_: NoMem) -> Self {
        ArgFault::NoMem
    }
}

impl From<AllocError> for ArgFault {
    ghost from_gives = { λ _ fault. fault ≡ faults.NoMem };

    fn from(_: AllocError) -> Self {
        ArgFault::NoMem
    }
}

/// The words as texts.
fn texts_of(alloc: Global, words: &[Bytes]) -> Result<Vec<&str>, AllocError>
    requires { IsTrue (list_all is_utf8 words.now) }
    ensures { IfOk result (λ texts. map (λ t. t.now) texts.items ≡ words.now) }
{
    let mut texts = Vec::with_capacity(alloc, words.len())?;
    for word in words {
        let Ok(text) = str::from_utf8(word.as_slice()) else {
            unreachable!();
        };
        texts.push(text)?;
    }
    Ok(texts)
}

/// The number that a value states.
fn number_in(text: &str) -> Option<u32>
    ensures { result ≡ number_in text.now }
{
    text.parse::<u32>().ok()
}

/// The number that is the value of an argument, if there is one.
fn number(found: &ArgMatches<'_>, id: &str) -> Option<u32>
    ensures { result ≡ number_of (rows_of (found_of found.now)) id.now }
{
    number_in(found.get_str(id)?)
}

/// The options of a command.
fn opts_of(alloc: Global, found: &ArgMatches<'_>) -> Result<Opts, NoMem>
    ensures { IfOk result (λ opts. options_in opts ≡ options_of (rows_of (found_of found.now))) }
{
    let conf = found.get_str("conf").unwrap_or(DEFAULT_CONF);
    Ok(Opts {
        conf: Bytes::of(alloc, conf.as_bytes())?,
        lanes: number(found, "lanes").unwrap_or(1),
        workers: number(found, "workers").unwrap_or(DEFAULT_WORKERS),
        stop_after: number(found, "stop-after"),
    })
}

/// What the command that was found asks for.
fn command_of(alloc: Global, name: &str, found: &ArgMatches<'_>) -> Result<Command, ArgFault>
    ensures ok { IfOk result (λ c. asked_by name.now (rows_of (found_of found.now)) ≡ Some (asked_in c)) }
    ensures usage { result ≡ Err ArgFault.Usage → asked_by name.now (rows_of (found_of found.now)) ≡ None }
{
    match name {
        "once" => Ok(Command::Once(opts_of(alloc, found)?)),
        "serve" => Ok(Command::Serve(opts_of(alloc, found)?)),
        "load" => {
            let count = number(found, "count").ok_or(ArgFault::Usage)?;
            Ok(Command::Load(opts_of(alloc, found)?, count))
        }
        "relay" => Ok(Command::Relay(opts_of(alloc, found)?)),
        "check" => Ok(Command::Check(opts_of(alloc, found)?)),
        _ => Err(ArgFault::Usage),
    }
}

/// What clap makes of the words.
fn matched<'a>(alloc: Global, words: &'a [&'a str]) -> Result<ArgMatches<'a>, ArgFault>
    ensures taken { OnOk result (fault_of commands (map (λ w. w.now) words.entry.now) ≡ []) }
    ensures matches { IfOk result (λ m. subcommand_rows_of m ≡ subcommand_of commands (map (λ w. w.now) words.entry.now)) }
    ensures usage { result ≡ Err ArgFault.Usage → fault_of commands (map (λ w. w.now) words.entry.now) ≢ [] }
{
    let commands = commands(alloc)?;
    match commands.try_get_matches_from(words) {
        Ok(matches) => Ok(matches),
        Err(error) => Err(match error.kind() {
            ErrorKind::OutOfMemory => ArgFault::NoMem,
            _ => ArgFault::Usage,
        }),
    }
}

/// Reads the words after the program's name.
pub fn read_words(alloc: Global, words: &List<Bytes>) -> Result<Command, ArgFault>
    requires { IsTrue (list_all is_utf8 words.now) }
    ensures ok { IfOk result (λ c. asked words.now ≡ Some (asked_in c)) }
    ensures in_range { IfOk result (λ c. IsInRange (asked_in c)) }
    ensures taken { OnOk result (fault_of commands words.now ≡ []) }
    ensures usage { result ≡ Err ArgFault.Usage → fault_of commands words.now ≢ [] }
{
    let texts = texts_of(alloc, words.as_slice())?;
    let matches = matched(alloc, texts.as_slice())?;
    match matches.subcommand() {
        Some((name, found)) => command_of(alloc, name, found),
        None => Err(ArgFault::Usage),
    }
}
