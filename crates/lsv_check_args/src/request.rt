//! What the words of the command line ask for.
ghost use Rattle.std.specs.Prelude.{◌≡◌, ◌≢◌, IsTrue, Some, None, [], Err, IfOk, OnOk, map, option_map, codes};
ghost use Rattle.std.specs.List.{list_all};
ghost use Rattle.std.specs.Str.{is_utf8};
ghost use Rattle.clap.specs.Words.{fault_of, found_of, matches_of, rows_of};
ghost use Rattle.lsv_args.specs.declared.command.ArgFault.TheVariants as faults;
ghost use Rattle.lsv_check_args.specs.Asked.{asked_in};
ghost use Rattle.lsv_check_args.specs.Program.{program};
ghost use Rattle.lsv_check_args.specs.Request.{Asks, IsUsage, asked_by, form_of, numbers_of};

use crate::program::program;
use crate::words::{are_text, numbers_in};
use clap::ArgMatches;
use clap::error::ErrorKind;
use lsv_args::ArgFault;
use lsv_base::{Bytes, List, LogNo};
use lsv_replay_args::{is_set, texts_of, value_of};
use std::alloc::Global;

/// The folder of the logs if the words don't name one.
const DEFAULT_DIR: &str = "/var/log/sudo-io";

/// In which form the logs are shown, and which.
#[derive(Clone, Copy, Debug, PartialEq, Eq)]
pub struct Form {
    /// Whether sound logs that are complete, and numbers without a log, are left out.
    pub quiet: bool,
    /// Whether each line is JSON.
    pub json: bool,
    /// Whether a complete log's line has the digest of its committed bytes.
    pub digest: bool,
}

/// What is asked for.
#[derive(Drop)]
pub struct Request {
    /// The folder of the logs.
    pub dir: String,
    /// The path of the event log's lines that is checked too; empty if none is.
    pub events: String,
    /// What is shown, and how.
    pub form: Form,
    /// The logs that are checked, in the order of the words; all of the store if it is empty.
    pub numbers: List<LogNo>,
}

/// Reads the words after the program's name. A word that isn't UTF-8, or that is to name a log and isn't the identifier of
/// one, is no word of the program's.
pub fn read_request(alloc: Global, words: &List<Bytes>) -> Result<Request, ArgFault>
    ensures ok { IfOk result (λ r. Asks words.now (asked_in r)) }
    ensures usage { result ≡ Err faults.Usage → IsUsage words.now }
{
    if !are_text(words.as_slice()) {
        return Err(ArgFault::Usage);
    }
    request_of_text(alloc, words)
}

/// Of words that are UTF-8.
fn request_of_text(alloc: Global, words: &List<Bytes>) -> Result<Request, ArgFault>
    requires { IsTrue (list_all is_utf8 words.now) }
    ensures ok { IfOk result (λ r. Asks words.now (asked_in r)) }
    ensures usage { result ≡ Err faults.Usage → IsUsage words.now }
{
    let texts = texts_of(alloc, words.as_slice())?;
    let found = matched(alloc, texts.as_slice())?;
    request_of(alloc, &found)
}

/// What clap makes of the words.
fn matched<'a>(alloc: Global, words: &'a [&'a str]) -> Result<ArgMatches<'a>, ArgFault>
    ensures taken { OnOk result (fault_of program (map (λ w. w.now) words.entry.now) ≡ []) }
    ensures rows { IfOk result (λ m. rows_of (found_of m) ≡ matches_of program (map (λ w. w.now) words.entry.now)) }
    ensures usage { result ≡ Err ArgFault.Usage → fault_of program (map (λ w. w.now) words.entry.now) ≢ [] }
{
    let program = program(alloc)?;
    match program.try_get_matches_from(words) {
        Ok(found) => Ok(found),
        Err(error) => Err(match error.kind() {
            ErrorKind::OutOfMemory => ArgFault::NoMem,
            _ => ArgFault::Usage,
        }),
    }
}

/// What the values ask for that clap found.
fn request_of(alloc: Global, found: &ArgMatches<'_>) -> Result<Request, ArgFault>
    ensures ok { IfOk result (λ r. asked_by (rows_of (found_of found.now)) ≡ Some (asked_in r)) }
    ensures usage { result ≡ Err ArgFault.Usage → asked_by (rows_of (found_of found.now)) ≡ None }
{
    let numbers = numbers_of(alloc, found)?;
    let dir = value_of(found, "dir").unwrap_or(DEFAULT_DIR);
    let events = value_of(found, "events").unwrap_or("");
    Ok(Request {
        dir: String::from_str(alloc, dir)?,
        events: String::from_str(alloc, events)?,
        form: form_of(found),
        numbers,
    })
}

/// What is shown, and how.
fn form_of(found: &ArgMatches<'_>) -> Form
    ensures { result ≡ form_of (rows_of (found_of found.now)) }
{
    Form {
        quiet: is_set(found, "quiet"),
        json: is_set(found, "json"),
        digest: is_set(found, "digest"),
    }
}

/// The numbers of the logs that are named. `Usage` if a word is no identifier.
fn numbers_of(alloc: Global, found: &ArgMatches<'_>) -> Result<List<LogNo>, ArgFault>
    ensures ok { IfOk result (λ numbers. numbers_of (rows_of (found_of found.now)) ≡ Some numbers) }
    ensures usage { result ≡ Err ArgFault.Usage → numbers_of (rows_of (found_of found.now)) ≡ None }
{
    match found.get_strs("ids") {
        Some(ids) => numbers_in(alloc, ids),
        None => Ok(List::new(alloc)),
    }
}
