//! What the words of the command line ask for.
ghost use Rattle.std.specs.Prelude.{◌≡◌, ◌≢◌, IsTrue, Some, None, [], Err, IfOk, IfSome, OnOk, ◌≤◌, map, option_map};
ghost use Rattle.std.specs.List.{list_all};
ghost use Rattle.std.specs.Str.{is_utf8};
ghost use Rattle.clap.specs.Words.{fault_of, first_of, found_of, matches_of, rows_of};
ghost use Rattle.lsv_args.specs.declared.command.ArgFault.TheVariants as faults;
ghost use Rattle.lsv_replay_args.specs.Asked.{IsTextual, asked_in, manner_in, task_in};
ghost use Rattle.lsv_replay_args.specs.Program.{program};
ghost use Rattle.lsv_replay_args.specs.Request.{IsRefused, asked, dir_of, is_set_text, longest_asked, manner_of, speed_asked, streams_asked, task_of, words_of};

use crate::decimal::billionths;
use crate::program::program;
use crate::streams::streams_in;
use crate::words::texts_of;
use clap::ArgMatches;
use clap::error::ErrorKind;
use lsv_args::ArgFault;
use lsv_base::{Bytes, List, NoMem};
use lsv_play::Options;
use std::alloc::{AllocError, Global};

/// The folder of the logs if the words don't say one.
const DEFAULT_DIR: &str = "/var/log/sudo-io";

/// The streams that are shown if the words don't say: standard output and error, and the terminal's output.
const DEFAULT_STREAMS: [bool; 5] = [false, true, true, false, true];

/// The speed at which a log is played if the words don't say, in billionths.
const DEFAULT_SPEED: u64 = 1_000_000_000;

/// What is asked for.
#[derive(Drop)]
pub struct Request {
    /// The folder of the logs.
    pub dir: String,
    pub task: Task,
}

#[derive(Drop)]
pub enum Task {
    /// The log with this identifier is played.
    Play(Options, Bytes),
    /// The log with this identifier is followed while it is written.
    Follow(Options, Bytes),
    /// The logs are listed that these words search for.
    List(List<Bytes>),
}

/// Reads the words after the program's name.
pub fn read_request(alloc: Global, words: &List<Bytes>) -> Result<Request, ArgFault>
    requires { IsTrue (list_all is_utf8 words.now) }
    ensures ok { IfOk result (λ r. asked words.now ≡ Some (asked_in r)) }
    ensures text { IfOk result (λ r. IsTextual r.task) }
    ensures taken { OnOk result (fault_of program words.now ≡ []) }
    ensures usage { result ≡ Err ArgFault.Usage → IsRefused words.now }
{
    let texts = texts_of(alloc, words.as_slice())?;
    let found = matched(alloc, texts.as_slice())?;
    let Some(options) = options_of(&found) else {
        return Err(ArgFault::Usage);
    };
    let dir = dir_of(&found);
    let dir = String::from_str(alloc, dir)?;
    let task = task_of(alloc, &found, options)?;
    Ok(Request { dir, task })
}

/// What clap makes of the words.
pub fn matched<'a>(alloc: Global, words: &'a [&'a str]) -> Result<ArgMatches<'a>, ArgFault>
    ensures taken { OnOk result (fault_of program (map (λ w. w.now) words.entry.now) ≡ []) }
    ensures rows { IfOk result (λ m. rows_of (found_of m) ≡ matches_of program (map (λ w. w.now) words.entry.now)) }
    ensures usage { result ≡ Err ArgFault.Usage → fault_of program (map (λ w. w.now) words.entry.now) ≢ [] }
{
    let program = program(alloc)?;
    match program.try_get_matches_from(words) {
        Ok(found) => Ok(found),
        Err(error) => Err(match error.kind() {
            ErrorKind::OutOfMemory => ArgFault::NoMem,
            _ => ArgFault::Usage,
        }),
    }
}

/// What is to be done.
fn task_of(alloc: Global, found: &ArgMatches<'_>, options: Options) -> Result<Task, ArgFault>
    ensures ok { IfOk result (λ task. task_of (rows_of (found_of found.now)) (manner_in options) ≡ Some (task_in (dir_of (rows_of (found_of found.now))) task)) }
    ensures text { IfOk result IsTextual }
    ensures usage { result ≡ Err ArgFault.Usage → task_of (rows_of (found_of found.now)) (manner_in options) ≡ None }
{
    let words = words_of(alloc, found)?;
    let follows = is_set(found, "follow");
    if is_set(found, "list") {
        if follows {
            return Err(ArgFault::Usage);
        }
        return Ok(Task::List(words));
    }
    let [id] = words.as_slice() else {
        return Err(ArgFault::Usage);
    };
    let id = id.copy(alloc)?;
    if follows {
        return Ok(Task::Follow(options, id));
    }
    Ok(Task::Play(options, id))
}

/// The value of an option, if it is given.
pub fn value_of<'a>(found: &ArgMatches<'a>, id: &str) -> Option<&'a str>
    ensures { option_map (λ text. text.now) result ≡ first_of id.now (rows_of (found_of found.now)) }
{
    found.get_str(id)
}

/// The folder of the logs.
fn dir_of<'a>(found: &ArgMatches<'a>) -> &'a str
    ensures { result.now ≡ dir_of (rows_of (found_of found.now)) }
{
    match value_of(found, "dir") {
        Some(dir) => dir,
        None => DEFAULT_DIR,
    }
}

/// The words that belong to no option.
pub fn words_of(alloc: Global, found: &ArgMatches<'_>) -> Result<List<Bytes>, NoMem>
    ensures words { IfOk result (λ words. words ≡ words_of (rows_of (found_of found.now))) }
    ensures text { IfOk result (λ words. IsTrue (list_all is_utf8 words)) }
{
    match found.get_strs("words") {
        Some(words) => bytes_of(alloc, words),
        None => Ok(List::new(alloc)),
    }
}

/// How a log is to be played. None if a value is out of its form.
fn options_of(found: &ArgMatches<'_>) -> Option<Options>
    ensures { option_map manner_in result ≡ manner_of (rows_of (found_of found.now)) }
{
    let streams = streams_asked(value_of(found, "streams"))?;
    let longest = longest_asked(value_of(found, "longest"))?;
    let speed = speed_asked(value_of(found, "speed"))?;
    Some(Options {
        streams,
        longest,
        speed,
        suspended: is_set(found, "suspended"),
    })
}

/// The streams that are shown.
pub fn streams_asked(list: Option<&str>) -> Option<[bool; 5]>
    ensures { result ≡ streams_asked (option_map (λ text. text.now) list.entry) }
{
    match list {
        Some(list) => streams_in(list.as_bytes()),
        None => Some(DEFAULT_STREAMS),
    }
}

/// The longest wait, if there is one.
pub fn longest_asked(text: Option<&str>) -> Option<Option<u64>>
    ensures { result ≡ longest_asked (option_map (λ text. text.now) text.entry) }
{
    match text {
        Some(text) => Some(Some(billionths(text.as_bytes())?)),
        None => Some(None),
    }
}

/// The speed, which isn't 0.
pub fn speed_asked(text: Option<&str>) -> Option<u64>
    ensures value { result ≡ speed_asked (option_map (λ text. text.now) text.entry) }
    ensures some { IfSome result (λ speed. 1 ≤ speed) }
{
    let speed = match text {
        Some(text) => billionths(text.as_bytes())?,
        None => DEFAULT_SPEED,
    };
    if speed == 0 { None } else { Some(speed) }
}

/// Whether an option without a value is among the words.
pub fn is_set(found: &ArgMatches<'_>, id: &str) -> bool
    ensures { result ≡ is_set_text (rows_of (found_of found.now)) id.now }
{
    match value_of(found, id) {
        Some(text) => text == "true",
        None => false,
    }
}

/// Copies of texts.
fn bytes_of(alloc: Global, texts: &[&str]) -> Result<List<Bytes>, NoMem>
    ensures copies { IfOk result (λ words. words ≡ map (λ t. t.now) texts.now) }
    ensures text { IfOk result (λ words. IsTrue (list_all is_utf8 words)) }
{
    let mut words = Vec::new(alloc);
    for text in texts {
        words.push(Bytes::of(alloc, text.as_bytes())?)?;
    }
    Ok(List::from_vec(words))
}
