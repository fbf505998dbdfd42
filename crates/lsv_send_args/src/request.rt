//! What the words of the command line ask for.
ghost use Rattle.std.specs.Prelude.{◌≡◌, ◌≢◌, ◌++◌, ◌∷◌, IsTrue, Some, [], Ok, Err, IfOk, IfSome, OnOk, ◌<◌, ◌^◌, map, option_map, unwrap_or, codes};
ghost use Rattle.std.specs.List.{list_all};
ghost use Rattle.std.specs.Str.{is_utf8};
ghost use Rattle.std.specs.String.{string_bytes};
ghost use Rattle.clap.specs.Words.{fault_of, found_of, matches_of, rows_of};
ghost use Rattle.lsv_replay_args.specs.Decimal.{billionths};
ghost use Rattle.lsv_send_args.specs.Asked.{asked_in, what_in};
ghost use Rattle.lsv_send_args.specs.Program.{program};
ghost use Rattle.lsv_send_args.specs.Request.{asked, asked_by, asked_with, point_of, port_of, sending_of, server_of, value_of};
ghost use Rattle.lsv_send_args.specs.declared.fault.Unfit.{Unfit};
ghost use Rattle.lsv_send_args.specs.declared.fault.WordsFault.TheVariants as faults;

use crate::port::is_port;
use crate::program::program;
use crate::what::{Choice, What};
use crate::{Unfit, WordsFault};
use clap::ArgMatches;
use clap::error::ErrorKind;
use lsv_base::{Bytes, List, Point};
use lsv_replay_args::{billionths, is_set, texts_of, value_of};
use std::alloc::{AllocError, Global};

/// Where the logs stand if the words don't say.
const DEFAULT_DIR: &str = "/var/log/sudo-io";

/// The server's host if the words don't say.
const DEFAULT_HOST: &str = "localhost";

/// Its port if the words don't say.
const DEFAULT_PORT: &str = "30343";

/// What is asked for.
#[derive(Debug, Drop)]
pub struct Request {
    /// The folder of the logs.
    pub dir: String,
    /// The server: `HOST:PORT`.
    pub server: String,
    /// What is sent.
    pub what: What,
    /// The identifier of the log.
    pub number: Bytes,
}

/// Reads the words after the program's name.
pub fn read_request(alloc: Global, words: &List<Bytes>) -> Result<Request, WordsFault>
    requires { IsTrue (list_all is_utf8 words.now) }
    ensures ok { IfOk result (λ r. asked words.now ≡ Ok (asked_in r)) }
    ensures taken { OnOk result (fault_of program words.now ≡ []) }
    ensures refused { result ≡ Err faults.Refused → fault_of program words.now ≢ [] }
    ensures unfit { (u : Unfit) → result ≡ Err (faults.Unfit u) → (fault_of program words.now ≡ []) × (asked words.now ≡ Err u) }
{
    let texts = texts_of(alloc, words.as_slice())?;
    let found = matched(alloc, texts.as_slice())?;
    request_of(alloc, &found)
}

/// What clap makes of the words.
fn matched<'a>(alloc: Global, words: &'a [&'a str]) -> Result<ArgMatches<'a>, WordsFault>
    ensures taken { OnOk result (fault_of program (map (λ w. w.now) words.entry.now) ≡ []) }
    ensures rows { IfOk result (λ m. rows_of (found_of m) ≡ matches_of program (map (λ w. w.now) words.entry.now)) }
    ensures refused { result ≡ Err WordsFault.Refused → fault_of program (map (λ w. w.now) words.entry.now) ≢ [] }
    ensures fit { (u : Unfit) → result ≢ Err (WordsFault.Unfit u) }
{
    let program = program(alloc)?;
    match program.try_get_matches_from(words) {
        Ok(found) => Ok(found),
        Err(error) => Err(match error.kind() {
            ErrorKind::OutOfMemory => WordsFault::NoMem,
            _ => WordsFault::Refused,
        }),
    }
}

/// What the values ask for that clap found.
fn request_of(alloc: Global, found: &ArgMatches<'_>) -> Result<Request, WordsFault>
    ensures ok { IfOk result (λ r. asked_by (rows_of (found_of found.now)) ≡ Ok (asked_in r)) }
    ensures unfit { (u : Unfit) → result ≡ Err (WordsFault.Unfit u) → asked_by (rows_of (found_of found.now)) ≡ Err u }
    ensures taken { result ≢ Err WordsFault.Refused }
{
    let port = value_of(found, "port").unwrap_or(DEFAULT_PORT);
    if !is_port(port.as_bytes()) {
        return Err(WordsFault::Unfit(Unfit::Port));
    }
    let what = sending_of(alloc, found)?;
    let dir = value_of(found, "dir").unwrap_or(DEFAULT_DIR);
    let number = value_of(found, "number").unwrap_or("");
    Ok(Request {
        dir: String::from_str(alloc, dir)?,
        server: server_of(alloc, found, port)?,
        what,
        number: Bytes::of(alloc, number.as_bytes())?,
    })
}

/// The server: its host, a colon and this port.
fn server_of(alloc: Global, found: &ArgMatches<'_>, port: &str) -> Result<String, AllocError>
    ensures { IfOk result (λ s. string_bytes s ≡ unwrap_or (value_of (rows_of (found_of found.now)) (codes "host")) (codes "localhost") ++ (58 ∷ port.now)) }
{
    let host = value_of(found, "host").unwrap_or(DEFAULT_HOST);
    let mut server = String::from_str(alloc, host)?;
    server.push_str(":")?;
    server.push_str(port)?;
    Ok(server)
}

/// What is sent: the points are read, and then the rules between options are judged.
fn sending_of(alloc: Global, found: &ArgMatches<'_>) -> Result<What, WordsFault>
    ensures ok { IfOk result (λ what. sending_of (rows_of (found_of found.now)) ≡ Ok (what_in what)) }
    ensures unfit { (u : Unfit) → result ≡ Err (WordsFault.Unfit u) → sending_of (rows_of (found_of found.now)) ≡ Err u }
    ensures taken { result ≢ Err WordsFault.Refused }
{
    let resume = point_of(value_of(found, "resume"), Unfit::ResumePoint)?;
    let stop = point_of(value_of(found, "stop"), Unfit::StopPoint)?;
    let choice = Choice {
        accept: is_set(found, "accept"),
        reject: value_of(found, "reject"),
        id: value_of(found, "id"),
        resume,
        stop,
    };
    choice.what(alloc)
}

/// The point that an option gives, if it is given.
fn point_of(text: Option<&str>, unfit: Unfit) -> Result<Option<Point>, WordsFault>
    ensures ok { IfOk result (λ point. point_of (option_map (λ t. t.now) text.entry) unfit ≡ Ok point) }
    ensures unfit { (u : Unfit) → result ≡ Err (WordsFault.Unfit u) → point_of (option_map (λ t. t.now) text.entry) unfit ≡ Err u }
    ensures taken { result ≢ Err WordsFault.Refused }
{
    let Some(text) = text else {
        return Ok(None);
    };
    match point_in(text.as_bytes()) {
        Some(point) => Ok(Some(point)),
        None => Err(WordsFault::Unfit(unfit)),
    }
}

/// The point that a number of seconds is.
fn point_in(text: &[u8]) -> Option<Point>
    ensures { result ≡ billionths text.now }
{
    Point::new(billionths(text)?)
}
