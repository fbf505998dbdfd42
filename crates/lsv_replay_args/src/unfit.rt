//! What of words that clap takes is out of its form.

ghost use Rattle.std.specs.Prelude.{◌≡◌, ◌≢◌, [], Err, IsTrue, IfOk, OnOk};
ghost use Rattle.std.specs.List.{list_all};
ghost use Rattle.std.specs.Str.{is_utf8};
ghost use Rattle.clap.specs.Words.{fault_of, found_of, matches_of, rows_of};
ghost use Rattle.lsv_args.specs.declared.command.ArgFault.TheVariants as faults;
ghost use Rattle.lsv_replay_args.specs.Program.{program};
ghost use Rattle.lsv_replay_args.specs.Unfit.{unfit_in, unfit_listing, unfit_longest, unfit_speed, unfit_task, unfit_words};

use crate::request::{
    is_set, longest_asked, matched, speed_asked, streams_asked, value_of, words_of,
};
use crate::words::texts_of;
use clap::ArgMatches;
use lsv_args::ArgFault;
use lsv_base::{Bytes, List, NoMem};
use std::alloc::Global;

/// What is out of its form.
#[derive(Debug, Drop)]
pub enum Unfit {
    /// The value of `-f`.
    Streams(Bytes),
    /// The value of `-m`.
    Longest(Bytes),
    /// The value of `-s`.
    Speed(Bytes),
    /// `-F` stands with `-l`.
    FollowedListing,
    /// There is neither `-l` nor an identifier.
    NoIdentifier,
    /// There is more than one identifier: the second.
    Identifiers(Bytes),
}

/// The first of these that is out of its form: the value of `-f`, of `-m`, of `-s`, `-l` with `-F`, and without `-l` the
/// identifier. None if the words are a command. `Usage` exactly if clap itself refuses the words.
pub fn find_unfit(alloc: Global, words: &List<Bytes>) -> Result<Option<Unfit>, ArgFault>
    requires { IsTrue (list_all is_utf8 words.now) }
    ensures unfit { IfOk result (λ u. u ≡ unfit_in (matches_of program words.now)) }
    ensures taken { OnOk result (fault_of program words.now ≡ []) }
    ensures usage { result ≡ Err faults.Usage → fault_of program words.now ≢ [] }
{
    let texts = texts_of(alloc, words.as_slice())?;
    let found = matched(alloc, texts.as_slice())?;
    Ok(unfit_in(alloc, &found)?)
}

/// Of what clap found.
fn unfit_in(alloc: Global, found: &ArgMatches<'_>) -> Result<Option<Unfit>, NoMem>
    ensures { IfOk result (λ u. u ≡ unfit_in (rows_of (found_of found.now))) }
{
    let list = value_of(found, "streams");
    match (list, streams_asked(list)) {
        (Some(list), None) => Ok(Some(Unfit::Streams(Bytes::of(alloc, list.as_bytes())?))),
        _ => unfit_longest(alloc, found),
    }
}

/// The longest wait, or what comes after it.
fn unfit_longest(alloc: Global, found: &ArgMatches<'_>) -> Result<Option<Unfit>, NoMem>
    ensures { IfOk result (λ u. u ≡ unfit_longest (rows_of (found_of found.now))) }
{
    let text = value_of(found, "longest");
    match (text, longest_asked(text)) {
        (Some(text), None) => Ok(Some(Unfit::Longest(Bytes::of(alloc, text.as_bytes())?))),
        _ => unfit_speed(alloc, found),
    }
}

/// The speed, or what comes after it.
fn unfit_speed(alloc: Global, found: &ArgMatches<'_>) -> Result<Option<Unfit>, NoMem>
    ensures { IfOk result (λ u. u ≡ unfit_speed (rows_of (found_of found.now))) }
{
    let text = value_of(found, "speed");
    match (text, speed_asked(text)) {
        (Some(text), None) => Ok(Some(Unfit::Speed(Bytes::of(alloc, text.as_bytes())?))),
        _ => unfit_task(alloc, found),
    }
}

/// The identifier.
fn unfit_task(alloc: Global, found: &ArgMatches<'_>) -> Result<Option<Unfit>, NoMem>
    ensures { IfOk result (λ u. u ≡ unfit_task (rows_of (found_of found.now))) }
{
    if is_set(found, "list") {
        return Ok(unfit_listing(is_set(found, "follow")));
    }
    unfit_words(alloc, words_of(alloc, found)?.as_slice())
}

/// Whether a listing is to be followed.
fn unfit_listing(follows: bool) -> Option<Unfit>
    ensures { result ≡ unfit_listing follows }
{
    if follows {
        return Some(Unfit::FollowedListing);
    }
    None
}

/// Of the words that belong to no option.
fn unfit_words(alloc: Global, words: &[Bytes]) -> Result<Option<Unfit>, NoMem>
    ensures { IfOk result (λ u. u ≡ unfit_words words.now) }
{
    match words {
        [] => Ok(Some(Unfit::NoIdentifier)),
        [_] => Ok(None),
        [_, other, ..] => Ok(Some(Unfit::Identifiers(other.copy(alloc)?))),
    }
}
