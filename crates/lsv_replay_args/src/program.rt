//! The command line, as clap reads it.
ghost use Rattle.std.specs.Prelude.{◌≡◌, false, IfOk};
ghost use Rattle.clap.specs.Words.{app_of, rule_of};
ghost use Rattle.lsv_replay_args.specs.Program.{flag, program, value, words};

use clap::{Arg, ArgAction, Command};
use std::alloc::{AllocError, Global};

/// An option with a value.
fn value<'a>(alloc: Global, id: &'a str, short: char) -> Arg<'a>
    ensures rule { rule_of result ≡ value id.now short }
    ensures local { result.global ≡ false }
{
    Arg::new(alloc, id).short(short)
}

/// An option without one.
fn flag<'a>(alloc: Global, id: &'a str, short: char) -> Arg<'a>
    ensures rule { rule_of result ≡ flag id.now short }
    ensures local { result.global ≡ false }
{
    Arg::new(alloc, id).short(short).action(ArgAction::SetTrue)
}

/// The identifier of a log, or the words of a search.
fn words<'a>(alloc: Global) -> Arg<'a>
    ensures rule { rule_of result ≡ words }
    ensures local { result.global ≡ false }
{
    Arg::new(alloc, "words")
        .num_args(1usize..)
        .action(ArgAction::Append)
}

/// `[-F] [-d DIR] [-f LIST] [-m N] [-s N] [-S] [-n] ID`, or `-l [-d DIR] WORDS`. There is no word for help or for the
/// version.
pub fn program<'a>(alloc: Global) -> Result<Command<'a>, AllocError>
    ensures { IfOk result (λ c. app_of c ≡ program) }
{
    Command::new(alloc, "sudoreplay")
        .no_binary_name(true)
        .disable_help_flag(true)
        .disable_version_flag(true)
        .arg(value(alloc, "dir", 'd'))?
        .arg(value(alloc, "streams", 'f'))?
        .arg(value(alloc, "longest", 'm'))?
        .arg(value(alloc, "speed", 's'))?
        .arg(flag(alloc, "suspended", 'S'))?
        .arg(flag(alloc, "unused", 'n'))?
        .arg(flag(alloc, "list", 'l'))?
        .arg(flag(alloc, "follow", 'F'))?
        .arg(words(alloc))
}
