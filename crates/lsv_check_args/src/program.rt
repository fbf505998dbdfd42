//! The command line, as clap reads it.
ghost use Rattle.std.specs.Prelude.{◌≡◌, false, IfOk};
ghost use Rattle.clap.specs.Words.{app_of, rule_of};
ghost use Rattle.lsv_replay_args.specs.Program.{flag, value};
ghost use Rattle.lsv_check_args.specs.Program.{ids, long_flag, program};

use clap::{Arg, ArgAction, Command};
use std::alloc::{AllocError, Global};

/// An option with a value.
fn value<'a>(alloc: Global, id: &'a str, short: char) -> Arg<'a>
    ensures rule { rule_of result ≡ value id.now short }
    ensures local { result.global ≡ false }
{
    Arg::new(alloc, id).short(short)
}

/// An option of one letter without a value.
fn flag<'a>(alloc: Global, id: &'a str, short: char) -> Arg<'a>
    ensures rule { rule_of result ≡ flag id.now short }
    ensures local { result.global ≡ false }
{
    Arg::new(alloc, id).short(short).action(ArgAction::SetTrue)
}

/// An option of a word without a value.
fn long_flag<'a>(alloc: Global, id: &'a str) -> Arg<'a>
    ensures rule { rule_of result ≡ long_flag id.now }
    ensures local { result.global ≡ false }
{
    Arg::new(alloc, id).long(id).action(ArgAction::SetTrue)
}

/// The identifiers of logs.
fn ids<'a>(alloc: Global) -> Arg<'a>
    ensures rule { rule_of result ≡ ids }
    ensures local { result.global ≡ false }
{
    Arg::new(alloc, "ids")
        .num_args(1usize..)
        .action(ArgAction::Append)
}

/// `[-d DIR] [-e FILE] [-q] [--json] [--digest] [ID..]`. There is no word for help or for the version.
pub(crate) fn program<'a>(alloc: Global) -> Result<Command<'a>, AllocError>
    ensures { IfOk result (λ c. app_of c ≡ program) }
{
    Command::new(alloc, "sudo_logcheck")
        .no_binary_name(true)
        .disable_help_flag(true)
        .disable_version_flag(true)
        .arg(value(alloc, "dir", 'd'))?
        .arg(value(alloc, "events", 'e'))?
        .arg(flag(alloc, "quiet", 'q'))?
        .arg(long_flag(alloc, "json"))?
        .arg(long_flag(alloc, "digest"))?
        .arg(ids(alloc))
}
