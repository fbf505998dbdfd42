//! The command line, as clap reads it.
ghost use Rattle.std.specs.Prelude.{◌≡◌, false, IfOk};
ghost use Rattle.clap.specs.Words.{app_of, rule_of};
ghost use Rattle.lsv_replay_args.specs.Program.{flag, value};
ghost use Rattle.lsv_send_args.specs.Program.{number, program};

use clap::{Arg, ArgAction, Command};
use std::alloc::{AllocError, Global};

/// An option with a value.
fn value<'a>(alloc: Global, id: &'a str, short: char) -> Arg<'a>
    ensures rule { rule_of result ≡ value id.now short }
    ensures local { result.global ≡ false }
{
    Arg::new(alloc, id).short(short)
}

/// An option without one.
fn flag<'a>(alloc: Global, id: &'a str, short: char) -> Arg<'a>
    ensures rule { rule_of result ≡ flag id.now short }
    ensures local { result.global ≡ false }
{
    Arg::new(alloc, id).short(short).action(ArgAction::SetTrue)
}

/// The identifier of the log, which must be given.
fn number<'a>(alloc: Global) -> Arg<'a>
    ensures rule { rule_of result ≡ number }
    ensures local { result.global ≡ false }
{
    Arg::new(alloc, "number").required(true)
}

/// `[-d DIR] [-h HOST] [-p PORT] [-i ID] [-r POINT] [-s POINT] [-A] [-R REASON] NO`. There is no word for help or for
/// the version.
pub(crate) fn program<'a>(alloc: Global) -> Result<Command<'a>, AllocError>
    ensures { IfOk result (λ c. app_of c ≡ program) }
{
    Command::new(alloc, "sudo_sendlog")
        .no_binary_name(true)
        .disable_help_flag(true)
        .disable_version_flag(true)
        .arg(value(alloc, "dir", 'd'))?
        .arg(value(alloc, "host", 'h'))?
        .arg(value(alloc, "port", 'p'))?
        .arg(value(alloc, "id", 'i'))?
        .arg(value(alloc, "resume", 'r'))?
        .arg(value(alloc, "stop", 's'))?
        .arg(flag(alloc, "accept", 'A'))?
        .arg(value(alloc, "reject", 'R'))?
        .arg(number(alloc))
}
