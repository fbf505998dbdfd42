ghost use Rattle.std.specs.Prelude.{◌≡◌, false, IfOk};
ghost use Rattle.clap.specs.Words.{app_of, rule_of};
ghost use Rattle.clap.specs.declared.builder.command.Command.TheViews.{out-Command};
ghost use Rattle.lsv_args.specs.Commands.{check, commands, conf, count, lanes, load, once, relay, serve, stop_after, workers};

use clap::{Arg, Command, value_parser};
use std::alloc::{AllocError, Global};

/// This many lanes may be asked for.
pub const MOST_LANES: i64 = 8;
/// This many workers may be asked for.
pub const MOST_WORKERS: i64 = 64;
/// This many generated connections may be asked for.
const MOST_CONNECTIONS: i64 = 10_000;

/// `-f FILE`
fn conf<'a>(alloc: Global) -> Arg<'a>
    ensures rule { rule_of result ≡ conf }
    ensures local { result.global ≡ false }
{
    Arg::new(alloc, "conf").short('f')
}

/// `--lanes N`
fn lanes<'a>(alloc: Global) -> Arg<'a>
    ensures rule { rule_of result ≡ lanes }
    ensures local { result.global ≡ false }
{
    Arg::new(alloc, "lanes")
        .long("lanes")
        .value_parser(value_parser!(u32).range(1..=MOST_LANES))
}

/// `--workers N`
fn workers<'a>(alloc: Global) -> Arg<'a>
    ensures rule { rule_of result ≡ workers }
    ensures local { result.global ≡ false }
{
    Arg::new(alloc, "workers")
        .long("workers")
        .value_parser(value_parser!(u32).range(1..=MOST_WORKERS))
}

/// `--stop-after N`
fn stop_after<'a>(alloc: Global) -> Arg<'a>
    ensures rule { rule_of result ≡ stop_after }
    ensures local { result.global ≡ false }
{
    Arg::new(alloc, "stop-after")
        .long("stop-after")
        .value_parser(value_parser!(u32).range(1..))
}

/// `N` of `load N`
fn count<'a>(alloc: Global) -> Arg<'a>
    ensures rule { rule_of result ≡ count }
    ensures local { result.global ≡ false }
{
    Arg::new(alloc, "count")
        .required(true)
        .value_parser(value_parser!(u32).range(1..=MOST_CONNECTIONS))
}

/// `once [-f FILE]`
fn once<'a>(alloc: Global) -> Result<Command<'a>, AllocError>
    ensures { IfOk result (λ c. (app_of c ≡ once) × ((out-Command c).has_globals ≡ false)) }
{
    Command::new(alloc, "once").arg(conf(alloc))
}

/// `serve [-f FILE] [--lanes N] [--workers N] [--stop-after N]`
fn serve<'a>(alloc: Global) -> Result<Command<'a>, AllocError>
    ensures { IfOk result (λ c. (app_of c ≡ serve) × ((out-Command c).has_globals ≡ false)) }
{
    Command::new(alloc, "serve")
        .arg(conf(alloc))?
        .arg(lanes(alloc))?
        .arg(workers(alloc))?
        .arg(stop_after(alloc))
}

/// `load [-f FILE] N`
fn load<'a>(alloc: Global) -> Result<Command<'a>, AllocError>
    ensures { IfOk result (λ c. (app_of c ≡ load) × ((out-Command c).has_globals ≡ false)) }
{
    Command::new(alloc, "load")
        .arg(conf(alloc))?
        .arg(count(alloc))
}

/// `relay [-f FILE]`
fn relay<'a>(alloc: Global) -> Result<Command<'a>, AllocError>
    ensures { IfOk result (λ c. (app_of c ≡ relay) × ((out-Command c).has_globals ≡ false)) }
{
    Command::new(alloc, "relay").arg(conf(alloc))
}

/// `check [-f FILE]`
fn check<'a>(alloc: Global) -> Result<Command<'a>, AllocError>
    ensures { IfOk result (λ c. (app_of c ≡ check) × ((out-Command c).has_globals ≡ false)) }
{
    Command::new(alloc, "check").arg(conf(alloc))
}

/// The commands of the program. There is no word for help or for the version.
pub fn commands<'a>(alloc: Global) -> Result<Command<'a>, AllocError>
    ensures { IfOk result (λ c. app_of c ≡ commands) }
{
    Command::new(alloc, "sudo_logsrvd")
        .no_binary_name(true)
        .disable_help_flag(true)
        .disable_help_subcommand(true)
        .disable_version_flag(true)
        .subcommand_required(true)
        .subcommand(once(alloc)?)?
        .subcommand(serve(alloc)?)?
        .subcommand(load(alloc)?)?
        .subcommand(relay(alloc)?)?
        .subcommand(check(alloc)?)
}
