//! The port of the server.
ghost use Rattle.std.specs.Prelude.{◌≡◌};
ghost use Rattle.lsv_send_args.specs.Port.{is_port};

use lsv_replay_args::digits_in;

/// Whether digits are a port: a number from 1 to 65535, without a leading zero.
pub(crate) fn is_port(digits: &[u8]) -> bool
    ensures { result ≡ is_port digits.now }
{
    match (digits, digits_in(digits)) {
        ([b'0', ..], _) | (_, None) => false,
        (_, Some(port)) => port <= 65_535,
    }
}
