//! The streams that are shown, as the command line lists them.
ghost use Rattle.std.specs.Prelude.{◌≡◌, ◌<◌, IfSome};
ghost use Rattle.lsv_replay_args.specs.Streams.{index_in, streams_in};

use crate::words::cut;

const STDIN: &[u8] = b"stdin";

const STDOUT: &[u8] = b"stdout";

const STDERR: &[u8] = b"stderr";

const TTYIN: &[u8] = b"ttyin";

const TTYOUT: &[u8] = b"ttyout";

/// The streams that names with commas between them list. None if one is no stream's name.
pub fn streams_in(list: &[u8]) -> Option<[bool; 5]>
    ensures { result ≡ streams_in list.now }
{
    let mut streams = [false; 5];
    let mut rest = Some(list);
    while let Some(names) = rest {
        let (name, more) = cut(b',', names);
        let i = index_in(name)?;
        streams[i] = true;
        rest = more;
    }
    Some(streams)
}

/// The place of a stream of this name among the streams.
fn index_in(name: &[u8]) -> Option<usize>
    ensures name { result ≡ index_in name.now }
    ensures small { IfSome result (λ i. i < 5) }
{
    if name == STDIN {
        Some(0)
    } else if name == STDOUT {
        Some(1)
    } else if name == STDERR {
        Some(2)
    } else if name == TTYIN {
        Some(3)
    } else if name == TTYOUT {
        Some(4)
    } else {
        None
    }
}
