//! Cases of the generated load.

ghost use Rattle.std.specs.Prelude.{◌≤◌, IfOk};

use anyhow::{Result, anyhow};
use lsv_base::{Bytes, NoMem};
use lsv_gen::Totals;
use lsv_record::{Record, Stream};
use md5::{Digest, Md5};
use std::alloc::Global;
use std::str;

/// The number of a conversation.
fn number_of(text: &str) -> Result<u32>
    ensures low { IfOk result (λ n. 1 ≤ n) }
    ensures high { IfOk result (λ n. n ≤ 10000) }
{
    let n = text.parse::<u32>()?;
    if n < 1 || n > 10_000 {
        return Err(anyhow!("no conversation"));
    }
    Ok(n)
}

/// The bytes of a conversation.
pub fn conversation(rt: &HostRuntime, text: &str) -> Result<()> {
    let alloc = rt.alloc();
    let bytes = lsv_gen::conversation(alloc, number_of(text)?)?;
    println!(rt; "{}", hex::encode(alloc, bytes.as_slice())?)?;
    Ok(())
}

/// The length of a conversation, and its MD5 digest.
pub fn digest(rt: &HostRuntime, text: &str) -> Result<()> {
    let alloc = rt.alloc();
    let bytes = lsv_gen::conversation(alloc, number_of(text)?)?;
    let digest = Md5::digest(bytes.as_slice());
    println!(rt;
        "{} {}",
        bytes.as_slice().len(),
        hex::encode(alloc, digest.as_slice())?
    )?;
    Ok(())
}

/// The sums over the logs that conversations 1 to this leave.
fn totals_of(alloc: Global, conversations: u32) -> Result<Totals, NoMem> {
    let mut totals = Totals::new();
    for before in 0..conversations {
        for output in 0..before.wrapping_add(1) % 50 + 1 {
            let j = output + 1;
            totals.add_record(&Record::Io {
                delay: u64::from(j) * 1_000_000,
                stream: Stream::Ttyout,
                bytes: Bytes::from_vec(vec![in alloc; b'a'; (j % 80 + 1) as usize]?),
            });
        }
        totals.add_log(true);
    }
    Ok(totals)
}

/// Prints the summary of sums.
fn show(rt: &HostRuntime, totals: &Totals) -> Result<()> {
    let text = lsv_gen::summary(rt.alloc(), totals)?;
    let text = str::from_utf8(text.as_slice()).map_err(|_| anyhow!("no text"))?;
    print!(rt; "{text}")?;
    Ok(())
}

/// The summary of a load of this many conversations, and of one more log, which is open and has one change of the window's
/// size, where the word `open` stands after the number.
pub fn summary(rt: &HostRuntime, words: &str) -> Result<()> {
    let (number, rest) = words.split_once(' ').unwrap_or((words, ""));
    let mut totals = totals_of(rt.alloc(), number.parse::<u32>()?)?;
    if rest == "open" {
        totals.add_record(&Record::Winsize {
            delay: 1_000_000_001,
            rows: 24,
            cols: 80,
        });
        totals.add_log(false);
    }
    show(rt, &totals)
}

/// The summary of the greatest sums, and of one log more.
pub fn most(rt: &HostRuntime) -> Result<()> {
    let mut totals = Totals {
        logs: u64::MAX,
        records: u64::MAX,
        bytes: u64::MAX,
        elapsed: u64::MAX,
        complete: u64::MAX,
    };
    totals.add_record(&Record::Winsize {
        delay: 1,
        rows: 24,
        cols: 80,
    });
    totals.add_log(true);
    show(rt, &totals)
}
