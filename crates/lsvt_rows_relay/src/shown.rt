//! What became of a conversation, in words.

use anyhow::Result as Answer;
use lsv_base::NoMem;
use lsv_dialogue::{Cause, End, TalkFault};
use lsv_link::{Look, MemLink};

/// Prints how a conversation ended.
pub fn print_end(rt: &HostRuntime, end: Result<End, TalkFault<NoMem>>) -> Answer<()> {
    match end {
        Ok(End::Over) => Ok(println!(rt; "over")?),
        Ok(End::Stopped(cause)) => print_cause(rt, cause),
        Err(_) => Ok(println!(rt; "out of memory")?),
    }
}

fn print_cause(rt: &HostRuntime, cause: Cause) -> Answer<()> {
    match cause {
        Cause::Said(text) => {
            let digits = hex::encode(rt.alloc(), text.as_slice())?;
            println!(rt; "said {digits}")?;
        }
        Cause::Unreached => println!(rt; "unreached")?,
        Cause::NotYet => println!(rt; "not yet")?,
        Cause::Ended => println!(rt; "ended")?,
        Cause::Failed => println!(rt; "failed")?,
        Cause::Malformed(_) => println!(rt; "malformed")?,
        Cause::TooLarge(length) => println!(rt; "too large {length}")?,
        Cause::Strange(point) => println!(rt; "strange {}", point.nanos())?,
        Cause::LongId(length) => println!(rt; "long id {length}")?,
        Cause::Chatter => println!(rt; "chatter")?,
        Cause::TooLong(length) => println!(rt; "too long {length}")?,
    }
    Ok(())
}

/// Prints a read of a connection: how much had been written before it, how many bytes it gave, whether it might wait, and
/// how often the connection was renewed before it.
fn print_look(rt: &HostRuntime, look: Look) -> Answer<()> {
    let kind = if look.waited { "waited" } else { "looked" };
    let (put, came, renewed) = (look.put, look.came, look.renewed);
    Ok(println!(rt; "{kind} after {put}: {came}, renewed {renewed}")?)
}

/// Prints what was written on a connection, if there is one, and its reads.
pub fn print_connection(rt: &HostRuntime, link: &MemLink, place: usize) -> Answer<()> {
    let Some(conn) = link.connection(place) else {
        return Ok(println!(rt; "no connection")?);
    };
    let alloc = rt.alloc();
    let output = hex::encode(alloc, conn.output.as_slice())?;
    let input = conn.input.as_slice().len();
    println!(rt; "wrote {output} and read {input} bytes")?;
    for look in conn.looks.as_slice() {
        print_look(rt, *look)?;
    }
    Ok(())
}
