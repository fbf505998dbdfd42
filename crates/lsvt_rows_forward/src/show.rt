//! What is printed of a run.

use crate::run::MemOutside;
use anyhow::{Result, anyhow};
use lsv_link::Connection;
use lsv_serve::Status;
use std::str;

/// No link of a script has more connections.
const MOST: usize = 1000;

/// Prints a connection: its host, how many bytes were read of it, those that were put, and whether its end was read.
fn show_connection(rt: &HostRuntime, conn: &Connection) -> Result<()> {
    let host = str::from_utf8(conn.host.as_slice()).map_err(|_| anyhow!("no text"))?;
    if !conn.connected {
        println!(rt; "connection {host} refused")?;
        return Ok(());
    }
    let put = hex::encode(rt.alloc(), conn.output.as_slice())?;
    let read = conn.input.as_slice().len();
    let end = if conn.ended { ", ended" } else { "" };
    println!(rt; "connection {host} read {read}{end}, put {put}")?;
    Ok(())
}

/// Prints how a run ended.
fn show_status(rt: &HostRuntime, status: Status) -> Result<()> {
    let text = status.text(rt.alloc())?;
    let text = str::from_utf8(text.as_slice()).map_err(|_| anyhow!("no text"))?;
    println!(rt; "status {} {text}", status.number())?;
    Ok(())
}

/// Prints what a run put on its connections, what it reported, and how it ended.
pub fn show_all(rt: &HostRuntime, out: &MemOutside, status: Status) -> Result<()> {
    for place in 0..MOST {
        if let Some(conn) = out.link.connection(place) {
            show_connection(rt, conn)?;
        }
    }
    for report in &out.notices.reports {
        println!(rt; "{}", report.as_str())?;
    }
    show_status(rt, status)
}
