//! A worker with its port in a server's loop.

ghost use Rattle.std.specs.Prelude.{◌≡◌, [], IfOk};
ghost use Rattle.lsv_port.specs.Memory.Value.{port_ledger, port_state};
ghost use Rattle.lsv_endpoint.specs.Ports.{view_by};

use crate::answering::Answering;
use crate::ports::links;
use crate::words::shown;
use anyhow::{Result, anyhow};
use lsv_base::NoMem;
use lsv_endpoint::WorkerEndpoint;
use lsv_msg::ClientMessage;
use lsv_port::{MemPort, Step};
use lsv_reactor::{Endpoint, PortsEnd, serve};
use lsv_session::{Body, Job};
use lsvt_doubles::Watched;
use std::alloc::Global;

/// The most jobs that are printed one by one.
const MOST_JOBS: usize = 64;

/// A script that was served: its port, the jobs of each turn, and how it ended.
#[derive(Drop)]
pub struct Played {
    port: Watched,
    turns: Vec<Vec<Job>>,
    end: PortsEnd,
}

/// An endpoint over a port, of number 0, whose jobs go to one lane.
fn post_of(alloc: Global, port: Watched) -> Result<WorkerEndpoint<Watched>, NoMem>
    ensures made { IfOk result (λ post. ⟦<WorkerEndpoint<Watched> as Endpoint>⟧.made_by (view_by (λ p. port_state p.port) (λ p. port_ledger p.port) port) post (λ lane. []) []) }
    ensures number { IfOk result (λ post. ⟦<WorkerEndpoint<Watched> as Endpoint>⟧.number post ≡ 0) }
    ensures lanes { IfOk result (λ post. ⟦<WorkerEndpoint<Watched> as Endpoint>⟧.lanes post ≡ 1) }
{
    match WorkerEndpoint::new(alloc, 0, 1, port) {
        Ok(post) => Ok(post),
        Err(_) => Err(NoMem),
    }
}

/// Serves a port by a lane that answers.
fn serve_one(
    alloc: Global,
    port: Watched,
    lane: &mut Answering,
) -> Result<(Watched, PortsEnd), NoMem> {
    let mut posts = [post_of(alloc, port)?];
    let end = serve(alloc, &mut posts, lane)?;
    let [post] = posts;
    Ok((post.into_port(), end))
}

/// Serves a port of this script.
pub fn play(alloc: Global, script: Vec<Step>) -> Result<Played> {
    let mut lane = Answering::new(alloc);
    let port = Watched::new(alloc, MemPort::new(alloc, script));
    let (port, end) = serve_one(alloc, port, &mut lane)?;
    Ok(Played {
        port,
        turns: lane.turns,
        end,
    })
}

/// The word for what a connection brings: the text of output, `exit` for another message, `bad` or `gone`.
fn word_of(body: &Body) -> Result<&str> {
    match body {
        Body::Msg(ClientMessage::Ttyout(output)) => {
            str::from_utf8(output.bytes.as_slice()).map_err(|_| anyhow!("a text"))
        }
        Body::Msg(_) => Ok("exit"),
        Body::Bad(_) => Ok("bad"),
        Body::Gone => Ok("gone"),
    }
}

impl Played {
    /// Prints how it ended, the jobs, or of many the longest turn, and what became of the links.
    pub fn show(&self, rt: &HostRuntime) -> Result<()> {
        let port = &self.port;
        let is_misused = port.misused > 0 || port.longest > 65_536;
        println!(rt; "{:?}, misused {is_misused}", self.end)?;
        let (mut count, mut longest) = (0usize, 0);
        for turn in &self.turns {
            count = count.saturating_add(turn.len());
            longest = turn.len().max(longest);
        }
        if count <= MOST_JOBS {
            self.show_jobs(rt)?;
        } else {
            println!(rt; "longest turn {longest}")?;
        }
        links(rt, &port.port)
    }

    /// Prints all jobs in order: each connection's number, a point, and the word.
    fn show_jobs(&self, rt: &HostRuntime) -> Result<()> {
        print!(rt; "jobs")?;
        for job in self.turns.iter().flat_map(|turn| turn.iter()) {
            print!(rt; " {}.{}", job.conn.seq, word_of(&job.body)?)?;
        }
        println!(rt; "")?;
        Ok(())
    }

    /// Answers a question about it.
    pub fn answer(&self, rt: &HostRuntime, word: &str, words: &str) -> Result<()> {
        match word {
            "brought" => self.brought(rt, words),
            "first" => self.first(rt, words),
            "held" => self.held(rt),
            _ => Err(anyhow!("a question")),
        }
    }

    /// Prints what a connection brought, each word with a space after it.
    fn brought(&self, rt: &HostRuntime, seq: &str) -> Result<()> {
        let seq = seq.parse::<u64>()?;
        let mut text = String::new(rt.alloc());
        for job in self.turns.iter().flat_map(|turn| turn.iter()) {
            if job.conn.seq == seq {
                text.push_str(word_of(&job.body)?)?;
                text.push_str(" ")?;
            }
        }
        println!(rt; "{}", shown(rt.alloc(), text.as_bytes())?)?;
        Ok(())
    }

    /// Prints whether the first job of a connection is in one of the first turns.
    fn first(&self, rt: &HostRuntime, words: &str) -> Result<()> {
        let (seq, turns) = words.split_once(' ').ok_or(anyhow!("a count of turns"))?;
        let seq = seq.parse::<u64>()?;
        let mut first = self.turns.iter().take(turns.parse::<usize>()?);
        let is_there = first.any(|turn| turn.iter().any(|job| job.conn.seq == seq));
        println!(rt; "{is_there}")?;
        Ok(())
    }

    /// Prints the links that each turn of the port got as held.
    fn held(&self, rt: &HostRuntime) -> Result<()> {
        for links in &self.port.held {
            print!(rt; "{links:?};")?;
        }
        println!(rt; "")?;
        Ok(())
    }
}
