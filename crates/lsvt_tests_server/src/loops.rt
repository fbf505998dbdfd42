//! A conversation through the threads of a server, over a store in memory.

ghost use Rattle.std.specs.Prelude.{◌≡◌, length, IfOk};
ghost use Rattle.lsv_threads.specs.Run.{AreFresh};

use crate::scripted::{Counted, Heard, Scripted, Still};
use lsv_base::List;
use lsv_gen::conversation;
use lsv_hook::{Formatter, SudoLines};
use lsv_keeper::Policy;
use lsv_lane::Bay;
use lsv_mask::{Prompt, TextSearch};
use lsv_msg::decode_client;
use lsv_port::NoBell;
use lsv_reactor::{Endpoint, PortsEnd};
use lsv_service::{End, Site, serve_store};
use lsv_session::Body;
use lsv_wire::Framer;
use lsvt_doubles::{Hostile, Plan as Calls};
use std::alloc::Global;
use std::process::Abort;
use std::test::Fail;

/// The messages of generated conversation 1, and the connection's end, the last first.
fn bodies(alloc: Global) -> Result<Vec<Body>, Fail> {
    let bytes = conversation(alloc, 1)?;
    let mut framer = Framer::new(alloc);
    framer.feed(bytes.as_slice())?;
    let mut bodies = Vec::new(alloc);
    for _ in 0..10u8 {
        if let Some(message) = framer.next(alloc).map_err(|_| "a frame")? {
            let message = decode_client(alloc, message.as_slice()).map_err(|_| "a message")?;
            bodies.push(Body::Msg(message))?;
        }
    }
    bodies.push(Body::Gone)?;
    bodies.reverse();
    Ok(bodies)
}

/// Event lines in sudo's form, also of exits, and nothing is masked.
fn policy(alloc: Global) -> Policy<SudoLines, TextSearch> {
    Policy {
        formatter: Formatter::sudo(),
        log_exit: true,
        texts: List::new(alloc),
        prompt: Prompt::new(TextSearch),
    }
}

/// One endpoint, of number 0, over which these come.
fn endpoints(alloc: Global, bodies: Vec<Body>) -> Result<Vec<Scripted>, Fail>
    ensures count { IfOk result (λ all. length all.items ≡ 1) }
    ensures fresh { IfOk result (λ all. AreFresh ⟦<Scripted as Endpoint>⟧ all.items 1 (λ w. tt)) }
{
    let mut all = Vec::new(alloc);
    let one = Scripted {
        number: 0,
        bodies,
        said: 0,
        is_shut: false,
    };
    let Ok(()) = all.push(one) else {
        return Err("room for an endpoint".into());
    };
    Ok(all)
}

#[test]
fn a_conversation_is_served_and_each_job_is_kept(rt: HostRuntime) -> Result<(), Fail> {
    let alloc = rt.alloc();
    let mut bays = Vec::new(alloc);
    let bay = Bay {
        disk: Hostile::new(alloc, Calls::Whole)?,
        clock: Still,
        tape: Counted { jobs: 0 },
    };
    if bays.push(bay).is_err() {
        return Err("room for a bay".into());
    }
    let bodies = bodies(alloc)?;
    let count = bodies.len();
    let endpoints = endpoints(alloc, bodies)?;
    let mut heard = Heard { times: 0, last: 9 };
    let site = Site {
        address: "localhost:30343",
        stop_after: None,
        logs: "store",
        events: "store/events",
    };
    let bells = Vec::<NoBell>::new(alloc);
    let policy = policy(alloc);
    let stored = serve_store(
        &rt, alloc, endpoints, bells, bays, 1, &policy, &site, &mut heard,
    );
    assert_eq!(rt; stored.end, End::Over(PortsEnd::Stopped));
    assert_eq!(rt; (heard.times, heard.last), (1, 0));
    let (Some(endpoint), Some(bay)) = (stored.endpoints.first(), stored.bays.first()) else {
        return Err("an endpoint and a bay".into());
    };
    // A turn takes as many jobs as are there, so that how often a commit point is told isn't known.
    assert!(rt; 2 <= endpoint.said && endpoint.said <= 4);
    assert!(rt; endpoint.is_shut);
    assert_eq!(rt; bay.tape.jobs, count);
    Ok(())
}
