//! The table of a lane, step by step, and what each connection is told.

use ConnState::{Alerted, Dead, Fresh, Greeted, Running};
use Step::{Claim, Drop, Release, ReleaseLog, Set};
use lsv_base::{Bytes, LogNo};
use lsv_msg::put_server;
use lsv_request::Refusal;
use lsv_session::{ClaimFault, ConnId, ConnState, Table, refusal_message, server_hello};
use std::process::Abort;
use std::test::Fail;

const ANN: ConnId = ConnId { worker: 0, seq: 1 };

const BOB: ConnId = ConnId { worker: 1, seq: 1 };

#[derive(Clone, Copy)]
enum Step {
    Claim(u32, ConnId),
    Set(ConnId, ConnState),
    ReleaseLog(u32),
    Release(ConnId),
    Drop(ConnId),
}

/// A step, and then the states of both connections and the owners of logs 1 and 2.
type Row = (Step, ConnState, ConnState, Option<ConnId>, Option<ConnId>);

const TABLE: [Row; 13] = [
    (Set(ANN, Greeted), Greeted, Fresh, None, None),
    (Claim(1, ANN), Greeted, Fresh, Some(ANN), None),
    (Set(BOB, Alerted), Greeted, Alerted, Some(ANN), None),
    (Claim(2, BOB), Greeted, Alerted, Some(ANN), Some(BOB)),
    (ReleaseLog(2), Greeted, Alerted, Some(ANN), None),
    (Claim(2, ANN), Greeted, Alerted, Some(ANN), Some(ANN)),
    (
        Set(ANN, Running(None)),
        Running(None),
        Alerted,
        Some(ANN),
        Some(ANN),
    ),
    (Release(BOB), Running(None), Alerted, Some(ANN), Some(ANN)),
    (Release(ANN), Running(None), Alerted, None, None),
    (Claim(1, BOB), Running(None), Alerted, Some(BOB), None),
    (Set(ANN, Dead), Dead, Alerted, Some(BOB), None),
    (Drop(BOB), Dead, Fresh, None, None),
    (Set(ANN, Fresh), Fresh, Fresh, None, None),
];

fn log(number: u32) -> Result<LogNo, Fail> {
    Ok(LogNo::new(number).ok_or("no log number")?)
}

fn take(table: &mut Table, step: Step) -> Result<(), Fail> {
    match step {
        Claim(number, conn) => table.claim(log(number)?, conn).map_err(|_| "not claimed")?,
        Set(conn, state) => table.set(conn, state)?,
        ReleaseLog(number) => table.release_log(log(number)?),
        Release(conn) => table.release(conn),
        Drop(conn) => table.drop_conn(conn),
    }
    Ok(())
}

#[test]
fn a_table_says_who_does_what(rt: HostRuntime) -> Result<(), Fail> {
    let mut table = Table::new(rt.alloc());
    for (i, (step, ann, bob, first, second)) in TABLE.iter().enumerate() {
        take(&mut table, *step)?;
        assert_eq!(rt; table.state(ANN), *ann, "row {i}");
        assert_eq!(rt; table.state(BOB), *bob, "row {i}");
        assert_eq!(rt; table.owner(log(1)?), *first, "row {i}");
        assert_eq!(rt; table.owner(log(2)?), *second, "row {i}");
    }
    Ok(())
}

#[test]
fn an_owned_log_names_its_owner(rt: HostRuntime) -> Result<(), Fail> {
    let mut table = Table::new(rt.alloc());
    table.reserve_owners(1)?;
    assert_eq!(rt; table.claim(log(7)?, ANN), Ok(()));
    assert_eq!(rt; table.claim(log(7)?, BOB), Err(ClaimFault::InUse(ANN)));
    assert_eq!(rt; table.claim(log(7)?, ANN), Err(ClaimFault::InUse(ANN)));
    Ok(())
}

#[test]
fn ten_thousand_connections_have_room_that_was_made(rt: HostRuntime) -> Result<(), Fail> {
    let mut table = Table::new(rt.alloc());
    table.reserve(10_000)?;
    for seq in 0..10_000 {
        table.set(ConnId { worker: 3, seq }, Greeted)?;
    }
    assert_eq!(rt;
        table.state(ConnId {
            worker: 3,
            seq: 9_999
        }),
        Greeted
    );
    assert_eq!(rt;
        table.state(ConnId {
            worker: 2,
            seq: 9_999
        }),
        Fresh
    );
    Ok(())
}

#[test]
fn a_connection_is_told_so(rt: HostRuntime) -> Result<(), Fail> {
    let alloc = rt.alloc();
    let mut out = Bytes::new(alloc);
    put_server(alloc, &mut out, &server_hello(alloc)?)?;
    put_server(alloc, &mut out, &refusal_message(alloc, Refusal::LogInUse)?)?;
    let told = b"\0\0\0\x0B\x0A\x09\x0A\x05lsv 1\x20\x01\0\0\0\x0C\x22\x0Alog in use";
    assert_eq!(rt; out.as_slice(), told.as_slice());
    Ok(())
}
