//! What the server says when it begins to serve.

ghost use Rattle.std.specs.Prelude.{◌≡◌, ◌≤◌, ◌⊎◌, IsTrue, codes};
ghost use Rattle.std.specs.Net.Addr.{IsLoopbackV4, IsLoopbackV6, MatchIp};
ghost use Rattle.std.specs.Net.Grammar.{IsIpText};
ghost use Rattle.std.specs.declared.net.ip_addr.IpAddr.{IpAddr};

use lsv_base::LogNo;
use lsv_disk::Part;
use lsv_folders::Folders;
use lsv_forward::Gaps;
use lsv_real_disk::{FileDisk, RelayDisk};
use lsv_service::{Notices, Site};
use std::net::IpAddr;
use std::str;
use std::sync::Wait;

/// Says on standard error at which address it listens, where its logs are, which number was drawn last, and where its event lines
/// are; and that any host may write, unless the address is one of the loopback.
#[derive(Drop)]
pub struct Herald {
    pub rt: HostRuntime,
    /// The folders of the store of a relay.
    folders: Option<Folders>,
    /// For how many logs of a relay the connection failed.
    pub failed: u64,
    /// How many logs of a relay weren't tried, since a connection couldn't be made.
    pub untried: u64,
    /// Logs of a relay whose connections the other server ended.
    pub ended: Vec<LogNo>,
    /// Logs of a relay that are damaged, with the part at fault.
    pub damaged: Vec<(LogNo, Part)>,
    /// Logs of a relay that aren't complete, and those on whose files a call failed.
    pub passed: Vec<LogNo>,
    pub unread: Vec<LogNo>,
}

impl Herald {
    /// Nothing was said.
    pub fn new(rt: HostRuntime, folders: Option<Folders>) -> Self {
        Herald {
            rt,
            folders,
            failed: 0,
            untried: 0,
            ended: Vec::new(rt.alloc()),
            damaged: Vec::new(rt.alloc()),
            passed: Vec::new(rt.alloc()),
            unread: Vec::new(rt.alloc()),
        }
    }
}

/// A server asks for no gaps.
impl<W: Wait + Copy> Gaps<FileDisk<W>> for Herald {
    fn next(&mut self, _disk: &FileDisk<W>, from: u32) -> u32 {
        from
    }
}

impl<W: Wait + Copy> Gaps<RelayDisk<W>> for Herald {
    fn next(&mut self, _disk: &RelayDisk<W>, from: u32) -> u32 {
        match &mut self.folders {
            Some(folders) => folders.next(from),
            None => from,
        }
    }
}

impl Notices for Herald {
    fn serving(&mut self, site: &Site<'_>, last: u32) {
        let Site {
            address,
            logs,
            events,
            ..
        } = site;
        let digits = digits_of(last);
        let last = str::from_utf8(&digits).unwrap_or("");
        let who = if is_loopback(address) {
            ""
        } else {
            "; any host that reaches this port may write"
        };
        let _ = eprintln!(self.rt;
            "sudo_logsrvd: listening on {address}, logs in {logs}, last log {last}, events in {events}{who}"
        );
    }
}

/// The six digits of a number, which is 0 if none was drawn.
fn digits_of(number: u32) -> [u8; 6] {
    match LogNo::new(number) {
        Some(number) => number.digits(),
        None => [b'0'; 6],
    }
}

/// Whether a host and a port name an address of the loopback.
fn is_loopback(address: &str) -> bool {
    let Some((host, _)) = address.rsplit_once(':') else {
        return false;
    };
    let host = host
        .strip_prefix('[')
        .and_then(|host| host.strip_suffix(']'))
        .unwrap_or(host);
    is_loopback_host(host)
}

/// Whether a host is an address of the loopback, or `localhost`: other names may lead anywhere.
fn is_loopback_host(host: &str) -> bool
    ensures { IsTrue result → (host.now ≡ codes "localhost") ⊎ ((ip : IpAddr) × IsIpText host.now ip × MatchIp ip IsLoopbackV4 IsLoopbackV6) }
{
    match host.parse::<IpAddr>() {
        Ok(address) => address.is_loopback(),
        Err(_) => host == "localhost",
    }
}
