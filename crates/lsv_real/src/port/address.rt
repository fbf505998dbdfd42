// Where a port listens.
use mio::net::TcpListener;
use std::io;
use std::io::ErrorKind;
use std::net::{Ipv4Addr, Ipv6Addr, Net, SocketAddr, ToSocketAddrs};

/// Listens at `host:port`. The host is `*` for every address of this machine, an address, which may stand in square
/// brackets, or a name, of which the first address that can be bound is taken. Also gives a second socket, where one doesn't take all.
pub fn listen_at<N: Net>(net: &N, address: &str) -> io::Result<(TcpListener, Option<TcpListener>)> {
    let Some((host, port)) = address.rsplit_once(':') else {
        return Err(ErrorKind::InvalidInput.into());
    };
    let Ok(port) = port.parse::<u16>() else {
        return Err(ErrorKind::InvalidInput.into());
    };
    match host {
        "*" => listen_everywhere(net, port),
        host => Ok((listen_on(net, without_brackets(host), port)?, None)),
    }
}

/// A socket of IPv6 that listens everywhere takes what comes over IPv4 too, as Linux has it by default: then a socket of IPv4
/// can't have its port. With the sysctl net.ipv6.bindv6only it takes IPv6 alone, and a second one takes IPv4. A machine without
/// IPv6 listens over IPv4.
fn listen_everywhere<N: Net>(net: &N, port: u16) -> io::Result<(TcpListener, Option<TcpListener>)> {
    let first = match bound(net, SocketAddr::from((Ipv6Addr::UNSPECIFIED, port))) {
        Err(e) if e.kind() != ErrorKind::AddrInUse => {
            return Ok((listen_over_ipv4(net, port)?, None));
        }
        answer => answer?,
    };
    let port = first.local_addr()?.port();
    match listen_over_ipv4(net, port) {
        Ok(further) => Ok((first, Some(further))),
        Err(e) if e.kind() == ErrorKind::AddrInUse => Ok((first, None)),
        Err(e) => Err(e),
    }
}

/// A socket that listens at an address. If the system chooses the number of its port, the socket is made once more at this number: only
/// then it keeps the number while it doesn't listen.
fn bound<N: Net>(net: &N, address: SocketAddr) -> io::Result<TcpListener> {
    let listener = TcpListener::bind(net, address)?;
    if address.port() != 0 {
        return Ok(listener);
    }
    let chosen = listener.local_addr()?;
    drop(listener);
    TcpListener::bind(net, chosen)
}

fn listen_over_ipv4<N: Net>(net: &N, port: u16) -> io::Result<TcpListener> {
    bound(net, SocketAddr::from((Ipv4Addr::UNSPECIFIED, port)))
}

fn listen_on<N: Net>(net: &N, host: &str, port: u16) -> io::Result<TcpListener> {
    let mut last = ErrorKind::AddrNotAvailable.into();
    for address in (host, port).to_socket_addrs(net)? {
        match bound(net, address) {
            Ok(listener) => return Ok(listener),
            Err(e) => last = e,
        }
    }
    Err(last)
}

fn without_brackets(host: &str) -> &str {
    let Some(inner) = host.strip_prefix('[') else {
        return host;
    };
    inner.strip_suffix(']').unwrap_or(host)
}

/// What to do if it can't listen at its address.
pub fn advice(e: &io::Error) -> &'static str {
    match e.kind() {
        ErrorKind::AddrInUse => ": another program listens there: end it, or change listen_address",
        ErrorKind::AddrNotAvailable => {
            ": this machine has no such address: change listen_address"
        }
        ErrorKind::PermissionDenied => {
            ": a port below 1024 needs CAP_NET_BIND_SERVICE: give it, or change listen_address"
        }
        _ => ": mend that, or change listen_address",
    }
}
