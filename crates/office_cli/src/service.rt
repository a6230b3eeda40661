//! The service on loopback: why it ends, and with which exit status.

ghost use Rattle.std.specs.Prelude.{◌≡◌};
ghost use Rattle.std.specs.IoError.{error_kind};
ghost use Rattle.office_cli.specs.Service.{status_of_service};
ghost use Rattle.office_cli.specs.steps.Service.{fault_by};

use crate::clients::serve_clients;
use mio::net::TcpListener;
use office_http::{Office, routes};
use office_store::Keeper;
use std::io;
use std::io::ErrorKind;
use std::net::{Ipv4Addr, SocketAddr};
use thiserror::Error;

/// Why a service ended before its last connection.
#[derive(Debug, Drop, Error)]
pub enum ServiceFault {
    #[error("out of memory")]
    NoMemory,
    #[error("{0}: is another service on this port?")]
    InUse(io::Error),
    #[error("{0}: a port below 1024 wants root, so name a higher one")]
    Forbidden(io::Error),
    #[error("{0}")]
    Socket(io::Error),
    #[error("standard output: a write failed")]
    Output,
    #[error("the clock can't be read: {0}")]
    Clock(io::Error),
    #[error("100 connections in a row weren't taken: see how many files the system lets a program open")]
    NotTaken,
}

/// The exit status of a service: 0 if it came to its end, else 4.
pub fn service_status(served: &Result<(), ServiceFault>) -> u8
    ensures { result ≡ status_of_service served.now }
{
    match served {
        Ok(()) => 0,
        Err(_) => 4,
    }
}

/// Serves this many connections on a port of 127.0.0.1, for requests to these hosts, or to any host if none is given. A
/// failed connection counts, too.
pub fn serve<K: Keeper>(
    rt: &HostRuntime,
    office: &mut Office<K>,
    port: u32,
    connections: u32,
    hosts: &[&str],
) -> Result<(), ServiceFault> {
    let Ok(table) = routes(rt.alloc()) else {
        return Err(ServiceFault::NoMemory);
    };
    let mut listener = listen(rt, port)?;
    if println!(rt; "listening {port}").is_err() {
        return Err(ServiceFault::Output);
    }
    serve_clients(rt, &mut listener, office, &table, connections, hosts)
}

/// A listener on a port of 127.0.0.1.
pub fn listen(rt: &HostRuntime, port: u32) -> Result<TcpListener, ServiceFault> {
    let port = u16::try_from(port).unwrap_or(0);
    TcpListener::bind(rt, SocketAddr::from((Ipv4Addr::LOCALHOST, port))).map_err(socket_fault)
}

/// The fault for the system's refusal of a port.
fn socket_fault(fault: io::Error) -> ServiceFault
    ensures { result ≡ fault_by (error_kind fault) fault }
{
    match fault.kind() {
        ErrorKind::AddrInUse => ServiceFault::InUse(fault),
        ErrorKind::PermissionDenied => ServiceFault::Forbidden(fault),
        _ => ServiceFault::Socket(fault),
    }
}
