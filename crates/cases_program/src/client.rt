//! A client of the service on loopback.

use cases_faults::{Met, close, due, new_office};
use mio::net::TcpListener;
use office_cli::{listen, serve_clients};
use office_http::{Office, routes};
use office_store::Keeper;
use std::io;
use std::io::Write;
use std::net::TcpStream;

const STATUS: &[u8] = b"GET /status HTTP/1.1\r\nHost: x\r\n\r\n";

const NOTHING_READY: &str =
    "HTTP/1.1 200 OK\r\nContent-Type: text/plain; charset=utf-8\r\nContent-Length: 19\r\nConnection: close\r\n\r\nready 0 finished 0\n";

/// A client connects and asks, the service takes the connection and replies, and the client reads the reply to its end.
fn ask<K: Keeper>(
    rt: &HostRuntime,
    listener: &mut TcpListener,
    office: &mut Office<K>,
) -> io::Result<String> {
    let mut client = TcpStream::connect(rt, listener.local_addr()?)?;
    client.write_all(STATUS)?;
    let Ok(table) = routes(rt.alloc()) else {
        return Err(io::ErrorKind::OutOfMemory.into());
    };
    if serve_clients(rt, listener, office, &table, 1, &[]).is_err() {
        return Err(io::ErrorKind::Other.into());
    }
    io::read_to_string(rt.alloc(), client)
}

/// What an office replies to a client that asks for its status.
fn judge_reply<K: Keeper>(rt: &HostRuntime, office: &mut Office<K>) -> Result<(), Met> {
    let Ok(mut listener) = listen(rt, 0) else {
        return Err(Met::Wrong("no port is listened on"));
    };
    match ask(rt, &mut listener, office) {
        Ok(reply) => due(reply.as_str() == NOTHING_READY, "another reply"),
        Err(_) => Err(Met::Wrong("no reply")),
    }
}

/// The status of an office that is new.
pub fn try_client(rt: &HostRuntime) -> Result<(), Met> {
    let mut office = new_office(rt.alloc())?;
    let judged = judge_reply(rt, &mut office);
    close(office);
    judged
}
