//! The clients of the service: it waits for many at once, and answers one request at a time.

ghost use Rattle.std.specs.Prelude.{◌≡◌};
ghost use Rattle.office_http_requests.specs.Routes.{office_routes};

use crate::client::{Client, Manner};
use crate::journal::stated_level;
use crate::service::ServiceFault;
use mio::net::{TcpListener, TcpStream};
use mio::{Events, Interest, Poll, Token};
use office_http::{Office, Routes};
use office_store::Keeper;
use std::io::ErrorKind;
use std::time::{Duration, Instant};
use std::{io, thread};

/// The most clients that it waits for.
const ROOM: usize = 512;

/// How many bytes of replies may wait to be taken. Above that the client taking its reply longest is sent away.
const UNSENT: usize = 64_000_000;

/// How often in a row an accept may fail.
const ACCEPTS: u32 = 100;

/// The wait after an accept that failed, and between two looks at connected clients, in milliseconds.
const PAUSE: u64 = 100;

const TICK: u64 = 50;

/// How many events are taken at once. Which clients they name doesn't matter, since all are looked at.
const EVENTS: usize = 64;

/// The clients that are connected, and those that may still come.
#[derive(Drop)]
pub struct Clients<'a> {
    poll: Poll,
    events: Events,
    clients: Vec<Client>,
    /// How many may still be accepted.
    left: u32,
    /// How many accepts have failed in a row.
    failed: u32,
    manner: Manner<'a>,
}

impl<'a> Clients<'a> {
    /// Nobody is there yet, and so many may come.
    pub fn new(
        rt: &HostRuntime,
        listener: &mut TcpListener,
        connections: u32,
        hosts: &'a [&'a str],
    ) -> Result<Clients<'a>, ServiceFault> {
        let poll = Poll::new(rt).map_err(ServiceFault::Socket)?;
        let Ok(events) = Events::with_capacity(rt.alloc(), EVENTS) else {
            return Err(ServiceFault::NoMemory);
        };
        poll.registry()
            .register(listener, Token(0), Interest::READABLE)
            .map_err(ServiceFault::Socket)?;
        Ok(Clients {
            poll,
            events,
            clients: Vec::new(rt.alloc()),
            left: connections,
            failed: 0,
            manner: Manner {
                hosts,
                level: stated_level(rt),
            },
        })
    }

    /// Whether all have come and gone.
    fn is_done(&self) -> bool {
        self.left == 0 && self.clients.is_empty()
    }

    /// Waits until something comes, or for a while if a client is connected.
    fn wait(&mut self, is_busy: bool) -> Result<(), ServiceFault> {
        let limit = if is_busy || self.failed > 0 {
            Some(Duration::from_millis(0))
        } else if self.clients.is_empty() {
            None
        } else {
            Some(Duration::from_millis(TICK))
        };
        self.poll
            .poll(&mut self.events, limit)
            .map_err(ServiceFault::Socket)
    }

    /// Accepts the connections that wait. If there is no room, the client asking longest gives up its place.
    fn accept(
        &mut self,
        rt: &HostRuntime,
        listener: &TcpListener,
        now: Instant,
    ) -> Result<(), ServiceFault> {
        for _ in 0..ROOM {
            if self.left == 0 || !self.has_room() {
                return Ok(());
            }
            match listener.accept() {
                Ok((stream, _)) => self.admit(rt, stream, now)?,
                Err(fault) if fault.kind() == ErrorKind::WouldBlock => return Ok(()),
                Err(fault) => return self.pause_behind(rt, fault),
            }
        }
        Ok(())
    }

    /// Whether there is room for one more client, after sending away the one asking longest if necessary.
    fn has_room(&mut self) -> bool {
        self.clients.len() < ROOM || self.send_away(true)
    }

    /// Closes the connection that has been asking, or taking its reply, for longest. Returns whether there was one.
    fn send_away(&mut self, is_asking: bool) -> bool {
        match self.oldest(is_asking) {
            Some(place) if place < self.clients.len() => {
                drop(self.clients.swap_remove(place));
                true
            }
            _ => false,
        }
    }

    /// The place of the client that has been asking, or taking its reply, for longest.
    fn oldest(&self, is_asking: bool) -> Option<usize> {
        let mut oldest: Option<(usize, Instant)> = None;
        for (place, client) in self.clients.iter().enumerate() {
            let since = client.since();
            let is_older = match oldest {
                Some((_, least)) => since < least,
                None => true,
            };
            if client.is_asking() == is_asking && is_older {
                oldest = Some((place, since));
            }
        }
        oldest.map(|(place, _)| place)
    }

    /// Begins to wait for a client.
    fn admit(
        &mut self,
        rt: &HostRuntime,
        stream: TcpStream,
        now: Instant,
    ) -> Result<(), ServiceFault> {
        let mut stream = stream;
        self.left = self.left.saturating_sub(1);
        self.failed = 0;
        self.poll
            .registry()
            .register(
                &mut stream,
                Token(1),
                Interest::READABLE | Interest::WRITABLE,
            )
            .map_err(ServiceFault::Socket)?;
        self.clients
            .push(Client::new(rt, stream, now))
            .map_err(|_| ServiceFault::NoMemory)
    }

    /// A failed accept is no connection: it prints the fault on standard error and waits a little, until 100 in a row
    /// have failed.
    fn pause_behind(&mut self, rt: &HostRuntime, fault: io::Error) -> Result<(), ServiceFault> {
        let _ = eprintln!(rt; "office: a connection wasn't taken: {fault}");
        self.failed = self.failed.saturating_add(1);
        if self.failed >= ACCEPTS {
            return Err(ServiceFault::NotTaken);
        }
        thread::sleep(rt, Duration::from_millis(PAUSE));
        Ok(())
    }

    /// Reads what has come from each client, and sends what each takes.
    fn exchange(&mut self, rt: &HostRuntime, now: Instant) {
        for client in self.clients.iter_mut() {
            client.exchange(rt, now);
            client.end_late(rt, now);
        }
        self.clients.retain(|client| !client.is_gone());
    }

    /// How many bytes of replies haven't been taken.
    fn unsent(&self) -> usize {
        let mut sum = 0usize;
        for client in self.clients.iter() {
            sum = sum.saturating_add(client.unsent());
        }
        sum
    }

    /// Answers all requests that only ask for what exists, and of the others the first one that is whole. Returns
    /// whether anything was answered.
    fn answer<K: Keeper>(
        &mut self,
        rt: &HostRuntime,
        office: &mut Office<K>,
        table: &Routes,
        now: Instant,
    ) -> bool
        requires { table.now ≡ office_routes }
    {
        if self.unsent() > UNSENT {
            self.send_away(false);
        }
        let manner = self.manner;
        let mut has_answered = false;
        for client in self.clients.iter_mut() {
            if client.is_quick() && client.answer(rt, office, table, manner, now) {
                has_answered = true;
            }
        }
        for client in self.clients.iter_mut() {
            if !client.is_quick() && client.answer(rt, office, table, manner, now) {
                return true;
            }
        }
        has_answered
    }
}

/// Serves this many connections of a listener, for requests to these hosts, or to any host if none is given. A failed
/// connection counts, too.
pub fn serve_clients<K: Keeper>(
    rt: &HostRuntime,
    listener: &mut TcpListener,
    office: &mut Office<K>,
    table: &Routes,
    connections: u32,
    hosts: &[&str],
) -> Result<(), ServiceFault>
    requires { table.now ≡ office_routes }
{
    let mut clients = Clients::new(rt, listener, connections, hosts)?;
    let mut is_busy = false;
    for _ in 0..u64::MAX {
        if clients.is_done() {
            break;
        }
        clients.wait(is_busy)?;
        let now = Instant::now(rt).map_err(ServiceFault::Clock)?;
        clients.accept(rt, listener, now)?;
        clients.exchange(rt, now);
        is_busy = clients.answer(rt, office, table, now);
    }
    Ok(())
}
