ghost use Rattle.std.specs.Prelude.{◌≡◌, ◌≢◌, None, Ok, false, IfOk, OnErr};
ghost use Rattle.mqb_outside.specs.Faults.{HasCause, Rose};
ghost use Rattle.mqb_net.specs.Tcp.{IsFaultless, faults_of, idle_of, lost_by};

use crate::patient_net::PatientNet;
use crate::quiet::Waits;
use crate::socket::SHORT_WAIT;
use crate::tcp_conn::TcpConn;
use mqb_base::Failed;
use mqb_outside::Net;
use std::net::{Ipv4Addr, SocketAddr, SocketAddrV4, TcpListener, TcpStream};
use std::time::{Duration, Instant};
use std::{io, thread};

/// The port of managers.
pub const PORT: u16 = 1801;

/// The longest wait for a silent peer, and for a peer to be reached, in milliseconds.
pub const MAX_WAIT: u64 = 60_000;

/// How often an accept that failed is made again.
const MAX_TRIES: u32 = 100;

/// The milliseconds between one such accept and the next.
const PAUSE: u64 = 100;

/// A net over TCP. From its first `accept`, `await_peer` or `listen` on it listens on all addresses
/// of the machine. It tells nothing of its connections.
#[derive(Drop)]
pub struct TcpNet {
    rt: HostRuntime,
    port: u16,
    waits: Waits,
    listener: Option<TcpListener>,
    // A connection that came while it was waited for a peer.
    came: Option<TcpStream>,
    faults: u64,
    idle: u64,
    lost: u64,
}

impl TcpNet {
    /// A net on the port of managers.
    pub fn new(rt: &HostRuntime) -> TcpNet
        ensures faults { faults_of result ≡ 0 }
        ensures lost { lost_by result ≡ 0 }
    {
        TcpNet::with_port(rt, PORT)
    }

    /// A net on another port, on which it listens and to which it connects. Where that is 0, the
    /// system chooses one once it listens.
    pub fn with_port(rt: &HostRuntime, port: u16) -> TcpNet
        ensures faults { faults_of result ≡ 0 }
        ensures lost { lost_by result ≡ 0 }
    {
        TcpNet {
            rt: *rt,
            port,
            waits: Waits {
                longest: MAX_WAIT,
                last: None,
            },
            listener: None,
            came: None,
            faults: 0,
            idle: 0,
            lost: 0,
        }
    }

    /// A peer of the connections to come is silent after so many milliseconds.
    pub fn set_max_wait(&mut self, millis: u64)
        ensures faults { faults_of self.new ≡ faults_of self.old }
        ensures lost { lost_by self.new ≡ lost_by self.old }
    {
        self.waits.longest = millis;
    }

    /// Listens, unless it does already, so that connections that peers make wait for an `accept`.
    /// It answers the port.
    pub fn listen(&mut self) -> Result<u16, Failed>
        ensures cause { HasCause (faults_of self.old) (faults_of self.new) result }
        ensures lost { lost_by self.new ≡ lost_by self.old }
    {
        let begun = self.begin();
        self.note(begun)?;
        Ok(self.port)
    }

    // Begins to listen, unless it does already.
    fn begin(&mut self) -> io::Result<()>
        ensures faults { faults_of self.new ≡ faults_of self.old }
        ensures idle { idle_of self.new ≡ idle_of self.old }
        ensures lost { lost_by self.new ≡ lost_by self.old }
    {
        if self.listener.is_none() {
            let all = SocketAddrV4::new(Ipv4Addr::UNSPECIFIED, self.port);
            let listener = TcpListener::bind(&self.rt, all)?;
            self.port = listener.local_addr()?.port();
            self.listener = Some(listener);
        }
        Ok(())
    }

    // Waits so many seconds at most for a connection that a peer makes, and says whether one came.
    fn find_peer(&mut self, seconds: u32) -> io::Result<bool>
        ensures faults { faults_of self.new ≡ faults_of self.old }
        ensures idle { idle_of self.new ≡ idle_of self.old }
        ensures lost { lost_by self.new ≡ lost_by self.old }
    {
        if self.came.is_none() {
            self.begin()?;
            if let Some(listener) = &self.listener {
                listener.set_nonblocking(true)?;
                let found = poll(&self.rt, listener, seconds);
                listener.set_nonblocking(false)?;
                self.came = found?;
            }
        }
        Ok(self.came.is_some())
    }

    // Waits for the next connection that a peer makes.
    fn next_conn(&mut self) -> io::Result<TcpConn>
        ensures faultless { IfOk result (λ conn. IsFaultless conn) }
        ensures faults { faults_of self.new ≡ faults_of self.old }
        ensures idle { idle_of self.new ≡ idle_of self.old }
        ensures lost { lost_by self.new ≡ lost_by self.old }
    {
        if let Some(stream) = self.came.take() {
            return TcpConn::over(&self.rt, stream, self.waits);
        }
        self.begin()?;
        match &self.listener {
            Some(listener) => accept_from(&self.rt, listener, self.waits),
            None => Err(io::ErrorKind::NotConnected.into()),
        }
    }

    // Counts a fault where something failed.
    fn note<T>(&mut self, done: io::Result<T>) -> Result<T, Failed>
        ensures cause { HasCause (faults_of self.old) (faults_of self.new) result }
        ensures same { IfOk result (λ value. done ≡ Ok value) }
        ensures idle { idle_of self.new ≡ idle_of self.old }
        ensures lost { lost_by self.new ≡ lost_by self.old }
    {
        match done {
            Ok(value) => Ok(value),
            Err(_) => {
                self.faults = self.faults.saturating_add(1);
                Err(Failed)
            }
        }
    }
}

fn accept_one(rt: &HostRuntime, listener: &TcpListener, waits: Waits) -> io::Result<TcpConn>
    ensures { IfOk result (λ conn. IsFaultless conn) }
{
    TcpConn::over(rt, listener.accept()?.0, waits)
}

// Waits for the next connection. One that was broken before it was accepted, or a lack of handles
// for a moment, does not end the wait.
fn accept_from(rt: &HostRuntime, listener: &TcpListener, waits: Waits) -> io::Result<TcpConn>
    ensures { IfOk result (λ conn. IsFaultless conn) }
{
    for _ in 0..MAX_TRIES {
        match accept_one(rt, listener, waits) {
            Ok(conn) => return Ok(conn),
            Err(_) => thread::sleep(rt, Duration::from_millis(PAUSE)),
        }
    }
    accept_one(rt, listener, waits)
}

// Waits so many seconds at most for a connection, by a listener that does not block.
fn poll(rt: &HostRuntime, listener: &TcpListener, seconds: u32) -> io::Result<Option<TcpStream>> {
    let began = Instant::now(rt)?;
    let longest = Duration::from_secs(u64::from(seconds));
    let mut tries = 0u32;
    for _ in 0..u64::MAX {
        let pause = match listener.accept() {
            Ok((stream, _)) => {
                stream.set_nonblocking(false)?;
                return Ok(Some(stream));
            }
            Err(error) if error.kind() == io::ErrorKind::WouldBlock => SHORT_WAIT,
            Err(error) if tries >= MAX_TRIES => return Err(error),
            Err(_) => {
                tries = tries.saturating_add(1);
                PAUSE
            }
        };
        if began.elapsed(rt)? >= longest {
            return Ok(None);
        }
        thread::sleep(rt, Duration::from_millis(pause));
    }
    Ok(None)
}

fn reach(rt: &HostRuntime, address: [u8; 4], port: u16, waits: Waits) -> io::Result<TcpConn>
    ensures { IfOk result (λ conn. IsFaultless conn) }
{
    let peer = SocketAddr::V4(SocketAddrV4::new(Ipv4Addr::from_octets(address), port));
    let wait = Duration::from_millis(waits.longest);
    TcpConn::over(rt, TcpStream::connect_timeout(rt, &peer, wait)?, waits)
}

impl Net for TcpNet {
    type C = TcpConn;

    ghost faults = { faults_of };

    ghost idle = { idle_of };

    ghost lost = { lost_by };

    ghost finished = { λ _. None };

    ghost unfinished = { λ _. None };

    ghost tells = { λ _ told. told };

    fn await_peer(&mut self, seconds: u32) -> Result<bool, Failed> {
        let found = self.find_peer(seconds);
        let came = self.note(found)?;
        if !came {
            self.idle = self.idle.saturating_add(1);
        }
        Ok(came)
    }

    fn accept(&mut self) -> Result<TcpConn, Failed> {
        let made = self.next_conn();
        self.note(made)
    }

    fn connect(&mut self, address: [u8; 4]) -> Result<TcpConn, Failed> {
        let made = reach(&self.rt, address, self.port, self.waits);
        self.note(made)
    }

    fn finish(&mut self, conn: TcpConn) {
        if conn.had_faults() {
            self.lost = self.lost.saturating_add(1);
        } else {
            conn.end();
        }
    }
}

impl PatientNet for TcpNet {
    fn end_by_silence(&mut self, seconds: Option<u32>) {
        self.waits.last = match seconds {
            Some(seconds) => Some(u64::from(seconds) * 1000),
            None => None,
        };
    }
}
