//! One end of a connection as the system gives it: each call may answer that it would wait.
ghost use Rattle.std.specs.Prelude.{◌≡◌, ◌≤◌, ℕ, List, Option, None, IfOk, length};
ghost use Rattle.mqb_outside.specs.Told.{Reads, Writes};

use std::io::{self, ErrorKind, Read, Write};
use std::net::{Shutdown, TcpStream};
use std::time::{Duration, Instant};

/// Why a call to a socket gave or took nothing.
#[derive(Clone, Copy, Debug, PartialEq)]
pub enum Stop {
    /// Nothing came, or there was no room, for as long as the call waits.
    Waits,
    /// The connection is broken.
    Broken,
}

/// A source and a sink whose calls answer where they would wait.
pub trait Socket {
    /// What is still to come, where it is told.
    ghost held: { Self → Option (List ℕ) };

    /// What it has taken, where it is told.
    ghost taken: { Self → Option (List ℕ) };

    /// Fills the front of `buf`, and says how much of it. For a `buf` that is not empty, 0 is the
    /// end of what comes. It waits for so many milliseconds.
    fn hear(&mut self, buf: &mut [u8], wait: u64) -> Result<usize, Stop>
        ensures reads { Reads (held self.old) (held self.new) buf.old buf.new result }
        ensures taken { taken self.new ≡ taken self.old };

    /// Takes a front of `bytes`, and says how much of it: at least one byte, where there is one. It
    /// waits for `SHORT_WAIT`.
    fn tell(&mut self, bytes: &[u8]) -> Result<usize, Stop>
        ensures writes { Writes (taken self.old) (taken self.new) bytes.now result }
        ensures held { held self.new ≡ held self.old };

    /// The milliseconds since it was made, where a clock tells them.
    fn millis(&self) -> u64;
}

/// The wait of a write, and of a read in place of it, in milliseconds.
pub const SHORT_WAIT: u64 = 10;

/// How long a connection that has ended waits for its peer to end it too: for each byte, and in
/// all, in milliseconds.
const LAST_WAIT: u64 = 1000;

const LAST_WAITS: u64 = 5000;

/// How often a read that a signal interrupted is made again.
const MAX_TRIES: u32 = 1000;

/// A socket of TCP. It tells neither what comes nor what was sent.
#[derive(Drop)]
pub struct TcpSocket {
    rt: HostRuntime,
    stream: TcpStream,
    made: Instant,
    // For how many milliseconds its reads wait.
    wait: u64,
    // A read that waits so long finds the end of what comes.
    last: Option<u64>,
}

fn stop_of(error: &io::Error) -> Stop {
    match error.kind() {
        ErrorKind::WouldBlock | ErrorKind::TimedOut | ErrorKind::Interrupted => Stop::Waits,
        _ => Stop::Broken,
    }
}

impl TcpSocket {
    pub(crate) fn over(
        rt: &HostRuntime,
        stream: TcpStream,
        last: Option<u64>,
    ) -> io::Result<TcpSocket> {
        let wait = Some(Duration::from_millis(SHORT_WAIT));
        stream.set_read_timeout(wait)?;
        stream.set_write_timeout(wait)?;
        Ok(TcpSocket {
            rt: *rt,
            stream,
            made: Instant::now(rt)?,
            wait: SHORT_WAIT,
            last,
        })
    }

    // How long its reads wait from now on. Where that cannot be set, nothing was read.
    fn set_wait(&mut self, wait: u64) -> Result<(), Stop> {
        if self.wait != wait {
            let time = Duration::from_millis(wait.max(1));
            if self.stream.set_read_timeout(Some(time)).is_err() {
                return Err(Stop::Broken);
            }
            self.wait = wait;
        }
        Ok(())
    }

    /// Nothing more goes, and what still comes is let go until the peer ends the connection, too,
    /// for some seconds. So the peer finds the end of what came: a connection that is closed over
    /// bytes that were not read is reset.
    pub(crate) fn linger(&mut self) {
        let began = self.millis();
        if self.stream.shutdown(Shutdown::Write).is_err() || self.set_wait(LAST_WAIT).is_err() {
            return;
        }
        let mut buffer = [0; 4096];
        for _ in 0..u64::MAX {
            match self.listen(&mut buffer) {
                Ok(n) if n > 0 && self.millis().saturating_sub(began) < LAST_WAITS => {}
                _ => return,
            }
        }
    }

    // Reads, again where a signal interrupts it.
    fn listen(&mut self, buf: &mut [u8]) -> Result<usize, Stop>
        ensures within { IfOk result (λ n. n ≤ length buf.old) }
    {
        for _ in 0..MAX_TRIES {
            match self.stream.read(buf) {
                Ok(n) => return Ok(n),
                Err(error) if error.kind() == ErrorKind::Interrupted => {}
                Err(error) => return Err(stop_of(&error)),
            }
        }
        Err(Stop::Waits)
    }
}

impl Socket for TcpSocket {
    ghost held = { λ _. None };

    ghost taken = { λ _. None };

    fn hear(&mut self, buf: &mut [u8], wait: u64) -> Result<usize, Stop> {
        match self.last {
            Some(last) if last <= wait => {
                self.set_wait(last)?;
                match self.listen(buf) {
                    Err(Stop::Waits) => Ok(0),
                    heard => heard,
                }
            }
            _ => {
                self.set_wait(wait)?;
                self.listen(buf)
            }
        }
    }

    fn tell(&mut self, bytes: &[u8]) -> Result<usize, Stop> {
        match self.stream.write(bytes) {
            Ok(n) if n > 0 || bytes.is_empty() => Ok(n),
            Ok(_) => Err(Stop::Broken),
            Err(error) => Err(stop_of(&error)),
        }
    }

    fn millis(&self) -> u64 {
        match self.made.elapsed(&self.rt) {
            Ok(time) => u64::try_from(time.as_millis()).unwrap_or(u64::MAX),
            Err(_) => 0,
        }
    }
}
