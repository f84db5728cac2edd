//! A connection whose write takes in what comes while it waits.
ghost use Rattle.std.specs.Prelude.{◌≡◌, ◌<◌, ◌↔◌, ◌+◌, ◌++◌, None, IsErr, IsTrue};
ghost use Rattle.std.specs.Option.{option_map};
ghost use Rattle.mqb_outside.specs.Told.{Reads, Writes};
ghost use Rattle.mqb_outside.specs.Faults.{HasCause};
ghost use Rattle.mqb_net.specs.TwoWays.{left_in};

use crate::ahead::{Ahead, CHUNK, Refused};
use crate::quiet::Quiet;
use crate::socket::{SHORT_WAIT, Socket, Stop};
use mqb_base::Failed;
use mqb_outside::{Conn, Sink, Source};
use std::alloc::Global;

/// How many pieces are taken in before a write is tried again.
const MAX_PIECES: u32 = 16;

/// A connection over a socket. A write that would wait takes in what has come, which the next reads
/// give first. So two ends that both write do not block each other, and one such end is enough.
#[derive(Drop)]
pub struct TwoWay<S: Socket + Drop> {
    socket: S,
    ahead: Ahead,
    quiet: Quiet,
    // A read of the socket in place of a write found it broken.
    broken: bool,
    read_faults: u64,
    write_faults: u64,
}

impl<S: Socket + Drop> TwoWay<S> {
    /// A connection over a socket, whose peer is silent after so many milliseconds.
    pub fn new(alloc: Global, socket: S, max_wait: u64) -> TwoWay<S>
        ensures read_faults { result.read_faults ≡ 0 }
        ensures write_faults { result.write_faults ≡ 0 }
        ensures held { option_map (λ rest. left_in result.ahead ++ rest) (S.held result.socket)
            ≡ S.held socket }
        ensures taken { S.taken result.socket ≡ S.taken socket }
    {
        TwoWay {
            socket,
            ahead: Ahead::new(alloc),
            quiet: Quiet::new(max_wait),
            broken: false,
            read_faults: 0,
            write_faults: 0,
        }
    }

    /// Its socket, where it is not used any more.
    pub(crate) fn into_socket(self) -> S {
        self.socket
    }

    /// Whether one of its counts of faults is not 0.
    pub(crate) fn had_faults(&self) -> bool
        ensures { IsTrue result ↔ (0 < self.now.read_faults + self.now.write_faults) }
    {
        self.read_faults > 0 || self.write_faults > 0
    }

    // The milliseconds since a moment.
    fn since(&self, began: u64) -> u64 {
        self.socket.millis().saturating_sub(began)
    }

    // Reads what came before, or else of the socket, and counts a fault.
    fn hear(&mut self, buf: &mut [u8]) -> Result<usize, Failed>
        ensures reads { Reads
            (option_map (λ rest. left_in self.old.ahead ++ rest) (S.held self.old.socket))
            (option_map (λ rest. left_in self.new.ahead ++ rest) (S.held self.new.socket))
            buf.old buf.new result }
        ensures cause { HasCause self.old.read_faults self.new.read_faults result }
        ensures taken { S.taken self.new.socket ≡ S.taken self.old.socket }
        ensures write_faults { self.new.write_faults ≡ self.old.write_faults }
    {
        let n = self.ahead.give(buf);
        if n > 0 || buf.is_empty() {
            return Ok(n);
        }
        if self.broken || self.quiet.is_over() {
            return self.read_fault();
        }
        let began = self.socket.millis();
        let rest = self.quiet.rest();
        match self.socket.hear(buf, rest) {
            Ok(n) => {
                let waited = self.since(began);
                self.quiet.wait(waited);
                self.quiet.come(n);
                Ok(n)
            }
            Err(_) => self.read_fault(),
        }
    }

    fn read_fault(&mut self) -> Result<usize, Failed>
        ensures failed { IsErr result }
        ensures cause { HasCause self.old.read_faults self.new.read_faults result }
        ensures write_faults { self.new.write_faults ≡ self.old.write_faults }
        ensures socket { self.new.socket ≡ self.old.socket }
        ensures ahead { self.new.ahead ≡ self.old.ahead }
    {
        self.read_faults = self.read_faults.saturating_add(1);
        Err(Failed)
    }

    fn write_fault(&mut self) -> Result<usize, Failed>
        ensures failed { IsErr result }
        ensures cause { HasCause self.old.write_faults self.new.write_faults result }
        ensures read_faults { self.new.read_faults ≡ self.old.read_faults }
        ensures socket { self.new.socket ≡ self.old.socket }
        ensures ahead { self.new.ahead ≡ self.old.ahead }
    {
        self.write_faults = self.write_faults.saturating_add(1);
        Err(Failed)
    }

    // Takes in a piece of what has come, and says whether more may be there.
    fn take_piece(&mut self) -> Result<bool, Refused>
        ensures held { option_map (λ rest. left_in self.new.ahead ++ rest) (S.held self.new.socket)
            ≡ option_map (λ rest. left_in self.old.ahead ++ rest) (S.held self.old.socket) }
        ensures taken { S.taken self.new.socket ≡ S.taken self.old.socket }
        ensures read_faults { self.new.read_faults ≡ self.old.read_faults }
        ensures write_faults { self.new.write_faults ≡ self.old.write_faults }
    {
        if self.broken {
            return Ok(false);
        }
        match self.ahead.take_in(&mut self.socket) {
            Ok(n) => {
                self.quiet.come(n);
                Ok(n == CHUNK)
            }
            Err(Refused::Stopped(stop)) => {
                self.broken = stop == Stop::Broken;
                Ok(false)
            }
            Err(refused) => Err(refused),
        }
    }

    // Takes in what has come, at most `MAX_PIECES` pieces.
    fn take_in(&mut self) -> Result<(), Refused>
        ensures held { option_map (λ rest. left_in self.new.ahead ++ rest) (S.held self.new.socket)
            ≡ option_map (λ rest. left_in self.old.ahead ++ rest) (S.held self.old.socket) }
        ensures taken { S.taken self.new.socket ≡ S.taken self.old.socket }
        ensures read_faults { self.new.read_faults ≡ self.old.read_faults }
        ensures write_faults { self.new.write_faults ≡ self.old.write_faults }
    {
        for _piece in 0..MAX_PIECES {
            if !self.take_piece()? {
                return Ok(());
            }
        }
        Ok(())
    }

    // Writes to the socket, and counts a fault. While it would wait, what comes is taken in.
    fn tell(&mut self, bytes: &[u8]) -> Result<usize, Failed>
        ensures writes { Writes (S.taken self.old.socket) (S.taken self.new.socket) bytes.now
            result }
        ensures cause { HasCause self.old.write_faults self.new.write_faults result }
        ensures held { option_map (λ rest. left_in self.new.ahead ++ rest) (S.held self.new.socket)
            ≡ option_map (λ rest. left_in self.old.ahead ++ rest) (S.held self.old.socket) }
        ensures read_faults { self.new.read_faults ≡ self.old.read_faults }
    {
        for _turn in 0..u64::MAX {
            let began = self.socket.millis();
            match self.socket.tell(bytes) {
                Ok(n) => {
                    self.quiet.go();
                    return Ok(n);
                }
                Err(Stop::Broken) => return self.write_fault(),
                Err(Stop::Waits) => {}
            }
            if self.take_in().is_err() {
                return self.write_fault();
            }
            let waited = self.since(began).max(SHORT_WAIT);
            self.quiet.wait(waited);
            if self.quiet.is_over() {
                return self.write_fault();
            }
        }
        self.write_fault()
    }
}

impl<S: Socket + Drop> Source for TwoWay<S> {
    ghost held = { λ conn. option_map (λ rest. left_in conn.ahead ++ rest) (S.held conn.socket) };

    ghost read_faults = { λ conn. conn.read_faults };

    fn read(&mut self, buf: &mut [u8]) -> Result<usize, Failed> {
        self.hear(buf)
    }
}

impl<S: Socket + Drop> Sink for TwoWay<S> {
    ghost taken = { λ conn. S.taken conn.socket };

    ghost write_faults = { λ conn. conn.write_faults };

    fn write(&mut self, bytes: &[u8]) -> Result<usize, Failed> {
        self.tell(bytes)
    }
}

impl<S: Socket + Drop> Conn for TwoWay<S> {
    ghost given = { λ _. None };

    ghost address = { λ _. None };

    fn receive(&mut self, buf: &mut [u8]) -> Result<usize, Failed> {
        self.hear(buf)
    }

    fn send(&mut self, bytes: &[u8]) -> Result<usize, Failed> {
        self.tell(bytes)
    }
}
