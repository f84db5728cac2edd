ghost use Rattle.std.specs.Prelude.{◌≡◌, ◌<◌, ◌↔◌, ◌+◌, None, IsTrue, IfOk};
ghost use Rattle.mqb_net.specs.Tcp.{IsFaultless};

use crate::quiet::Waits;
use crate::socket::TcpSocket;
use crate::two_way::TwoWay;
use mqb_base::Failed;
use mqb_outside::{Conn, Sink, Source};
use std::io;
use std::net::TcpStream;

/// A connection over TCP. It tells neither what comes on it nor what was sent. A write that would
/// wait takes in what has come, which the next reads give first. Both fail where the peer is
/// silent: where fewer than `MIN_BYTES` came within the longest wait, and none went.
#[derive(Drop)]
pub struct TcpConn {
    ends: TwoWay<TcpSocket>,
}

impl TcpConn {
    pub(crate) fn over(rt: &HostRuntime, stream: TcpStream, waits: Waits) -> io::Result<TcpConn>
        ensures { IfOk result (λ conn. IsFaultless conn) }
    {
        let socket = TcpSocket::over(rt, stream, waits.last)?;
        let longest = waits.longest.saturating_add(waits.last.unwrap_or(0));
        Ok(TcpConn {
            ends: TwoWay::new(rt.alloc(), socket, longest),
        })
    }

    /// Whether one of its counts of faults is not 0.
    pub(crate) fn had_faults(&self) -> bool
        ensures { IsTrue result ↔ (0 < self.now.ends.read_faults + self.now.ends.write_faults) }
    {
        self.ends.had_faults()
    }

    /// Ends it, so that its peer finds the end of what came.
    pub(crate) fn end(self) {
        self.ends.into_socket().linger();
    }
}

impl Source for TcpConn {
    ghost held = { λ _. None };

    ghost read_faults = { λ conn. conn.ends.read_faults };

    fn read(&mut self, buf: &mut [u8]) -> Result<usize, Failed> {
        self.ends.read(buf)
    }
}

impl Sink for TcpConn {
    ghost taken = { λ _. None };

    ghost write_faults = { λ conn. conn.ends.write_faults };

    fn write(&mut self, bytes: &[u8]) -> Result<usize, Failed> {
        self.ends.write(bytes)
    }
}

impl Conn for TcpConn {
    ghost given = { λ _. None };

    ghost address = { λ _. None };

    fn receive(&mut self, buf: &mut [u8]) -> Result<usize, Failed> {
        self.ends.receive(buf)
    }

    fn send(&mut self, bytes: &[u8]) -> Result<usize, Failed> {
        self.ends.send(bytes)
    }
}
