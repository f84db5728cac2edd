use mqb_base::Failed;
use mqb_net::{TcpConn, TcpNet};
use mqb_outside::{Conn, Net, Source};
use std::test::Fail;

/// Sends back the first bytes that come, at most four.
fn echo<C: Conn>(conn: &mut C) -> Result<usize, Failed> {
    let mut buf = [0; 4];
    let n = conn.receive(&mut buf)?;
    conn.send(&buf[..n])
}

/// The end that was asked for, and the one that was asked.
fn accepted(net: &mut TcpNet, near: TcpConn) -> Result<(TcpConn, TcpConn), Failed> {
    match net.accept() {
        Ok(far) => Ok((near, far)),
        Err(failed) => {
            drop(near);
            Err(failed)
        }
    }
}

/// Two ends of one connection, by way of a net's own port.
fn joined(net: &mut TcpNet) -> Result<(TcpConn, TcpConn), Failed> {
    if net.listen()? == 0 {
        return Err(Failed);
    }
    let near = net.connect([127, 0, 0, 1])?;
    accepted(net, near)
}

/// How many bytes go at each step: five are sent, four of them come back, and one is left. And
/// whether the four are the first ones.
fn talked<C: Conn>(near: &mut C, far: &mut C) -> Result<([usize; 5], bool), Failed> {
    let mut buffer = [0; 8];
    let sent = near.send(b"hello")?;
    let echoed = echo(far)?;
    let read = near.read(&mut buffer)?;
    let is_echo = buffer[..4].starts_with(b"hell");
    let rest = far.receive(&mut buffer)?;
    let nothing = far.write(b"")?;
    Ok(([sent, echoed, read, rest, nothing], is_echo))
}

/// The same over a new connection, and how many bytes come at the end that is left.
fn talked_over(net: &mut TcpNet) -> Result<([usize; 5], bool, usize), Failed> {
    let (mut near, mut far) = joined(net)?;
    let talked = talked(&mut near, &mut far);
    net.finish(near);
    let mut buffer = [0; 8];
    let end = far.read(&mut buffer);
    net.finish(far);
    let (counts, is_echo) = talked?;
    Ok((counts, is_echo, end?))
}

/// A connection of which one end is not ended.
fn left(net: &mut TcpNet) -> Result<(), Failed> {
    let (near, far) = joined(net)?;
    net.finish(near);
    drop(far);
    Ok(())
}

#[test]
fn a_net_over_tcp(rt: HostRuntime) -> Result<(), Fail> {
    let mut net = TcpNet::with_port(&rt, 0);
    let told = talked_over(&mut net);
    let left = left(&mut net);
    drop(net);
    assert!(rt; told? == ([5, 4, 4, 1, 0], true, 0));
    left?;
    Ok(())
}
