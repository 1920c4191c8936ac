//! A connection over a socket.
use super::connections::Thousands;
use super::messages::good;
use crate::tests::asserting::same;
use crate::tests::firms::Firms;
use crate::tests::messages::{BATCH, FIRST};
use records::Streamed;
use service::ServeFault;
use std::alloc::Global;
use std::io::{BufReader, Read, Write};
use std::net::{Ipv4Addr, Shutdown, SocketAddr, TcpListener, TcpStream};
use std::test::Fail;

/// Serves the connection of a new firm that comes next, and tells how it ends.
fn serve_next(alloc: Global, listener: &TcpListener) -> Result<Result<u64, ServeFault>, Fail> {
    let (stream, _) = listener.accept()?;
    let mut firms = Firms::with(alloc, &[FIRST])?;
    let mut reader = Streamed::new(BufReader::new(alloc, &stream)?);
    let mut writer = Streamed::new(&stream);
    let ended = firms.serve(&mut reader, &mut writer, &mut Thousands(1000), 9);
    stream.shutdown(Shutdown::Write)?;
    Ok(ended)
}

#[test]
fn serves_a_socket(rt: HostRuntime) -> Result<(), Fail> {
    let listener = TcpListener::bind(&rt, SocketAddr::from((Ipv4Addr::LOCALHOST, 0)))?;
    let mut client = TcpStream::connect(&rt, listener.local_addr()?)?;
    client.write_all(BATCH.as_bytes())?;
    client.shutdown(Shutdown::Write)?;
    let ended = serve_next(rt.alloc(), &listener)?;
    same(&rt, "the connection", ended, Ok(1));
    let mut told = Vec::new(rt.alloc());
    client.read_to_end(&mut told)?;
    let want = good(rt.alloc(), "{\"clock\":\"1000\",\"results\":[]}")?;
    same(&rt, "the reply", told.as_slice(), want.as_slice());
    Ok(())
}
