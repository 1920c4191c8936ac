//! The clients at the other end.
use super::scene::Scene;
use std::io::{ErrorKind, Read, Write};
use std::net::{Shutdown, TcpStream};
use std::test::Fail;

// How many bytes come up to the end, or for now where a client does not wait.
fn take(client: &mut TcpStream, piece: &mut [u8]) -> Result<usize, Fail> {
    let mut all = 0usize;
    for _ in 0..10_000 {
        match client.read(piece) {
            Ok(0) => return Ok(all),
            Ok(count) => all = all.saturating_add(count),
            Err(fault) if fault.kind() == ErrorKind::WouldBlock => return Ok(all),
            Err(fault) => return Err(fault.into()),
        }
    }
    Ok(all)
}

fn write(rt: &HostRuntime, client: &mut TcpStream, bytes: usize) -> Result<(), Fail> {
    let sent = Vec::from_elem(rt.alloc(), 7u8, bytes)?;
    Ok(client.write_all(sent.as_slice())?)
}

impl Scene<'_> {
    /// A client connects, and sends so many bytes.
    pub fn connect(&mut self, rt: &HostRuntime, bytes: usize) -> Result<(), Fail> {
        let mut client = TcpStream::connect(rt, self.sockets.local_addr()?)?;
        write(rt, &mut client, bytes)?;
        self.clients.push(client)?;
        Ok(())
    }

    /// A client sends so many bytes more.
    pub fn send(&mut self, rt: &HostRuntime, client: usize, bytes: usize) -> Result<(), Fail> {
        match self.clients.get_mut(client) {
            Some(client) => write(rt, client, bytes),
            None => Ok(()),
        }
    }

    /// A client sends no more.
    pub fn shut(&self, client: usize) -> Result<(), Fail> {
        match self.clients.get(client) {
            Some(client) => Ok(client.shutdown(Shutdown::Write)?),
            None => Ok(()),
        }
    }

    /// How many bytes come to a client up to the end.
    pub fn hear(&mut self, client: usize) -> Result<usize, Fail> {
        match self.clients.get_mut(client) {
            Some(client) => take(client, &mut self.piece),
            None => Ok(0),
        }
    }

    /// Whether a client that sends on is reset.
    pub fn is_reset(&mut self, client: usize) -> bool {
        let Some(client) = self.clients.get_mut(client) else {
            return false;
        };
        for _ in 0..100 {
            if client.write_all(b"more").is_err() {
                return true;
            }
        }
        false
    }
}
