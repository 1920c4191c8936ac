//! Clients over sockets of this machine.
use super::files::Step::{Listens, Posts, Serves};
use super::files::take_steps;
use super::firms::NO_TRANSFERS;
use super::homes::{Fails, Firms, InMemory, Notes, Nowhere, TestDisk};
use super::orders::Silent;
use super::scripted::Hand;
use super::serving::AT_ONCE;
use super::settling::At;
use command_texts::Fault;
use commands::{Served, serve_store};
use polling::Peers;
use sockets::{Limits, Operator, Sockets};
use sqlite_disk::Disk;
use std::io::{ErrorKind, Read, Write};
use std::net::{Ipv4Addr, SocketAddr, TcpListener, TcpStream};
use std::test::Fail;

// Nobody, who is told nothing.
#[derive(Drop)]
struct Nobody;

impl Operator for Nobody {
    fn tell_short(&self) {}

    fn tell_accepting(&self) {}
}

// The port is bound before the file is opened.
#[test]
fn takes_no_port_in_use(rt: HostRuntime) -> Result<(), Fail> {
    let listener = TcpListener::bind(&rt, SocketAddr::from((Ipv4Addr::LOCALHOST, 0)))?;
    let port = listener.local_addr()?.port();
    let steps = [
        Serves(port, Some(Fault::Socket)),
        Serves(0, Some(Fault::Unreadable)),
        Posts,
        Serves(port, Some(Fault::Socket)),
        Serves(0, None),
    ];
    take_steps(&rt, "port.db", &steps)
}

// An address is read before anything is done. 192.0.2.1 is no machine's (RFC 5737).
#[test]
fn listens_where_it_is_told(rt: HostRuntime) -> Result<(), Fail> {
    let steps = [
        Listens("", Some(Fault::BadAddress)),
        Listens("localhost", Some(Fault::BadAddress)),
        Listens("127.1", Some(Fault::BadAddress)),
        Listens("[::1]", Some(Fault::BadAddress)),
        Listens("127.0.0.1:80", Some(Fault::BadAddress)),
        Listens("192.0.2.1", Some(Fault::Socket)),
        Listens("127.0.0.2", Some(Fault::Unreadable)),
        Posts,
        Listens("127.0.0.2", None),
        Listens("0.0.0.0", None),
    ];
    take_steps(&rt, "address.db", &steps)
}

// All that a client is still told, behind a bar. A connection that is ended before all that was
// sent is read may be reset.
fn hear(told: &mut Vec<u8>, mut client: TcpStream) -> Result<(), Fail> {
    told.push(b'|')?;
    match client.read_to_end(told) {
        Ok(_) => Ok(()),
        Err(fault) if fault.kind() == ErrorKind::ConnectionReset => Ok(()),
        Err(fault) => Err(fault.into()),
    }
}

// A client that has sent this, and keeps its connection.
fn client(rt: &HostRuntime, address: SocketAddr, text: &str) -> Result<TcpStream, Fail> {
    let mut client = TcpStream::connect(rt, address)?;
    client.write_all(text.as_bytes())?;
    Ok(client)
}

// Serves the ledgers of a firm until so many messages are replied to.
fn serve<D: Disk + Drop, F: Firms<D>, P: Peers>(
    rt: &HostRuntime,
    firms: &F,
    peers: &mut P,
    most: u64,
) -> Result<(), Fail> {
    let clock = Hand::new();
    let home = Nowhere(Notes::new(rt.alloc(), &clock));
    let Some(store) = firms.store(Fails::Never) else {
        return Err(Fail::new(format_args!("no store")));
    };
    let mut moments = At(1000);
    let (served, Silent) = serve_store(
        rt.alloc(),
        peers,
        &home,
        Some(store),
        &mut moments,
        rt,
        Silent,
        most,
    );
    match served {
        Ok(Served::Enough) => Ok(()),
        _ => Err(Fail::new(format_args!("the service has ended"))),
    }
}

// What three clients are told that have sent these texts, until so many messages are replied to.
fn exchange(rt: &HostRuntime, texts: [&str; 3], most: u64) -> Result<Vec<u8>, Fail> {
    let address = SocketAddr::from((Ipv4Addr::LOCALHOST, 0));
    let mut peers = Sockets::listen(rt, rt, &Nobody, address, Limits::usual())?;
    let address = peers.local_addr()?;
    let first = client(rt, address, texts[0])?;
    let second = client(rt, address, texts[1])?;
    let third = client(rt, address, texts[2])?;
    serve::<TestDisk, InMemory, _>(rt, &InMemory(rt.alloc()), &mut peers, most)?;
    drop(peers);
    let mut told = Vec::new(rt.alloc());
    hear(&mut told, first)?;
    hear(&mut told, second)?;
    hear(&mut told, third)?;
    Ok(told)
}

// Neither who is silent nor who has begun a message keeps another one waiting.
#[test]
fn serves_clients_at_once(rt: HostRuntime) -> Result<(), Fail> {
    let two = format!(in rt.alloc(); "{NO_TRANSFERS}{NO_TRANSFERS}")?;
    let told = exchange(&rt, ["", "POST /transfers HT", &two], 2)?;
    let want = format!(in rt.alloc(); "|||{AT_ONCE}")?;
    assert_eq!(rt; told.as_slice(), want.as_bytes());
    Ok(())
}
