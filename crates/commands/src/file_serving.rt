//! Serves the ledger in a file of this machine to many clients at once, and to an operator.
ghost use Rattle.std.specs.Prelude.{◌≡◌, ◌⊎◌, IfErr, IfOk, IsTrue, Ok, Err};
ghost use Rattle.command_line.specs.Values.{text_in};
ghost use Rattle.commands.specs.Leaving.{HasServedFile, IsServedFirst};
ghost use Rattle.listener.specs.Listening.{IsNoAddress};
ghost use Rattle.commands.specs.Openings.{RefusesSome};

use crate::counting::CountingAudit;
use crate::desk::HostDesk;
use crate::opening::{ServedFile, open_served};
use crate::reasons::tell_advised;
use crate::renewing::Home;
use crate::serving::Served;
use crate::store_serving::{EndedService, serve_to_end};
use crate::stores::may_be_called;
use chain::InUse;
use command_line::LimitWords;
use command_texts::Fault;
use listener::{Bell, Listening, Site, SystemMoments, asked_address, limits_of};
use metered_disk::Meter;
use records::Streamed;
use reply_marks::Marks;
use sqlite::Files;
use sqlite_disk::{Disk, Unknown};
use std::cell::Cell;
use std::net::SocketAddr;
use std::time::{Clock, Duration};
use store::Store;

/// What has served a file of this machine.
pub type HostService<'a> = EndedService<
    ServedFile<'a>,
    Listening<'a>,
    SystemMoments<'a, HostRuntime>,
    HostDesk<'a>,
>;

/// A file of this machine, and where it is served. The service goes on where nobody reads what it
/// tells on standard error.
#[derive(Drop)]
struct HostFile<'a> {
    rt: &'a HostRuntime,
    bell: &'a Bell,
    meter: &'a Meter,
    marks: &'a Marks<'a>,
    path: &'a str,
    address: SocketAddr,
    audit: CountingAudit,
    /// When the last opening began, by the machine's clock.
    began: Cell<Duration>,
    /// Whether it was told that the file is served.
    is_told: Cell<bool>,
}

impl<'a> Home<ServedFile<'a>> for HostFile<'a> {
    fn open_store(
        &self,
        left: &mut Option<Files<ServedFile<'a>>>,
    ) -> Result<InUse<Store<ServedFile<'a>>>, Fault> {
        *left = None;
        self.began.set(self.now());
        let (rt, path) = (self.rt, self.path);
        open_served(rt, path, Unknown, &self.audit, self.meter, self.marks)
    }

    fn tell(&self, fault: Fault) {
        if fault == Fault::InUse {
            let path = self.path;
            let _ = self.rt.eprintln(format_args!("standing by for {path}"));
        } else {
            let _ = tell_advised(self.rt, &mut Streamed::new(self.rt.stderr()), fault);
        }
    }

    fn settles(&self, is_busy: bool) {
        self.bell.set_settling(is_busy);
    }

    fn tried(&self, refused: Option<Fault>) {
        let mut tally = self.bell.tally();
        tally.tried(refused);
        self.bell.set_tally(tally);
    }

    fn tell_answers(&self, _store: &InUse<Store<ServedFile<'a>>>) {
        if self.is_told.get() {
            let path = self.path;
            let _ = self.rt.eprintln(format_args!("serving {path} again"));
        } else {
            self.tell_serving();
        }
    }
}

impl<'a> HostFile<'a> {
    fn new(site: &'a Site<'a>, path: &'a str, address: SocketAddr) -> HostFile<'a> {
        HostFile {
            rt: site.rt,
            bell: &site.bell,
            meter: &site.meter,
            marks: &site.marks,
            path,
            address,
            audit: CountingAudit::new(),
            began: Cell::new(Duration::ZERO),
            is_told: Cell::new(false),
        }
    }

    // The store, if it can be opened now; none where another process has the file and it is waited
    // for.
    fn first_store(&self, standby: bool) -> Result<Option<InUse<Store<ServedFile<'a>>>>, Fault>
        ensures first { IfOk result (IsServedFirst standby) }
        ensures fault { IfErr result (RefusesSome ⟦<ServedFile<'a> as Disk>⟧) }
    {
        match self.open_store(&mut None) {
            Ok(store) => {
                may_be_called(&store);
                Ok(Some(store))
            }
            Err(Fault::InUse) if standby => Ok(None),
            Err(fault) => Err(fault),
        }
    }

    fn now(&self) -> Duration {
        self.rt.monotonic().unwrap_or(Duration::ZERO)
    }

    // Tells that the file is served, where, how many tenants it has, and how long its opening took.
    fn tell_serving(&self) {
        self.is_told.set(true);
        let (path, address) = (self.path, self.address);
        let tenants = self.audit.contents().tenants;
        let noun = if tenants == 1 { "tenant" } else { "tenants" };
        let millis = self.now().saturating_sub(self.began.get()).as_millis();
        let seconds = millis / 1000;
        let tenths = millis % 1000 / 100;
        let _ = self.rt.eprintln(format_args!(
            "serving {path} on {address}, {tenants} {noun}, opened in {seconds}.{tenths} s"
        ));
    }
}

/// Serves the ledger in a file on a port of an address, of 127.0.0.1 where none is given, at the
/// moments of the machine's clock, within limits, until `most` messages were replied to, or an
/// operator stops it. The port is bound first, so that clients wait while the file is opened, and
/// are served once it is. With `standby` it is waited for a file that another process has: until
/// that lets go of it, clients are answered that the service is unavailable. Once the file is open
/// an operator may ask beside it.
pub fn serve_file<'a>(
    site: &'a Site<'a>,
    db: &'a str,
    address: Option<&str>,
    port: u16,
    limits: &LimitWords,
    standby: bool,
    most: u64,
) -> Result<HostService<'a>, Fault>
    ensures address_first { IsNoAddress (text_in address.entry) → result ≡ Err Fault.BadAddress }
    ensures served { IfOk result (λ ended. HasServedFile (text_in address.entry) port standby most
        ended (λ moments. moments.told)) }
    ensures stopped { IfOk result
        (λ ended. ended.why ≡ Served.Stopped → IsTrue ended.orders.is_stopping) }
    ensures fault { IfErr result (λ fault. RefusesSome ⟦<ServedFile<'a> as Disk>⟧ fault
        ⊎ (fault ≡ Fault.Socket)
        ⊎ ((fault ≡ Fault.BadAddress) × IsNoAddress (text_in address.entry))) }
{
    let asked = SocketAddr::new(asked_address(address)?, port);
    let listening = Listening::at(site, asked, limits_of(limits))?;
    let home = HostFile::new(site, db, listening.address());
    let store = home.first_store(standby)?;
    let mut desk = HostDesk::new(site, db, listening.watcher());
    if store.is_some() {
        desk.open();
        home.tell_serving();
    }
    let moments = SystemMoments::new(site.rt);
    let alloc = site.rt.alloc();
    match serve_to_end(alloc, listening, &home, store, moments, site.rt, desk, most) {
        Ok(ended) => Ok(ended),
        Err((fault, desk)) => {
            desk.close();
            Err(fault)
        }
    }
}
