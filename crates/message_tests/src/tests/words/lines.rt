//! The lines that commands write.

use command_texts::{Fault, put_count, put_key, put_metric, put_stopped, put_tenant, put_tenants};
use records::{Drain, Streamed};

// What the lines are together, and whether they were written.
fn put_all<O: Drain>(out: &mut O) -> Result<(), Fault> {
    put_key(out, "00ff")?;
    put_tenants(out)?;
    put_tenant(out, "north-desk", "ff00", "1764120000000000001")?;
    put_tenant(out, "south", "0f0f", "0")?;
    put_count(out, "clients", "3")?;
    put_metric(out, "clients", "3")?;
    put_stopped(out)
}

static TOLD: &str = "\
key 00ff
name,digest,clock
north-desk,ff00,1764120000000000001
south,0f0f,0
clients 3
ledgerd_clients 3
stopped
";

#[test]
fn tells_lists_and_counts(rt: HostRuntime) {
    let mut out = Streamed::new(Vec::new(rt.alloc()));
    assert_eq!(rt; put_all(&mut out), Ok(()));
    assert_eq!(rt; out.into_inner().as_slice(), TOLD.as_bytes());
}

// A device that is full behind some lines.
#[test]
fn tells_that_a_device_is_full(rt: HostRuntime) {
    let mut room = [0u8; 40];
    let mut out = Streamed::new(room.as_mut_slice());
    assert_eq!(rt; put_all(&mut out), Err(Fault::Output));
}
