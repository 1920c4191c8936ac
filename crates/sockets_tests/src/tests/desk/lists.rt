//! Lists and counts, as bodies and as lines.
use command_texts::{Fault, name};
use control::{Count, CountForm, TenantRow, counts_body, put_counted, put_listed, tenants_body};
use records::Streamed;
use std::test::Fail;

const TENANTS: &str = "{\"tenants\":[\
    {\"name\":\"north-desk\",\
    \"digest\":\"0707070707070707070707070707070707070707070707070707070707070707\",\
    \"clock\":\"1764120000000000001\"},\
    {\"name\":\"s\",\
    \"digest\":\"fefefefefefefefefefefefefefefefefefefefefefefefefefefefefefefefe\",\
    \"clock\":\"0\"}]}";

const LISTED: &str = "\
name,digest,clock
north-desk,0707070707070707070707070707070707070707070707070707070707070707,1764120000000000001
s,fefefefefefefefefefefefefefefefefefefefefefefefefefefefefefefefe,0
";

#[test]
fn lists_tenants(rt: HostRuntime) -> Result<(), Fail> {
    let rows = [
        TenantRow {
            name: name("north-desk")?,
            digest: [7; 32],
            clock: 1_764_120_000_000_000_001,
        },
        TenantRow {
            name: name("s")?,
            digest: [254; 32],
            clock: 0,
        },
    ];
    let body = tenants_body(rt.alloc(), &rows)?;
    assert_eq!(rt; body.as_slice(), TENANTS.as_bytes());
    let mut out = Streamed::new(Vec::new(rt.alloc()));
    put_listed(rt.alloc(), &mut out, body.as_slice())?;
    assert_eq!(rt; out.into_inner().as_slice(), LISTED.as_bytes());
    Ok(())
}

const COUNTS: [Count<'static>; 2] = [
    Count {
        name: "clients",
        value: 3,
    },
    Count {
        name: "late",
        value: u64::MAX as u128,
    },
];

#[test]
fn tells_counts(rt: HostRuntime) -> Result<(), Fail> {
    let body = counts_body(rt.alloc(), &COUNTS)?;
    let want = "{\"status\":{\"clients\":\"3\",\"late\":\"18446744073709551615\"}}";
    assert_eq!(rt; body.as_slice(), want.as_bytes());
    let forms = [
        (CountForm::Plain, "clients 3\nlate 18446744073709551615\n"),
        (
            CountForm::Metric,
            "ledgerd_clients 3\nledgerd_late 18446744073709551615\n",
        ),
    ];
    for (form, lines) in forms {
        let mut out = Streamed::new(Vec::new(rt.alloc()));
        put_counted(rt.alloc(), &mut out, form, body.as_slice())?;
        assert_eq!(rt; out.into_inner().as_slice(), lines.as_bytes());
    }
    Ok(())
}

// Bodies that are no lists, and no counts.
#[test]
fn takes_no_other_bodies(rt: HostRuntime) {
    let bodies = [
        "",
        "{}",
        "{\"tenants\":{}}",
        "{\"tenants\":[{\"name\":\"n\",\"digest\":\"0\"}]}",
        "{\"tenants\":[{\"name\":\"n\",\"digest\":\"0\",\"clock\":0}]}",
        "{\"status\":[]}",
        "{\"status\":{\"clients\":3}}",
    ];
    for body in bodies {
        let mut out = Streamed::new(Vec::new(rt.alloc()));
        let listed = put_listed(rt.alloc(), &mut out, body.as_bytes());
        assert_eq!(rt; listed, Err(Fault::Unavailable), "of {body}");
        let counted = put_counted(rt.alloc(), &mut out, CountForm::Plain, body.as_bytes());
        assert_eq!(rt; counted, Err(Fault::Unavailable), "of {body}");
        assert!(rt; out.into_inner().is_empty());
    }
}
