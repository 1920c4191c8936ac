use crate::Route;
use tenants::Key;

/// A request, read up to its key. The body has not been looked at.
#[derive(Clone, Copy, Debug)]
pub struct Asked<'a> {
    pub route: Route,
    /// The account in the path of a statement, as it stands there; empty on the other routes.
    pub account: &'a str,
    pub key: Key,
    /// Whether the request asks for detail in its reply, by the header `x-ledger-detail: 1`.
    pub detail: bool,
    pub body: &'a [u8],
}
