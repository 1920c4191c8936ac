use ledger_http::Refusal;

/// What `respond_plain` answers.
#[derive(Debug, Drop)]
pub enum PlainReply {
    /// The batch ran; the bytes of the reply's body.
    Body(Vec<u8>),
    Refused(Refusal),
    /// Memory ran out, and nothing has changed.
    Unavailable,
}
