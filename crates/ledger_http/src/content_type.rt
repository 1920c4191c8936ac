ghost use Rattle.std.specs.Prelude.{◌≡◌};
ghost use Rattle.ledger_http.specs.ReplyText.{kind_name};

/// The type of a reply's body.
#[derive(Clone, Copy, Debug, PartialEq, Eq)]
pub enum ContentType {
    Json,
    /// A statement.
    Csv,
}

impl ContentType {
    /// The name of the type in a reply (RFC 6838).
    pub fn name(self) -> &'static str
        ensures { result.now ≡ kind_name self }
    {
        match self {
            ContentType::Json => "application/json",
            ContentType::Csv => "text/csv",
        }
    }
}
