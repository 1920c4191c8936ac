//! What a service has answered.
ghost use Rattle.std.specs.Prelude.{◌≡◌};
ghost use Rattle.control.specs.Answers.{body_of};

/// What a service has answered to a call. Only `call` makes one, of what it has sent and of all
/// that came back.
#[derive(Drop)]
pub struct Answer {
    pub(crate) message: Vec<u8>,
    pub(crate) reply: Vec<u8>,
    pub(crate) body: Vec<u8>,
}

impl Answer {
    /// What the reply tells.
    pub fn body(&self) -> &[u8]
        ensures { result.now ≡ body_of self.now }
    {
        self.body.as_slice()
    }
}
