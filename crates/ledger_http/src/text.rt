use std::marker::Model;

/// The bytes of a reply that was made.
#[derive(Debug, Drop)]
pub struct Text(Vec<u8>);

impl Model for Text {
    ghost use Rattle.std.specs.Prelude.{ℕ, List};

    ghost Value = { List ℕ };

    ghost view = { λ text. text.0.items };
}

impl From<Vec<u8>> for Text {
    ghost use Rattle.std.specs.Prelude.{◌≡◌};

    ghost from_gives = { λ bytes text. text ≡ bytes.items };

    fn from(bytes: Vec<u8>) -> Text {
        Text(bytes)
    }
}

impl Text {
    ghost use Rattle.std.specs.Prelude.{◌≡◌};

    pub fn as_slice(&self) -> &[u8]
        ensures { result.now ≡ self.now }
    {
        self.0.as_slice()
    }

    /// The bytes, in the memory in which they were given.
    pub fn into_vec(self) -> Vec<u8>
        ensures { result.items ≡ self }
    {
        let Text(bytes) = self;
        bytes
    }
}
