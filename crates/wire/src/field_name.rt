use std::marker::Model;

/// The name of a field. Clauses see its bytes.
#[derive(Debug, Drop)]
pub struct FieldName(String);

impl Model for FieldName {
    ghost use Rattle.std.specs.Prelude.{ℕ, List};
    ghost use Rattle.std.specs.String.{string_bytes};

    ghost Value = { List ℕ };

    ghost view = { λ name. string_bytes name.0 };
}

impl From<String> for FieldName {
    ghost use Rattle.std.specs.Prelude.{◌≡◌};
    ghost use Rattle.std.specs.String.{string_bytes};

    ghost from_gives = { λ text name. name ≡ string_bytes text };

    fn from(text: String) -> FieldName {
        FieldName(text)
    }
}

impl FieldName {
    ghost use Rattle.std.specs.Prelude.{◌≡◌};

    pub fn as_str(&self) -> &str
        ensures { result.now ≡ self.now }
    {
        self.0.as_str()
    }
}
