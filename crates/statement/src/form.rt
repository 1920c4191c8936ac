ghost use Rattle.std.specs.Prelude.{◌≡◌};
ghost use Rattle.statement.specs.Form.{form_of};

/// How the lines of a statement are written.
#[derive(Clone, Copy, Debug, PartialEq, Eq)]
pub enum Form {
    /// CSV, each number as its digits.
    Csv,
    /// CSV in which each number is a formula that is a text, so that a spreadsheet keeps all of its
    /// digits.
    Sheet,
    /// One object of JSON a line, each value a string.
    Json,
}

impl Form {
    /// The form of this name.
    pub fn read(name: &str) -> Option<Form>
        ensures { result ≡ form_of name.now }
    {
        match name {
            "csv" => Some(Form::Csv),
            "sheet" => Some(Form::Sheet),
            "json" => Some(Form::Json),
            _ => None,
        }
    }
}
