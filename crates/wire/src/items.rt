ghost use Rattle.std.specs.Prelude.{◌≡◌, List};

use std::marker::Model;

/// The values of a list in a message. Clauses see the list alone.
#[derive(Debug, Drop)]
pub struct Items<T>(Vec<T>);

impl<T> Model for Items<T> {
    ghost Value = { List T };

    ghost view = { λ a. a.0.items };
}

impl<T> From<Vec<T>> for Items<T> {
    ghost from_gives = { λ values items. items ≡ values.items };

    fn from(values: Vec<T>) -> Items<T> {
        Items(values)
    }
}

impl<T> Items<T> {
    pub fn as_slice(&self) -> &[T]
        ensures { result.now ≡ self.now }
    {
        self.0.as_slice()
    }

    /// The values, in the memory in which they were given.
    pub fn into_vec(self) -> Vec<T>
        ensures { result.items ≡ self }
    {
        let Items(values) = self;
        values
    }
}
