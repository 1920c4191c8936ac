//! A list against the forms of its items.

ghost use Rattle.std.specs.Prelude.{◌≡◌, ◌↔◌, map, IsTrue};

/// What an item of a schema is to be.
pub(crate) trait Form {
    type Item;

    ghost meant: { Self → Self.Item };

    fn fits(&self, item: &Self::Item) -> bool
        ensures { IsTrue result ↔ (item.now ≡ meant self.now) };
}

/// Whether the items are what the forms say, one for one.
pub(crate) fn fit_all<F: Form>(forms: &[F], items: &[F::Item]) -> bool
    ensures { IsTrue result ↔ (items.now ≡ map F.meant forms.now) }
{
    if forms.len() != items.len() {
        return false;
    }
    for (form, item) in forms.iter().zip(items) {
        if !form.fits(item) {
            return false;
        }
    }
    true
}
