ghost use Rattle.std.specs.Prelude.{ℕ, ◌≡◌, ◌<◌, List, [], length, map, get_or};

/// The text with this number in a table.
pub(crate) fn text_at(table: &'static [&'static str], number: u16) -> &'static str
    requires { number < length table.now }
    ensures { result.now ≡ get_or (map (λ text. text.now) table.now) number [] }
{
    table[number as usize]
}
