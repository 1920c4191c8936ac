ghost use Rattle.std.specs.Prelude.{◌≡◌};
ghost use Rattle.built_from.specs.Commit.{commit_line};

/// The last line of `ledgerd version` in a packaged program: the commit that it is built from. In
/// the repository it is empty, since a commit cannot name itself. `build/packaged.py` writes it
/// into a copy of the sources.
pub fn commit_line() -> &'static str
    ensures { result.now ≡ commit_line }
{
    ""
}
