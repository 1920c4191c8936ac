ghost use Rattle.std.specs.Prelude.{◌≡◌};
ghost use Rattle.command_line.specs.Version.{version_text};

/// What `--version` and `version` print, a line each: the program's version, that of the schema
/// which it serves, and the toolchain's program logic, by which it is proved: what `rt version`
/// ends with. Kits that differ in their tools alone have one logic.
pub fn version_text() -> &'static str
    ensures { result.now ≡ version_text }
{
    "ledgerd 0.1.0\nschema 3\nrattle logic dac8208d650f15bf\n"
}
