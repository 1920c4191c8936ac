ghost use Rattle.engine.specs.EntryLaws.{EntriesComeInTurn, ValidExactlyEntryByEntry};

/// A machine is valid exactly if each entry of its lists, looked at beside those before it, is what
/// its own fields give, and widths, timestamps, batches, failed ids and the clock are in order. It
/// does nothing, as the other laws.
pub fn valid_exactly_entry_by_entry()
    ensures { ValidExactlyEntryByEntry }
{}

/// The entries before a timestamp grow by one entry after the other, in order of timestamp: what a
/// replay of both lists rests on.
pub fn entries_come_in_turn()
    ensures { EntriesComeInTurn }
{}
