use crate::cause::cause;
use records::Unavailable;
use sqlite::Row;
use sqlite::types::ValueRef;

/// The columns of a row that are still to be read.
#[derive(Drop)]
pub(crate) struct Columns<'a> {
    row: &'a Row,
    next: usize,
}

impl<'a> Columns<'a> {
    ghost use Rattle.std.specs.Prelude.{◌≡◌, [], ◌∷◌, FitsSigned, IfOk, IsTrue, string_bytes};
    ghost use Rattle.std.specs.Int.{w64};
    ghost use Rattle.sqlite_value.specs.Value.{owned};
    ghost use Rattle.sqlite_value.specs.Order.{column};
    ghost use Rattle.sqlite_value.specs.declared.value.Value.TheVariants.{Int, Text, Blob};
    ghost use Rattle.ledger_sql.specs.Columns.{left};

    /// All columns of a row.
    pub(crate) fn of(row: &'a Row) -> Columns<'a>
        ensures { left result ≡ row.now }
    {
        Columns { row, next: 0 }
    }

    /// Whether there are none.
    pub(crate) fn is_empty(&self) -> bool
        ensures { IsTrue result → left self.now ≡ [] }
    {
        self.row.column_count() <= self.next
    }

    /// The place of the next column, which is passed.
    fn pass(&mut self) -> Result<usize, Unavailable>
        ensures same { self.new.row ≡ self.old.row }
        ensures place { IfOk result
            (λ at. left self.old ≡ column self.old.row.now at ∷ left self.new) }
    {
        let at = self.next;
        if self.row.column_count() <= at {
            return Err(Unavailable::Size);
        }
        self.next = at + 1;
        Ok(at)
    }

    /// The value in the next column.
    fn take(&mut self) -> Result<ValueRef<'a>, Unavailable>
        ensures { IfOk result (λ value. left self.old ≡ owned value ∷ left self.new) }
    {
        let at = self.pass()?;
        self.row.get_ref(at).map_err(|_| Unavailable::Size)
    }

    /// The bytes in the next column, which are so many.
    pub(crate) fn bytes<const N: usize>(&mut self) -> Result<[u8; N], Unavailable>
        ensures { IfOk result (λ bytes. left self.old ≡ Blob bytes ∷ left self.new) }
    {
        match self.take()? {
            ValueRef::Blob(bytes) => bytes.try_into().map_err(|_| Unavailable::Size),
            _ => Err(Unavailable::Size),
        }
    }

    /// The text in the next column.
    pub(crate) fn text(&mut self) -> Result<String, Unavailable>
        ensures { IfOk result (λ text. left self.old ≡ Text (string_bytes text) ∷ left self.new) }
    {
        let at = self.pass()?;
        self.row.get::<String>(at).map_err(cause)
    }

    /// The whole number in the next column.
    pub(crate) fn whole(&mut self) -> Result<i64, Unavailable>
        ensures number { IfOk result (λ number. left self.old ≡ Int number ∷ left self.new) }
        ensures fits { IfOk result (λ number. FitsSigned w64 number) }
    {
        match self.take()? {
            ValueRef::Int(number) => Ok(number),
            _ => Err(Unavailable::Size),
        }
    }
}
