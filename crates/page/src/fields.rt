// The six fields of a line, each handed on as the page's own bytes.
ghost use Rattle.std.specs.Prelude.{◌≡◌, ◌+◌, ◌*◌, ◌<◌, length};
ghost use Rattle.credential.specs.Refusals.{answered};
ghost use Rattle.page.specs.Fields.{blank, field_at, fit_at, value_of};

use crate::lines::LINE;
use crate::numerals::read_number;
use credential::{Mark, Refusal};

// A field: its three bytes, with its line and its first column.
#[derive(Clone, Copy)]
pub struct Field<'a> {
    pub bytes: &'a [u8],
    pub line: usize,
    pub column: usize,
    ghost three: { length bytes.now ≡ 3 },
}

impl<'a> Field<'a> {
    // Field `k`, from 0, of a line.
    pub(crate) fn at(text: &'a [u8; LINE], line: usize, k: usize) -> Field<'a>
        requires { k < 6 }
        ensures bytes { result.bytes.now ≡ field_at text.now k }
        ensures line { result.line ≡ line }
        ensures column { result.column ≡ 3 * k + 2 }
    {
        let at = 3 * k + 1;
        let bytes = &text[at..at + 3];
        let column = at + 1;
        Field {
            bytes,
            line,
            column,
        }
    }

    // What stands in it under a mark, or the refusal: nothing in three blanks, in all else a number.
    pub(crate) fn value(self, mark: Mark) -> Result<Option<u32>, Refusal>
        ensures { answered result ≡ value_of mark self.entry.bytes.now self.entry.line self.entry.column }
    {
        if self.is_blank() {
            return self.fit(mark, None);
        }
        let Field { line, column, .. } = self;
        let number = read_number(self.bytes).ok_or(Refusal::FieldForm { line, column })?;
        self.fit(mark, Some(number))
    }

    fn is_blank(self) -> bool
        ensures { result ≡ blank self.entry.bytes.now }
    {
        matches!(self.bytes, b"   ")
    }

    // A value that fits the mark, or the refusal.
    fn fit(self, mark: Mark, value: Option<u32>) -> Result<Option<u32>, Refusal>
        ensures { answered result ≡ fit_at mark value self.entry.line self.entry.column }
    {
        mark.test(value)
            .map_err(|misfit| misfit.refusal_at(self.line, self.column))?;
        Ok(value)
    }
}
