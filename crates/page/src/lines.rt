// Lines of a page: read to a credential, and written from one.
ghost use Rattle.std.specs.Prelude.{◌≡◌, [], ◌∷◌, ◌++◌, length, take, drop};
ghost use Rattle.credential.specs.Letters.{marks_of};
ghost use Rattle.credential.specs.Refusals.{answered};
ghost use Rattle.page.specs.Fields.{field_text};
ghost use Rattle.page.specs.Lines.{read_fields, read_line, fields_text, line_of};
ghost use Rattle.page.specs.Pages.{write_answer, write_after};

use crate::fields::Field;
use crate::numerals::write_number;
use credential::{Credential, Letter, Mark, Refusal};

// The bytes of a line: a letter, six fields of three columns, and a newline.
pub const LINE: usize = 20;

// The credential of a line, or of what is left of the page where that is shorter.
pub fn read_line(text: &[u8], line: usize) -> Result<Credential, Refusal>
    ensures { answered result ≡ read_line text.now line }
{
    let text = <&[u8; LINE]>::try_from(text).map_err(|_| Refusal::LineUnended { line })?;
    if text[LINE - 1] != b'\n' {
        return Err(Refusal::LineUnended { line });
    }
    let letter = Letter::try_from(text[0]).map_err(|_| Refusal::UnknownLetter { line })?;
    let fields = read_fields(text, line, letter)?;
    Credential::new(letter, fields)
}

// What stands in the six fields, each tested against its mark, from left to right.
fn read_fields(text: &[u8; LINE], line: usize, letter: Letter) -> Result<[Option<u32>; 6], Refusal>
    ensures { answered result ≡ read_fields (marks_of letter) text.now line }
{
    let marks = letter.marks();
    let mut fields = [None; 6];
    // The marks by their count: after `iter_mut().zip(marks)`, which was tried, a proof knows nothing of the fields that were written.
    for (k, field) in fields.iter_mut().enumerate() {
        *field = Field::at(text, line, k).value(marks[k])?;
    }
    Ok(fields)
}

// Writes the line of a credential into the first 20 bytes, and answers how many were written.
pub fn write_line(out: &mut [u8], credential: Credential) -> Result<usize, Refusal>
    ensures answers { answered result ≡ write_answer (credential ∷ []) out.old }
    ensures after { out.new ≡ write_after (credential ∷ []) out.old }
{
    if out.len() < LINE {
        return Err(Refusal::BufferTooShort);
    }
    out[..LINE].copy_from_slice(&line_of(credential));
    Ok(LINE)
}

// The bytes of the line of a credential.
pub fn line_of(credential: Credential) -> [u8; LINE]
    ensures { result ≡ line_of credential }
{
    let letter = credential.letter();
    let mut line = [b' '; LINE];
    line[0] = u8::from(letter);
    write_fields(&mut line, letter, credential.fields());
    line[LINE - 1] = b'\n';
    line
}

// The six fields, each in its own three columns.
fn write_fields(line: &mut [u8; LINE], letter: Letter, fields: [Option<u32>; 6])
    ensures { line.new ≡ (take 1 line.old ++ fields_text (marks_of letter) fields) ++ drop 19 line.old }
{
    let marks = letter.marks();
    // The columns by their count: after `chunks_exact_mut`, which was tried, a proof knows nothing of the bytes that were written.
    for (k, (mark, field)) in marks.iter().zip(&fields).enumerate() {
        let at = 3 * k + 1;
        write_field(&mut line[at..at + 3], *mark, *field);
    }
}

// A field in its columns: a number under a number's mark, and blanks otherwise.
fn write_field(columns: &mut [u8], mark: Mark, field: Option<u32>)
    requires { length columns.old ≡ 3 }
    ensures { columns.new ≡ field_text mark field }
{
    match (mark, field) {
        (Mark::Entity, Some(n)) => write_number(columns, n),
        (Mark::RoleName, Some(n)) => write_number(columns, n),
        _ => columns.copy_from_slice(b"   "),
    }
}
