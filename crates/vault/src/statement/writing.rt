// Writing a statement, each figure into its own columns.
ghost use Rattle.std.specs.Prelude.{◌≡◌, ◌≤◌, [], ◌∷◌, ◌++◌, length, drop};
ghost use Rattle.credential.specs.Refusals.{answered};
ghost use Rattle.page.specs.Numerals.{numeral};
ghost use Rattle.vault.specs.Statements.{lines_to, statement_of, statement_answer, statement_after, row_text};

use crate::statement::rows::{row_of, sum_rows};
use crate::statement::{Row, Tally};
use credential::Refusal;
use page::numerals::write_number;

// The bytes of a line, and of seventeen lines.
const LINE: usize = 3 + 5 * 7 + 1;

const MOST: usize = 17 * LINE;

// Writes the statement of sixteen tallies, under the units of each role name, and answers how many bytes were written.
// The units stand beside the tallies, since they are fixed and the tallies are not: to put them together would copy both.
pub fn write_statement(
    units: &[u16; 16],
    tallies: &[Tally; 16],
    out: &mut [u8],
) -> Result<usize, Refusal>
    ensures answers { answered result ≡ statement_answer (statement_of units.now tallies.now) out.old }
    ensures after { out.new ≡ statement_after (statement_of units.now tallies.now) out.old }
{
    if out.len() < MOST {
        return Err(Refusal::WrongLength);
    }
    let end = write_role_lines(units, tallies, out);
    write_total_line(&mut out[end..end + LINE], sum_rows(units, tallies));
    Ok(end + LINE)
}

// The lines of the role names with an offer given; answers where the next line begins.
fn write_role_lines(units: &[u16; 16], tallies: &[Tally; 16], out: &mut [u8]) -> usize
    requires { 663 ≤ length out.old }
    ensures value { result ≡ length (lines_to 16 units.now tallies.now) }
    ensures room { result ≤ 624 }
    ensures after { out.new ≡ lines_to 16 units.now tallies.now ++ drop result out.old }
{
    let mut end = 0;
    // The units by number, since the line needs the number too: a `zip` would only nest a pair in a pair.
    for (i, tally) in tallies.iter().enumerate() {
        if tally.given > 0 {
            let row = row_of(*tally, units[i]);
            write_role_line(&mut out[end..end + LINE], i as u32 + 1, row);
            end += LINE;
        }
    }
    end
}

// The line of a role name.
fn write_role_line(line: &mut [u8], name: u32, row: Row)
    requires { length line.old ≡ 39 }
    ensures { line.new ≡ numeral 3 name ++ row_text row }
{
    write_number(&mut line[0..3], name);
    write_row(&mut line[3..39], row);
}

// The total line, with a blank role name.
fn write_total_line(line: &mut [u8], row: Row)
    requires { length line.old ≡ 39 }
    ensures { line.new ≡ 32 ∷ 32 ∷ 32 ∷ row_text row }
{
    write_blanks(&mut line[0..3]);
    write_row(&mut line[3..39], row);
}

fn write_blanks(columns: &mut [u8])
    requires { length columns.old ≡ 3 }
    ensures { columns.new ≡ 32 ∷ 32 ∷ 32 ∷ [] }
{
    columns.copy_from_slice(b"   ");
}

// The five figures in seven columns each, and the newline.
// Column by column, since of what is written through `chunks_mut` a proof knows the length alone.
fn write_row(line: &mut [u8], row: Row)
    requires { length line.old ≡ 36 }
    ensures { line.new ≡ row_text row }
{
    write_number(&mut line[0..7], row.given);
    write_number(&mut line[7..14], row.declined);
    write_number(&mut line[14..21], row.handed_back);
    write_number(&mut line[21..28], row.open);
    write_number(&mut line[28..35], row.units);
    line[35] = b'\n';
}
