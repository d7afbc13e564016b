// Decimal numbers in columns: right-justified, blanks on the left, no leading zero.
ghost use Rattle.std.specs.Prelude.{◌≡◌, ◌+◌, ◌%◌, ◌^◌, ◌<◌, ◌≤◌, length, IfSome};
ghost use Rattle.page.specs.Numerals.{next, leading, number_in, numeral, Numbered};

// The number in one to nine columns, if its form is lawful: exactly if the columns are a number's numeral.
pub fn read_number(columns: &[u8]) -> Option<u32>
    ensures value { result ≡ number_in columns.now }
    ensures numeral { Numbered columns.now result }
{
    number_in(columns)
}

fn number_in(columns: &[u8]) -> Option<u32>
    ensures { result ≡ number_in columns.now }
{
    let width = columns.len();
    if !(1..=9).contains(&width) {
        return None;
    }
    let value = read_leading(&columns[0..width - 1])?;
    match columns[width - 1] {
        byte @ b'0'..=b'9' => Some(value * 10 + (byte - b'0') as u32),
        _ => None,
    }
}

// The value of the columns left of the last: blanks, then digits from the first that is not 0.
fn read_leading(columns: &[u8]) -> Option<u32>
    requires { length columns.now ≤ 8 }
    ensures value { result ≡ leading 0 columns.now }
    ensures small { IfSome result (λ v. v < 10 ^ 8) }
{
    let mut value = 0;
    for byte in columns {
        value = next_column(value, *byte)?;
    }
    Some(value)
}

// The value after one more column.
fn next_column(value: u32, byte: u8) -> Option<u32>
    requires { value < 10 ^ 8 }
    ensures { result ≡ next value byte }
{
    match byte {
        b' ' => if value == 0 { Some(0) } else { None },
        b'0'..=b'9' => {
            let more = value * 10 + (byte - b'0') as u32;
            if more == 0 { None } else { Some(more) }
        }
        _ => None,
    }
}

// Writes a number into the columns; of one that is too wide, its last digits.
pub fn write_number(columns: &mut [u8], number: u32)
    ensures { columns.new ≡ numeral (length columns.old) number }
{
    let width = columns.len();
    if width == 0 {
        return;
    }
    let last = width - 1;
    columns[last] = last_digit(number);
    let mut rest = number / 10;
    // By index: after `iter_mut().rev()`, which was tried, a proof knows nothing of the bytes that were written.
    for i in (0..last).rev() {
        columns[i] = if rest == 0 { b' ' } else { last_digit(rest) };
        rest = rest / 10;
    }
}

// The last digit of a number, as its byte.
fn last_digit(number: u32) -> u8
    ensures { result ≡ 48 + number % 10 }
{
    b'0' + (number % 10) as u8
}
