// Reading a page, asking it for its credentials, and writing a source as a page.
ghost use Rattle.std.specs.Prelude.{◌≡◌, ◌*◌, ◌≤◌, ◌++◌, take, drop, IfOk, Ok};
ghost use Rattle.credential.specs.Refusals.{answer, answered};
ghost use Rattle.page.specs.Pages.{read_page, whether, credentials_of, credential_at, write_answer, write_after};

use crate::lines::{LINE, line_of, read_line};
use crate::pages::Page;
use credential::{Credential, Refusal, Source};

// Tests the bytes as a page, line by line, each fully before the next.
fn test_page(bytes: &[u8]) -> Result<(), Refusal>
    ensures { answered result ≡ whether (read_page bytes.now) }
{
    if bytes.len() > 5120 {
        return Err(Refusal::PageTooLong);
    }
    for (i, line) in bytes.chunks(LINE).enumerate() {
        read_line(line, i + 1)?;
    }
    Ok(())
}

impl<'a> Page<'a> {
    // The page of the bytes, in place, or their first refusal.
    pub fn read(bytes: &'a [u8]) -> Result<Page<'a>, Refusal>
        ensures answers { answer (λ (p : Page). credentials_of p.bytes.now) result ≡ read_page bytes.now }
        ensures in_place { IfOk result (λ p. p.bytes.now ≡ bytes.now) }
    {
        test_page(bytes)?;
        Ok(Page { bytes })
    }
}

impl<'a> Source for Page<'a> {
    ghost list = { λ p. credentials_of p.bytes.now };

    fn count(&self) -> usize {
        self.bytes.len() / LINE
    }

    fn at(&self, place: usize) -> Option<Credential> {
        credential_at(self.bytes, place)
    }
}

// The credential of the line at a place from 1, if the bytes have a whole line there and it is lawful.
pub fn credential_at(bytes: &[u8], place: usize) -> Option<Credential>
    ensures { result ≡ credential_at bytes.now place }
{
    if !(1..=bytes.len() / LINE).contains(&place) {
        return None;
    }
    let at = LINE * (place - 1);
    read_line(&bytes[at..at + LINE], place).ok()
}

// Writes the credentials of a source as a page, and answers how many bytes were written.
pub fn write_page<S: Source>(source: &S, out: &mut [u8]) -> Result<usize, Refusal>
    ensures answers { answered result ≡ write_answer (S.Source.list source.now) out.old }
    ensures after { out.new ≡ write_after (S.Source.list source.now) out.old }
    ensures read_back { IfOk result (λ n. read_page (take n out.new) ≡ Ok (S.Source.list source.now)) }
{
    let count = source.count();
    if out.len() / LINE < count {
        return Err(Refusal::BufferTooShort);
    }
    // The lines by their count: after `chunks_exact_mut` a proof knows nothing of the bytes that were written.
    for (i, credential) in source.credentials().enumerate() {
        let at = line_start(i);
        out[at..at + LINE].copy_from_slice(&line_of(credential));
    }
    Ok(LINE * count)
}

// Where line `i`, from 0, begins.
fn line_start(i: usize) -> usize
    requires { i ≤ 256 }
    ensures { result ≡ 20 * i }
{
    LINE * i
}

// Writes a page that was read: it comes out byte for byte.
pub fn write_back(page: &Page<'_>, out: &mut [u8]) -> Result<usize, Refusal>
    ensures answers { answered result ≡ write_answer (credentials_of page.now.bytes.now) out.old }
    ensures after { out.new ≡ write_after (credentials_of page.now.bytes.now) out.old }
    ensures same { IfOk result (λ n. out.new ≡ page.now.bytes.now ++ drop n out.old) }
{
    write_page(page, out)
}
