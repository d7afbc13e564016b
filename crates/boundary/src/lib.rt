// What a C or Rust program links: pages read, copied and evaluated, and certificates checked against pages.
#![tactic(auto)]

ghost use Rattle.std.specs.Prelude.{◌≡◌};
ghost use Rattle.credential.specs.Refusals.{named};
ghost use Rattle.model.specs.Tables.{table};
ghost use Rattle.boundary.specs.Codes.{code_of, PageEvaluated, PageChecked, PageRead, PageCopied};

use checker::check;
use credential::{Refusal, Source};
use evaluator::evaluate;
use page::{Page, write_page};

// A refusal as a number, since C has no enum with values: above every number of rounds: 65,536 times its own, and the place of the entry that it names, or 0.
fn code(refusal: Refusal) -> u32
    ensures { result ≡ code_of (named refusal) }
{
    let place = refusal.entry().map_or(0, |place| place % 65536);
    65536 * refusal.number() as u32 + place as u32
}

// Each call matches on the page and on what is asked of it: a function with `?` under each would need a contract of its
// own, which would say the same once more.

// Fills the tables with the least certificate of the page, and answers the rounds, or the refusal's code.
#[unsafe(no_mangle)]
pub extern "C" fn walumiren_evaluate(page: &[u8], verdicts: &mut [u8], numbers: &mut [u16]) -> u32
    ensures { PageEvaluated page.now (table verdicts.old numbers.old) result (table verdicts.new numbers.new) }
{
    match Page::read(page) {
        Ok(page) => match evaluate(&page, verdicts, numbers) {
            Ok(rounds) => rounds as u32,
            Err(refusal) => code(refusal),
        },
        Err(refusal) => code(refusal),
    }
}

// Answers 0 if the tables are a certificate of the page, else the refusal's code.
#[unsafe(no_mangle)]
pub extern "C" fn walumiren_check(page: &[u8], verdicts: &[u8], numbers: &[u16]) -> u32
    ensures { PageChecked page.now (table verdicts.now numbers.now) result }
{
    match Page::read(page) {
        Ok(page) => match check(&page, verdicts, numbers) {
            Ok(()) => 0,
            Err(refusal) => code(refusal),
        },
        Err(refusal) => code(refusal),
    }
}

// Answers how many credentials the page has, or the refusal's code.
#[unsafe(no_mangle)]
pub extern "C" fn walumiren_read_page(page: &[u8]) -> u32
    ensures { PageRead page.now result }
{
    match Page::read(page) {
        Ok(page) => page.count() as u32,
        Err(refusal) => code(refusal),
    }
}

// Reads the page, writes it into the buffer, and answers how many bytes were written, or the refusal's code.
#[unsafe(no_mangle)]
pub extern "C" fn walumiren_copy_page(page: &[u8], out: &mut [u8]) -> u32
    ensures { PageCopied page.now out.old result out.new }
{
    match Page::read(page) {
        Ok(page) => match write_page(&page, out) {
            Ok(written) => written as u32,
            Err(refusal) => code(refusal),
        },
        Err(refusal) => code(refusal),
    }
}
