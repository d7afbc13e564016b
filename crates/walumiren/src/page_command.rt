// `walumiren page FILE`: prints the credentials of a page and writes it back.
use crate::messages::refuse;
use credential::Source;
use page::{Page, write_back};
use std::process::ExitCode;

// The credentials by place, and whether the page that is written of them is the same.
pub(crate) fn print_page(
    rt: &HostRuntime,
    file: &str,
    bytes: &[u8],
    page: &Page<'_>,
) -> anyhow::Result<ExitCode> {
    let count = page.count();
    let plural = if count == 1 { "" } else { "s" };
    println!(rt; "{file}: {count} credential{plural}")?;
    for (place, credential) in (1usize..).zip(page.credentials()) {
        println!(rt; "{place:>4}  {credential}")?;
    }
    let mut copy = vec![in rt.alloc(); 0u8; 5120]?;
    match write_back(page, copy.as_mut_slice()) {
        Ok(written) => {
            let same = written == bytes.len() && copy.as_slice().starts_with(bytes);
            let verdict = if same { "the same" } else { "DIFFERENT" };
            println!(rt; "written back: {written} bytes, {verdict}")?;
            Ok(ExitCode::SUCCESS)
        }
        Err(refusal) => refuse(rt, file, refusal),
    }
}
