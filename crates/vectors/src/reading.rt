// A case of reading: what reading answers, and whether the page is written back the same.
use credential::Source;
use page::{Page, write_back};

pub(crate) fn print_read(rt: &HostRuntime, name: &str, bytes: &[u8]) -> anyhow::Result<()> {
    let page = match Page::read(bytes) {
        Ok(page) => page,
        Err(refusal) => {
            // By number, as the stored answers have it.
            let number = refusal.number();
            let (line, column) = refusal.position().unwrap_or((0, 0));
            println!(rt; "page {name} refused {number} {line} {column}")?;
            return Ok(());
        }
    };
    let mut copy = vec![in rt.alloc(); 0u8; 5120]?;
    let count = page.count();
    let same = match write_back(&page, copy.as_mut_slice()) {
        Ok(written) => written == bytes.len() && copy.as_slice().starts_with(bytes),
        Err(_) => false,
    };
    println!(rt; "page {name} taken {count} same {same}")?;
    Ok(())
}
