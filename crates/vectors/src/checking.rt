// A case of checking: a certificate, given as the entries that differ from all F 1 or from the least one.
use crate::pages::page_or_empty;
use crate::tables::all_false;
use anyhow::anyhow;
use checker::check;
use evaluator::evaluate;

pub(crate) fn print_checked(
    rt: &HostRuntime,
    name: &str,
    bytes: &[u8],
    line: &str,
) -> anyhow::Result<()> {
    let (mut verdicts, mut numbers) = all_false(rt.alloc())?;
    let page = page_or_empty(bytes)?;
    let mut words = line.split(' ').skip(3);
    if words.next() == Some("least") {
        evaluate(&page, verdicts.as_mut_slice(), numbers.as_mut_slice())?;
    }
    for word in words {
        put_entry(verdicts.as_mut_slice(), numbers.as_mut_slice(), word)?;
    }
    match check(&page, verdicts.as_slice(), numbers.as_slice()) {
        Ok(()) => println!(rt; "check {name} accepted")?,
        Err(refusal) => {
            // By number, as the stored answers have it.
            let number = refusal.number();
            let place = refusal.entry().unwrap_or(0);
            println!(rt; "check {name} refused {number} {place}")?;
        }
    }
    Ok(())
}

// An entry as `place:byte:number`.
fn put_entry(verdicts: &mut [u8], numbers: &mut [u16], word: &str) -> anyhow::Result<()> {
    let Some((place, rest)) = word.split_once(':') else {
        return Err(anyhow!("an entry without a place"));
    };
    let Some((byte, number)) = rest.split_once(':') else {
        return Err(anyhow!("an entry without a number"));
    };
    let place = place.parse::<usize>()?;
    let byte = byte.parse::<u8>()?;
    let number = number.parse::<u16>()?;
    // A place past the tables has no entry to change, but what stands behind it is read all the same.
    if let (Some(v), Some(n)) = (verdicts.get_mut(place), numbers.get_mut(place)) {
        *v = byte;
        *n = number;
    }
    Ok(())
}
