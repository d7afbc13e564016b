// A case of evaluating: every entry that is not F 1, and the rounds.
use crate::pages::page_or_empty;
use crate::tables::all_false;
use anyhow::anyhow;
use credential::{Membership, Source};
use evaluator::evaluate;
use model::{Entry, Verdict};

pub(crate) fn print_evaluated(rt: &HostRuntime, name: &str, bytes: &[u8]) -> anyhow::Result<()> {
    println!(rt; "evaluate {name}")?;
    let (mut verdicts, mut numbers) = all_false(rt.alloc())?;
    let page = page_or_empty(bytes)?;
    let rounds = evaluate(&page, verdicts.as_mut_slice(), numbers.as_mut_slice())?;
    for (place, (verdict, number)) in verdicts.iter().zip(numbers.iter()).enumerate() {
        if *verdict != u8::from(Verdict::False) || *number != 1 {
            print_entry(rt, place, *verdict, *number)?;
        }
    }
    println!(rt; "rounds {rounds}")?;
    Ok(())
}

fn print_entry(rt: &HostRuntime, place: usize, verdict: u8, number: u16) -> anyhow::Result<()> {
    let (Some(membership), Ok(verdict)) = (Membership::at(place), Verdict::try_from(verdict)) else {
        return Err(anyhow!("no such entry"));
    };
    rt.println(Entry {
        membership,
        verdict,
        number,
    })?;
    Ok(())
}
