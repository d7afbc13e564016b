// What the program shows without arguments: a built-in page, one that is refused, and a circle of exclusions.
use crate::evaluate_command::{print_entries, print_members};
use crate::explain_command::explain;
use crate::messages::refusal_line;
use crate::page_command::print_page;
use crate::tables::Tables;
use credential::{Membership, Refusal, Source};
use model::Verdict;
use page::Page;
use std::process::ExitCode;

const LAWFUL: &[u8] = b"\
M  1  1  4         \n\
I  1  2  1  1      \n\
L  1  3     1     2\n\
N  1  4  1  1  2  1\n\
X  1  5  1  1  2  1\n";

const REFUSED: &[u8] = b"\
M  1  1 32         \n\
M  1  1 33         \n";

const CIRCLE: &[u8] = b"\
X  1  1  2  1  3  1\n\
X  3  1  2  1  1  1\n\
M  2  1  4         \n";

pub(crate) fn show(rt: &HostRuntime) -> anyhow::Result<ExitCode> {
    rt.println("A lawful page, with a line for each of the five kinds of credentials:")?;
    let lawful = Page::read(LAWFUL)?;
    print_page(rt, "lawful.page", LAWFUL, &lawful)?;
    print_members(rt, &lawful)?;
    rt.println("")?;
    rt.println("A page whose second line names an entity past 32:")?;
    if let Err(refusal) = Page::read(REFUSED) {
        rt.println(refusal_line(rt.alloc(), "refused.page", refusal)?)?;
    }
    rt.println("")?;
    show_circle(rt)
}

// Two exclusions that rest on each other: entity 4 is neither in nor out.
fn show_circle(rt: &HostRuntime) -> anyhow::Result<ExitCode> {
    rt.println("A circle of exclusions:")?;
    let circle = Page::read(CIRCLE)?;
    print_page(rt, "circle.page", CIRCLE, &circle)?;
    print_entries(rt, &circle)?;
    print_members(rt, &circle)?;
    let Some(membership) = Membership::at(3) else {
        return Ok(ExitCode::FAILURE);
    };
    explain(rt, &circle, membership)?;
    rt.println("")?;
    show_check(rt, &circle, membership)
}

// The circle's least certificate is accepted; with entity 4 called false it is not.
fn show_check(
    rt: &HostRuntime,
    page: &Page<'_>,
    membership: Membership,
) -> anyhow::Result<ExitCode> {
    let mut tables = Tables::new(rt.alloc())?;
    tables.fill(page)?;
    rt.println("Its least certificate, and the same with place 3 as F 1:")?;
    print_check(rt, tables.check(page))?;
    tables.spoil(membership, Verdict::False, 1);
    print_check(rt, tables.check(page))?;
    Ok(ExitCode::SUCCESS)
}

fn print_check(rt: &HostRuntime, answer: Result<(), Refusal>) -> anyhow::Result<()> {
    match answer {
        Ok(()) => rt.println("accepted")?,
        Err(refusal) => {
            let place = refusal.entry().unwrap_or(0);
            println!(rt; "place {place}: {refusal}")?;
        }
    }
    Ok(())
}
