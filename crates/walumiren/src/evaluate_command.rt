// `walumiren evaluate [--members] FILE`: the least certificate of a page, for programs or for people.
use crate::tables::Tables;
use credential::{Entity, Membership, Role, RoleName, Source};
use model::Verdict;
use page::Page;
use std::process::ExitCode;

// A line for each entry that is not F 1, then the rounds and how many have each verdict.
pub(crate) fn print_entries(rt: &HostRuntime, page: &Page<'_>) -> anyhow::Result<ExitCode> {
    let mut tables = Tables::new(rt.alloc())?;
    let rounds = tables.fill(page)?;
    for membership in (0..Membership::COUNT).filter_map(Membership::at) {
        let entry = tables.entry(membership);
        if entry.verdict != Verdict::False || entry.number != 1 {
            rt.println(entry)?;
        }
    }
    let yes = tables.count(Verdict::True);
    let no = tables.count(Verdict::False);
    let open = tables.count(Verdict::Undefined);
    println!(rt; "rounds {rounds}, true {yes}, false {no}, undefined {open}")?;
    Ok(ExitCode::SUCCESS)
}

// The members of each role that has any, and the undefined ones with a warning.
pub(crate) fn print_members(rt: &HostRuntime, page: &Page<'_>) -> anyhow::Result<ExitCode> {
    let mut tables = Tables::new(rt.alloc())?;
    tables.fill(page)?;
    for owner in Entity::all() {
        for name in RoleName::all() {
            print_role(rt, &tables, Role { owner, name })?;
        }
    }
    Ok(ExitCode::SUCCESS)
}

fn print_role(rt: &HostRuntime, tables: &Tables, role: Role) -> anyhow::Result<()> {
    let mut members = String::new(rt.alloc());
    let mut open = String::new(rt.alloc());
    for member in Entity::all() {
        match tables.verdict(Membership { role, member }) {
            Verdict::True => write!(members, " {member}")?,
            Verdict::Undefined => write!(open, " {member}")?,
            Verdict::False => {}
        }
    }
    if !members.is_empty() {
        println!(rt; "{role}:{members}")?;
    }
    if !open.is_empty() {
        println!(rt; "{role}: warning: undefined, so no members:{open}")?;
    }
    Ok(())
}
