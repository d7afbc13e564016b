// Reads a page and does with it what is asked.
use crate::arguments::Task;
use crate::context_command::print_context;
use crate::evaluate_command::{print_entries, print_members};
use crate::explain_command::explain;
use crate::messages::refuse;
use crate::page_command::print_page;
use page::Page;
use std::fs;
use std::io::Read;
use std::process::ExitCode;

pub(crate) fn run(rt: &HostRuntime, task: Task, file: &str) -> anyhow::Result<ExitCode> {
    let bytes = match contents(rt, file) {
        Ok(bytes) => bytes,
        Err(e) => {
            eprintln!(rt; "{file}: {e}")?;
            return Ok(ExitCode::FAILURE);
        }
    };
    let page = match Page::read(bytes.as_slice()) {
        Ok(page) => page,
        Err(refusal) => return refuse(rt, file, refusal),
    };
    // Each task has what it needs with it, so a `match` says more than a table of functions.
    match task {
        Task::Show => print_page(rt, file, bytes.as_slice(), &page),
        Task::Context => print_context(rt, file, &page),
        Task::Evaluate => print_entries(rt, &page),
        Task::Members => print_members(rt, &page),
        Task::Explain(membership) => explain(rt, &page, membership),
    }
}

// The bytes of a file, or of standard input.
fn contents(rt: &HostRuntime, file: &str) -> anyhow::Result<Vec<u8>> {
    if file == "-" {
        let mut bytes = Vec::new(rt.alloc());
        rt.stdin().read_to_end(&mut bytes)?;
        return Ok(bytes);
    }
    Ok(fs::read(rt, file)?)
}
