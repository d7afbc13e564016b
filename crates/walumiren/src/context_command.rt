// `walumiren context FILE`: the page of the context, in which each exclusion is an inclusion.
use crate::messages::refuse;
use page::{Page, write_page};
use register::Context;
use std::io::Write;
use std::process::ExitCode;

pub(crate) fn print_context(
    rt: &HostRuntime,
    file: &str,
    page: &Page<'_>,
) -> anyhow::Result<ExitCode> {
    let mut text = vec![in rt.alloc(); 0u8; 5120]?;
    match write_page(&Context::new(page), text.as_mut_slice()) {
        Ok(written) => {
            if let Some(part) = text.as_slice().get(0..written) {
                rt.stdout().write_all(part)?;
            }
            Ok(ExitCode::SUCCESS)
        }
        Err(refusal) => refuse(rt, file, refusal),
    }
}
