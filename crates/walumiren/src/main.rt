// The program: arguments and printing.
#![tactic(auto)]

use arguments::{Command, file_of, read_command};
use std::env;
use std::process::ExitCode;

mod arguments;
mod clauses;
mod commands;
mod context_command;
mod demonstration;
mod evaluate_command;
mod explain_command;
mod messages;
mod page_command;
mod tables;

fn main(rt: HostRuntime) -> ExitCode {
    match run(&rt) {
        Ok(code) => code,
        Err(e) => {
            let _ = eprintln!(rt; "walumiren: {e}");
            ExitCode::FAILURE
        }
    }
}

// Carries out the command: what it refuses or fails in, it says itself, and answers failure.
fn run(rt: &HostRuntime) -> anyhow::Result<ExitCode> {
    let args: Vec<String> = env::args(rt)?.collect(rt.alloc())?;
    match read_command(args.as_slice())? {
        Command::Demonstration => demonstration::show(rt),
        Command::Help => {
            rt.println(HELP)?;
            Ok(ExitCode::SUCCESS)
        }
        Command::OnPage(task) => commands::run(rt, task, file_of(args.as_slice(), task)?),
    }
}

const HELP: &str = "\
walumiren: who belongs to which role, by access pages with exclusion

  walumiren                         run the built-in demonstration
  walumiren page FILE               print the credentials of a page, write it back
  walumiren context FILE            print the page with each exclusion as an inclusion
  walumiren evaluate FILE           print the least certificate of the model
  walumiren evaluate --members FILE print the members of each role
  walumiren explain FILE A.R D      say why D does or does not belong to A.R
  walumiren help                    print this text

FILE may be - for standard input. A refusal is one line on standard error,
FILE:LINE:COLUMN: refusal N: and its condition; the process then ends with status 1.";
