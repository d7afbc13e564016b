// Carries out a table of cases from standard input, a line each: reading a page, evaluating one, checking a certificate of one. Pages are in hexadecimal.
#![tactic(auto)]

use anyhow::anyhow;
use checking::print_checked;
use evaluating::print_evaluated;
use hex::from_hex;
use reading::print_read;
use std::io::{BufRead, BufReader};

mod checking;
mod evaluating;
mod hex;
mod pages;
mod reading;
mod tables;

fn main(rt: HostRuntime) -> anyhow::Result<()> {
    run(&rt)
}

fn run(rt: &HostRuntime) -> anyhow::Result<()> {
    for line in BufReader::new(rt.alloc(), rt.stdin())?.lines(rt.alloc()) {
        let line = line?;
        let mut words = line.as_str().split(' ');
        let (Some(kind), Some(name)) = (words.next(), words.next()) else {
            return Err(anyhow!("a line without a kind and a name"));
        };
        let bytes = from_hex(rt.alloc(), words.next().unwrap_or("").as_bytes())?;
        match kind {
            "page" => print_read(rt, name, bytes.as_slice())?,
            "evaluate" => print_evaluated(rt, name, bytes.as_slice())?,
            _ => print_checked(rt, name, bytes.as_slice(), line.as_str())?,
        }
    }
    Ok(())
}
