// One driver for every register: it carries out a list of calls and gives the answers and the list after them.
#![tactic(auto)]

ghost use Rattle.std.specs.Prelude.{◌≡◌, map, IfOk, MatchResult};
ghost use Rattle.credential.specs.Refusals.{answered};
ghost use Rattle.register_tests.specs.Calls.{called, undriven, driven};

use credential::{Credential, Refusal, Source};
use register::Register;
use std::alloc::{AllocError, Global};

#[cfg(test)]
mod tests;
#[cfg(test)]
pub mod trials;

// A call of a register.
#[derive(Clone, Copy)]
pub enum Call {
    Publish(Credential),
    Withdraw(usize),
}

// Carries out one call. A call is plain data, so that a list of calls can be written down and compared.
pub fn carry_out<R: Register>(register: &mut R, call: Call) -> Result<(), Refusal>
    ensures answer { answered result ≡ (called R.Register.CAPACITY (R.Source.list register.old) call).answer }
    ensures list { R.Source.list register.new ≡ (called R.Register.CAPACITY (R.Source.list register.old) call).list }
{
    match call {
        Call::Publish(credential) => register.publish(credential),
        Call::Withdraw(place) => register.withdraw(place),
    }
}

// Carries out the calls in order, and gives the answer of each.
pub fn drive<R: Register>(
    heap: Global,
    register: &mut R,
    calls: &[Call],
) -> Result<Vec<Result<(), Refusal>>, AllocError>
    ensures answers { IfOk result (λ v. map answered v.items ≡ (driven R.Register.CAPACITY (undriven (R.Source.list register.old)) calls.now).answers) }
    ensures list { MatchResult result
        (λ _. R.Source.list register.new ≡ (driven R.Register.CAPACITY (undriven (R.Source.list register.old)) calls.now).list)
        (λ _. R.Source.list register.new ≡ R.Source.list register.old) }
{
    let mut answers = Vec::with_capacity(heap, calls.len())?;
    for call in calls {
        answers.push_reserved(carry_out(register, *call));
    }
    Ok(answers)
}

// The list of a source.
pub fn list<S: Source>(heap: Global, source: &S) -> Result<Vec<Credential>, AllocError>
    ensures { IfOk result (λ v. v.items ≡ S.Source.list source.now) }
{
    source.credentials().collect(heap)
}
