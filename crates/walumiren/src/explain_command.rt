// `walumiren explain FILE A.R D`: why a membership is true, false or undefined.
use crate::clauses::Body;
use crate::clauses::bodies::clause_body;
use crate::tables::Tables;
use credential::{Credential, Entity, Membership, Source};
use model::Verdict;
use page::Page;
use std::iter;
use std::process::ExitCode;

pub(crate) fn explain(
    rt: &HostRuntime,
    page: &Page<'_>,
    membership: Membership,
) -> anyhow::Result<ExitCode> {
    let mut tables = Tables::new(rt.alloc())?;
    tables.fill(page)?;
    let verdict = tables.verdict(membership);
    let explanation = Explanation { page, tables };
    match verdict {
        Verdict::True => explanation.of_true(rt, membership)?,
        Verdict::Undefined => explanation.of_undefined(rt, membership)?,
        Verdict::False => explanation.of_false(rt, membership)?,
    }
    Ok(ExitCode::SUCCESS)
}

// The memberships to explain, each once, in the order in which they came up.
#[derive(Drop)]
struct Agenda {
    all: Vec<Membership>,
}

impl Agenda {
    fn add(&mut self, membership: Membership) -> anyhow::Result<()> {
        if !self.all.contains(&membership) {
            self.all.push(membership)?;
        }
        Ok(())
    }
}

// A page, and the least certificate of its credentials, by which memberships are explained.
#[derive(Drop)]
struct Explanation<'a> {
    page: &'a Page<'a>,
    tables: Tables,
}

impl<'a> Explanation<'a> {
    // The supporting clauses down to member lines, each membership once.
    fn of_true(&self, rt: &HostRuntime, membership: Membership) -> anyhow::Result<()> {
        let mut agenda = Agenda {
            all: Vec::new(rt.alloc()),
        };
        agenda.add(membership)?;
        // By index, since the agenda grows while it is gone through; it has each membership once.
        for next in 0..Membership::COUNT {
            let Some(m) = agenda.all.get(next).copied() else {
                return Ok(());
            };
            if let Some(body) = self.print_support(rt, m, "is true")? {
                for positive in body.positives().into_iter().flatten() {
                    agenda.add(positive)?;
                }
            }
        }
        Ok(())
    }

    // The chain of undefined supports, until one repeats: that is the circle.
    fn of_undefined(&self, rt: &HostRuntime, membership: Membership) -> anyhow::Result<()> {
        let mut chain = Agenda {
            all: Vec::new(rt.alloc()),
        };
        let mut m = membership;
        // As many turns as there are memberships at most, since the chain has each once.
        for _ in 0..Membership::COUNT {
            chain.add(m)?;
            let Some(body) = self.print_support(rt, m, "is undefined")? else {
                return Ok(());
            };
            let Some(next) = self.undefined_in(body) else {
                return Ok(());
            };
            m = next;
            if chain.all.contains(&m) {
                println!(rt; "{m}: the circle closes here")?;
                return Ok(());
            }
        }
        Ok(())
    }

    // For each ground clause, what fails in it.
    fn of_false(&self, rt: &HostRuntime, membership: Membership) -> anyhow::Result<()> {
        println!(rt; "{membership} is false: each clause fails")?;
        for (place, credential) in (1usize..).zip(self.page.credentials()) {
            if credential.head() == membership.role {
                println!(rt; "line {place}: {credential}")?;
                self.print_failures(rt, credential, membership.member)?;
            }
        }
        Ok(())
    }

    // The first undefined membership that a clause rests on.
    fn undefined_in(&self, body: Body) -> Option<Membership> {
        [body.first, body.second, body.negated]
            .into_iter()
            .flatten()
            .find(|m| self.tables.verdict(*m) == Verdict::Undefined)
    }

    // Prints a membership with the first clause that supports it, and answers that clause.
    fn print_support(
        &self,
        rt: &HostRuntime,
        membership: Membership,
        verdict: &str,
    ) -> anyhow::Result<Option<Body>> {
        for (place, credential) in (1usize..).zip(self.page.credentials()) {
            if let Some((body, through)) = self.support_in(credential, membership) {
                print!(rt; "{membership} {verdict} by line {place}: {credential}")?;
                if let Some(through) = through {
                    print!(rt; ", through {through}")?;
                }
                rt.println("")?;
                return Ok(Some(body));
            }
        }
        Ok(None)
    }

    // The first ground clause of the credential that supports the membership, with the entity that it goes through, if it goes through one.
    fn support_in(
        &self,
        credential: Credential,
        membership: Membership,
    ) -> Option<(Body, Option<Entity>)> {
        if credential.head() != membership.role {
            return None;
        }
        iter::once(None)
            .chain(Entity::all().map(Some))
            .find_map(|through| {
                clause_body(credential, membership.member, through)
                    .filter(|body| self.supports(membership, *body))
                    .map(|body| (body, through))
            })
    }

    // A clause supports a true membership if its positive ones are true and its negated one false, all earlier; an undefined one if its positive ones are true or were supported earlier and its negated one is not true.
    fn supports(&self, membership: Membership, body: Body) -> bool {
        let tables = &self.tables;
        let n = tables.number(membership);
        let earlier = |m: Membership| tables.number(m) < n;
        let is = |m: Membership, verdict: Verdict| tables.verdict(m) == verdict;
        let mut positives = body.positives().into_iter().flatten();
        match tables.verdict(membership) {
            Verdict::True => {
                positives.all(|m| is(m, Verdict::True) && earlier(m))
                    && body
                        .negated
                        .is_none_or(|m| is(m, Verdict::False) && earlier(m))
            }
            Verdict::Undefined => {
                positives.all(|m| is(m, Verdict::True) || is(m, Verdict::Undefined) && earlier(m))
                    && body.negated.is_none_or(|m| !is(m, Verdict::True))
            }
            Verdict::False => false,
        }
    }

    fn print_failures(
        &self,
        rt: &HostRuntime,
        credential: Credential,
        member: Entity,
    ) -> anyhow::Result<()> {
        if let Credential::Member { .. } = credential {
            rt.println("    names another entity")?;
            return Ok(());
        }
        for through in iter::once(None).chain(Entity::all().map(Some)) {
            if let Some(body) = clause_body(credential, member, through) {
                self.print_failure(rt, body)?;
            }
        }
        Ok(())
    }

    // The first membership of a clause that makes it fail.
    fn print_failure(&self, rt: &HostRuntime, body: Body) -> anyhow::Result<()> {
        let failing = body
            .positives()
            .into_iter()
            .flatten()
            .find(|m| self.tables.verdict(*m) == Verdict::False);
        if let Some(m) = failing {
            println!(rt; "    {m} is false")?;
        } else if let Some(m) = body.negated {
            println!(rt; "    {m} is true")?;
        }
        Ok(())
    }
}
