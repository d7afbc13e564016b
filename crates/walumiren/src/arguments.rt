// The command that the arguments name.
use anyhow::anyhow;
use credential::{Membership, Number, Role};

// What is done with a page.
#[derive(Clone, Copy)]
pub(crate) enum Task {
    Show,
    Context,
    Evaluate,
    Members,
    Explain(Membership),
}

#[derive(Clone, Copy)]
pub(crate) enum Command {
    Demonstration,
    Help,
    OnPage(Task),
}

pub(crate) fn read_command(args: &[String]) -> anyhow::Result<Command> {
    let Some(name) = args.get(1) else {
        return Ok(Command::Demonstration);
    };
    match name.as_str() {
        "help" => Ok(Command::Help),
        "page" => Ok(Command::OnPage(Task::Show)),
        "context" => Ok(Command::OnPage(Task::Context)),
        "evaluate" => match args.get(2) {
            Some(flag) if flag.as_str() == "--members" => Ok(Command::OnPage(Task::Members)),
            _ => Ok(Command::OnPage(Task::Evaluate)),
        },
        "explain" => Ok(Command::OnPage(Task::Explain(membership_in(args)?))),
        _ => Err(anyhow!("no such command; 'walumiren help' lists them")),
    }
}

// The FILE of a task on a page.
pub(crate) fn file_of<'a>(args: &'a [String], task: Task) -> anyhow::Result<&'a str> {
    let at = match task {
        Task::Members => 3,
        _ => 2,
    };
    let Some(file) = args.get(at) else {
        return Err(anyhow!("name a FILE, or - for standard input"));
    };
    Ok(file.as_str())
}

// The membership of `A.R D`.
fn membership_in(args: &[String]) -> anyhow::Result<Membership> {
    let (Some(role), Some(member)) = (args.get(3), args.get(4)) else {
        return Err(anyhow!("name a role as A.R and an entity D after the FILE"));
    };
    let Some((owner, name)) = role.as_str().split_once('.') else {
        return Err(anyhow!("a role is written A.R, as 1.3"));
    };
    let role = Role {
        owner: number(owner, "an entity")?,
        name: number(name, "a role name")?,
    };
    Ok(Membership {
        role,
        member: number(member.as_str(), "an entity")?,
    })
}

// An entity or a role name, which the message of another number calls `what`.
fn number<const MOST: u8>(text: &str, what: &str) -> anyhow::Result<Number<MOST>> {
    let Ok(number) = Number::new(text.parse::<u32>()?) else {
        return Err(anyhow!("refusal 5: {what} is a number from 1 to {MOST}"));
    };
    Ok(number)
}
