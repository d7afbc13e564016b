// What is asked of a clause's literals.

// A table of four rows and two columns, each a condition (`is_met`): closures would only scatter it.
// That they prove a T, that nothing refutes them for an F, that they are all true, that they support a U.
#[derive(Clone, Copy)]
pub(crate) enum Want {
    Proved,
    Unrefuted,
    AllTrue,
    Possible,
}
