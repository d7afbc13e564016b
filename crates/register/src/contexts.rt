// The context of a source.
ghost use Rattle.std.specs.Prelude.{◌≡◌, map};
ghost use Rattle.register.specs.Contexts.{included};

use credential::{Credential, Source};

// A source with each exclusion read as an inclusion; all else stays, order and count too.
#[derive_where(Clone, Copy)]
pub struct Context<'a, S: Source> {
    source: &'a S,
}

impl<'a, S: Source> Context<'a, S> {
    pub fn new(source: &'a S) -> Context<'a, S>
        ensures { result.source.now ≡ source.now }
    {
        Context { source }
    }
}

impl<'a, S: Source> Source for Context<'a, S> {
    ghost list = { λ s. map included (S.Source.list s.source.now) };

    fn count(&self) -> usize {
        self.source.count()
    }

    fn at(&self, place: usize) -> Option<Credential> {
        self.source.at(place).map(include)
    }
}

// An exclusion as the inclusion of the role that it excludes from.
fn include(credential: Credential) -> Credential
    ensures { result ≡ included credential }
{
    match credential {
        Credential::Exclusion { head, from, .. } => Credential::Inclusion { head, from },
        _ => credential,
    }
}
