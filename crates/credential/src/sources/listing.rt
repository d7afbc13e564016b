// A source's credentials, one after the other.
ghost use Rattle.std.specs.Prelude.{◌≡◌, ◌≤◌, length, drop};
ghost use Rattle.std.specs.Iterator.{YieldsFirst, item_count};

use crate::credentials::Credential;
use crate::sources::Source;

// What is left of a source's credentials after those that were given.
#[derive(Drop)]
pub struct Listing<'a, S: Source> {
    source: &'a S,
    given: usize,
    ghost given_few: { given ≤ 256 },
    ghost few: { length (S.Source.list source.now) ≤ 256 },
}

impl<'a, S: Source> Listing<'a, S> {
    // All credentials of a source.
    pub(crate) fn of(source: &'a S) -> Listing<'a, S>
        ensures source { result.source.now ≡ source.now }
        ensures given { result.given ≡ 0 }
    {
        // Asked for what `count` promises: at most 256.
        let _count = source.count();
        Listing { source, given: 0 }
    }
}

impl<'a, S: Source> Iterator for Listing<'a, S> {
    type Item = Credential;

    ghost next_gives = { YieldsFirst (λ s. drop s.given (S.Source.list s.source.now)) };

    ghost remaining = { item_count (λ s. drop s.given (S.Source.list s.source.now)) };

    fn next(&mut self) -> Option<Credential> {
        let credential = self.source.at(self.given + 1)?;
        self.given += 1;
        Some(credential)
    }
}
