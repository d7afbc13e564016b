// Where credentials come from.
ghost use Rattle.std.specs.Prelude.{◌≡◌, ◌≤◌, List, length};
ghost use Rattle.credential.specs.declared.credentials.Credential.{Credential};
ghost use Rattle.credential.specs.Sources.{placed};

use crate::credentials::Credential;

mod listing;

pub use listing::Listing;

// A list of credentials, at most 256. A question changes nothing, so it gets the same answer again.
pub trait Source {
    ghost list: { Self → List Credential };

    // How many credentials it has.
    fn count(&self) -> usize
        ensures value { result ≡ length (list self.now) }
        ensures few { result ≤ 256 };

    // The credential at a place from 1, absent outside 1 to the count.
    fn at(&self, place: usize) -> Option<Credential>
        ensures { result ≡ placed (list self.now) place };

    // They, one after the other.
    final fn credentials(&self) -> Listing<'_, Self>
        ensures source { result.source.now ≡ self.now }
        ensures given { result.given ≡ 0 }
    {
        Listing::of(self)
    }
}
