// The verdicts of the certificate that stands, if one does.
ghost use Rattle.std.specs.Prelude.{◌≡◌, vec_len};
ghost use Rattle.vault.specs.Verdicts.{LawfulWhile};

mod calls;

// A flag says whether one stands, since an `Option` would let go the memory that is taken at the making.
#[derive(Drop)]
pub(crate) struct Kept {
    stands: bool,
    verdicts: Vec<u8>,
    ghost wide: { vec_len verdicts ≡ 16384 },
    ghost lawful: { LawfulWhile stands verdicts.items },
}
