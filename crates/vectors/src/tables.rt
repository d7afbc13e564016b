// The two tables of a certificate, in which every membership is F with the number 1.
use credential::Membership;
use model::Verdict;
use std::alloc::{AllocError, Global};

// The program has the same four lines: the two share no library, and one for these would be no plainer.
pub(crate) fn all_false(heap: Global) -> Result<(Vec<u8>, Vec<u16>), AllocError> {
    let verdicts = vec![in heap; u8::from(Verdict::False); Membership::COUNT]?;
    let numbers = vec![in heap; 1u16; Membership::COUNT]?;
    Ok((verdicts, numbers))
}
