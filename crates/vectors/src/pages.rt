// The page that a case is about.
use credential::Refusal;
use page::Page;

// The page of the bytes, or the empty page where reading refuses them: a case of such a page is carried out all the same.
pub(crate) fn page_or_empty(bytes: &[u8]) -> Result<Page<'_>, Refusal> {
    Page::read(bytes).or_else(|_| Page::read(&bytes[..0]))
}
