// Pages read in place, and any source written as a page.
ghost use Rattle.std.specs.Prelude.{◌≡◌, true, is_ok};
ghost use Rattle.page.specs.Pages.{read_page};

pub mod calls;

// A lawful page in place: its bytes, which reading takes.
#[derive(Clone, Copy)]
pub struct Page<'a> {
    bytes: &'a [u8],
    ghost lawful: { is_ok (read_page bytes.now) ≡ true },
}
