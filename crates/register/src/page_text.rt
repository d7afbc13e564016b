// A register that keeps its list as the text of a page.
ghost use Rattle.std.specs.Prelude.{◌≡◌, ◌+◌, ◌≤◌, true, [], ◌++◌, length, is_ok, IfOk, vec_len, vec_capacity};
ghost use Rattle.page.specs.Lines.{line_of};
ghost use Rattle.page.specs.Pages.{read_page, credentials_of};
ghost use Rattle.register.specs.Registers.{capacity_of_text};

use crate::registers::{Register, locate, room};
use credential::{Credential, Refusal, Source};
use page::credential_at;
use page::lines::{LINE, line_of};
use std::alloc::{AllocError, Global};

// The bytes of a page of up to 128 lines, in memory that is taken at the making.
#[derive(Drop)]
pub struct PageText {
    text: Vec<u8>,
    ghost lawful: { is_ok (read_page text.items) ≡ true },
    ghost within: { length (credentials_of text.items) ≤ 128 },
    ghost room: { 2560 ≤ vec_capacity text },
}

impl PageText {
    // An empty register, or the want of memory.
    pub fn new(heap: Global) -> Result<PageText, AllocError>
        ensures { IfOk result (λ v. credentials_of v.text.items ≡ []) }
    {
        let text = Vec::with_capacity(heap, LINE * Self::CAPACITY)?;
        Ok(PageText { text })
    }
}

impl Source for PageText {
    ghost list = { λ s. credentials_of s.text.items };

    fn count(&self) -> usize {
        self.text.len() / LINE
    }

    fn at(&self, place: usize) -> Option<Credential> {
        credential_at(self.text.as_slice(), place)
    }
}

impl Register for PageText {
    const CAPACITY: usize = 128;

    ghost CAPACITY = { 128 };

    ghost sized = { capacity_of_text };

    ghost within = { λ s. s.within };

    fn append(&mut self, credential: Credential) -> Result<(), Refusal> {
        room(self.count(), Self::CAPACITY)?;
        put_line(&mut self.text, credential);
        Ok(())
    }

    fn withdraw(&mut self, place: usize) -> Result<(), Refusal> {
        locate(place, self.count())?;
        let at = LINE * (place - 1);
        drop(self.text.drain(at..at + LINE));
        Ok(())
    }
}

// Writes the line of a credential at the end, in memory that is there.
fn put_line(text: &mut Vec<u8>, credential: Credential)
    requires { vec_len text.old + 20 ≤ vec_capacity text.old }
    ensures items { text.new.items ≡ text.old.items ++ line_of credential }
    ensures capacity { vec_capacity text.old ≤ vec_capacity text.new }
{
    let _ = text.extend_from_slice(&line_of(credential));
}
