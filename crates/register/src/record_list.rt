// A register that keeps its list as records.
ghost use Rattle.std.specs.Prelude.{◌≡◌, ◌≤◌, [], length, IfOk, vec_capacity};
ghost use Rattle.register.specs.Registers.{capacity_of_records};

use crate::registers::{Register, locate, room};
use credential::{Credential, Refusal, Source};
use std::alloc::{AllocError, Global};

// Up to 192 records, in memory that is taken at the making.
#[derive(Drop)]
pub struct RecordList {
    records: Vec<Credential>,
    ghost within: { length records.items ≤ 192 },
    ghost room: { 192 ≤ vec_capacity records },
}

impl RecordList {
    // An empty register, or the want of memory.
    pub fn new(heap: Global) -> Result<RecordList, AllocError>
        ensures { IfOk result (λ v. v.records.items ≡ []) }
    {
        let records = Vec::with_capacity(heap, Self::CAPACITY)?;
        Ok(RecordList { records })
    }
}

impl Source for RecordList {
    ghost list = { λ s. s.records.items };

    fn count(&self) -> usize {
        self.records.len()
    }

    fn at(&self, place: usize) -> Option<Credential> {
        let index = place.checked_sub(1)?;
        self.records.get(index).copied()
    }
}

impl Register for RecordList {
    const CAPACITY: usize = 192;

    ghost CAPACITY = { 192 };

    ghost sized = { capacity_of_records };

    ghost within = { λ s. s.within };

    fn append(&mut self, credential: Credential) -> Result<(), Refusal> {
        room(self.count(), Self::CAPACITY)?;
        self.records.push_reserved(credential);
        Ok(())
    }

    fn withdraw(&mut self, place: usize) -> Result<(), Refusal> {
        locate(place, self.count())?;
        let _taken = self.records.remove(place - 1);
        Ok(())
    }
}
