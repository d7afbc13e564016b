// Every register on trial: a test for each kind, so that a failure names it.
use crate::list;
use crate::trials::{behaves, fills};
use credential::{Credential, Letter};
use register::{Context, PageText, RecordList, Register, Tally, publish_all};
use std::test::Fail;

#[test]
fn records(rt: HostRuntime) -> Result<(), Fail> {
    behaves(&rt, rt.alloc(), &mut RecordList::new(rt.alloc())?)?;
    fills(&rt, rt.alloc(), &mut RecordList::new(rt.alloc())?)
}

#[test]
fn page_text(rt: HostRuntime) -> Result<(), Fail> {
    behaves(&rt, rt.alloc(), &mut PageText::new(rt.alloc())?)?;
    fills(&rt, rt.alloc(), &mut PageText::new(rt.alloc())?)
}

// The context of a context is the context, and publishing it anew finds it standing.
#[test]
fn contexts(rt: HostRuntime) -> Result<(), Fail> {
    let mut records = RecordList::new(rt.alloc())?;
    let exclusion = [Some(1), Some(1), Some(2), Some(1), Some(3), Some(1)];
    assert!(rt;
        records
            .publish(Credential::new(Letter::Exclusion, exclusion)?)
            .is_ok()
    );
    let inclusion = [Some(1), Some(1), Some(2), Some(1), None, None];
    let expected = [Credential::new(Letter::Inclusion, inclusion)?];
    let context = Context::new(&records);
    let credentials = list(rt.alloc(), &Context::new(&context))?;
    assert!(rt; credentials.as_slice() == expected.as_slice());
    let mut text = PageText::new(rt.alloc())?;
    assert_eq!(rt;
        publish_all(&mut text, &context),
        Tally {
            taken: 1,
            standing: 0,
            full: 0,
        }
    );
    assert_eq!(rt;
        publish_all(&mut text, &context),
        Tally {
            taken: 0,
            standing: 1,
            full: 0,
        }
    );
    Ok(())
}
