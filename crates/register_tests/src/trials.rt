// What every register must answer, whatever its kind: one list of calls, and filling it.
use crate::{Call, drive, list};
use credential::{Credential, Letter, Membership, Refusal};
use register::Register;
use std::alloc::Global;
use std::process::Abort;
use std::test::Fail;

fn member(owner: u32, name: u32, member: u32) -> Result<Credential, Refusal> {
    Credential::new(
        Letter::Member,
        [Some(owner), Some(name), Some(member), None, None, None],
    )
}

// An empty register gives these answers, and then has this list.
pub(crate) fn behaves<R: Register>(
    rt: &impl Abort,
    heap: Global,
    register: &mut R,
) -> Result<(), Fail> {
    let [a, b, c] = [member(1, 1, 4)?, member(1, 1, 5)?, member(2, 3, 6)?];
    let calls = [
        Call::Withdraw(1),
        Call::Publish(a),
        Call::Publish(b),
        Call::Publish(a),
        Call::Publish(c),
        Call::Withdraw(0),
        Call::Withdraw(4),
        Call::Withdraw(1),
        Call::Publish(a),
    ];
    let answers = drive(heap, register, &calls)?;
    let expected = [
        Err(Refusal::NoSuchPlace),
        Ok(()),
        Ok(()),
        Err(Refusal::AlreadyStands),
        Ok(()),
        Err(Refusal::NoSuchPlace),
        Err(Refusal::NoSuchPlace),
        Ok(()),
        Ok(()),
    ];
    assert_eq!(rt; answers.as_slice(), expected.as_slice());
    let list = list(heap, register)?;
    assert!(rt; list.as_slice() == [b, c, a].as_slice());
    Ok(())
}

// An empty register takes as many as its capacity and no more; what stands is refused as standing even where it is full.
pub(crate) fn fills<R: Register>(
    rt: &impl Abort,
    heap: Global,
    register: &mut R,
) -> Result<(), Fail> {
    let most = register.most();
    for membership in (0..most).filter_map(Membership::at) {
        let credential = Credential::Member {
            head: membership.role,
            member: membership.member,
        };
        assert!(rt; register.publish(credential).is_ok());
    }
    let [standing, other] = [member(1, 1, 1)?, member(2, 1, 1)?];
    let calls = [
        Call::Publish(other),
        Call::Publish(standing),
        Call::Withdraw(most + 1),
        Call::Withdraw(most),
        Call::Publish(other),
    ];
    let answers = drive(heap, register, &calls)?;
    let expected = [
        Err(Refusal::RegisterFull),
        Err(Refusal::AlreadyStands),
        Err(Refusal::NoSuchPlace),
        Ok(()),
        Ok(()),
    ];
    assert_eq!(rt; answers.as_slice(), expected.as_slice());
    Ok(())
}
