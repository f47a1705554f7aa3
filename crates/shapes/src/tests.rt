use super::{PileFour, pile_four};
use fault::Fault;
use leaf::{Bye, Peterson};
use lock::{Answer, BID_LIMIT, Lock, Refusal};
use pile::Pile;
use std::process::Abort;
use std::test::Fail;

// More steps than a lone box of these locks makes before it enters or is out.
const ENOUGH: usize = 8;

// Steps box 0 until the answer is an entry or out.
fn step_on<L: Lock>(lock: &mut L) -> Result<(), Refusal> {
    for _ in 0..ENOUGH {
        match lock.step(0)? {
            Answer::Enters | Answer::Out => return Ok(()),
            Answer::Waits | Answer::Moves => {}
        }
    }
    Ok(())
}

// Has box 0 bid, enter, leave and go out, as often as the lock takes bids, and bid once more.
fn spends_its_bids<L: Lock>(rt: &impl Abort, lock: &mut L) -> Result<(), Fail> {
    for taken in 0..BID_LIMIT {
        assert_eq!(rt; lock.bids(), taken);
        assert!(rt; lock.bid(0).is_ok());
        assert!(rt; step_on(lock).is_ok());
        assert!(rt; lock.leave(0).is_ok());
        assert!(rt; step_on(lock).is_ok());
    }
    assert_eq!(rt; lock.bid(0).err().map(|refusal| refusal.number()), Some(3));
    Ok(())
}

#[test]
fn a_leaf_takes_a_million_bids(rt: HostRuntime) -> Result<(), Fail> {
    spends_its_bids(&rt, &mut Peterson::new())
}

#[test]
fn a_pile_takes_a_million_bids(rt: HostRuntime) -> Result<(), Fail> {
    spends_its_bids(&rt, &mut Pile::new(Peterson::new(), Bye::new(), Bye::new()))
}

// Whether the last of 64 places takes a bid, and the one past it is refused.
fn has_64_places<L: Lock>(rt: &impl Abort, lock: &mut L) -> Result<(), Fail> {
    assert_eq!(rt; lock.places(), 64);
    assert!(rt; lock.bid(63).is_ok());
    assert_eq!(rt; lock.bids(), 1);
    assert_eq!(rt; lock.bid(64).err().map(|refusal| refusal.number()), Some(1));
    Ok(())
}

// A quarter of the 64 places.
fn sixteen() -> Pile<Peterson, PileFour, PileFour> {
    Pile::new(Peterson::new(), pile_four(), pile_four())
}

fn over<L: Lock, R: Lock>(left: L, right: R) -> Pile<Peterson, L, R> {
    Pile::new(Peterson::new(), left, right)
}

// The piles are made of parts of any kind, so that each is proved for itself.
fn quarters_make_64<L: Lock + Drop>(rt: &impl Abort, a: L, b: L, c: L, d: L) -> Result<(), Fail> {
    has_64_places(rt, &mut over(over(a, b), over(c, d)))
}

fn one_more_is_cut<L: Lock + Drop>(rt: &impl Abort, a: L, b: L, c: L, d: L) -> Result<(), Fail> {
    has_64_places(rt, &mut over(over(a, b), over(over(c, d), Bye::new())))
}

#[test]
fn nested_piles_have_64_places(rt: HostRuntime) -> Result<(), Fail> {
    quarters_make_64(&rt, sixteen(), sixteen(), sixteen(), sixteen())
}

#[test]
fn the_65th_place_is_cut(rt: HostRuntime) -> Result<(), Fail> {
    one_more_is_cut(&rt, sixteen(), sixteen(), sixteen(), sixteen())
}
