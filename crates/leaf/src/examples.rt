ghost use Rattle.std.specs.Prelude.{◌≡◌, [], ◌∷◌, Some};
ghost use Rattle.lock.specs.declared.Answer.TheVariants.{Waits, Moves, Enters};
ghost use Rattle.lock.specs.Calls.{step_by};
ghost use Rattle.lock.specs.Meaning.{refusal_of};
ghost use Rattle.lock.specs.Refusals.{refused_with};
ghost use Rattle.leaf.specs.PetersonLines.{peterson_meaning, peterson_made};

use super::peterson::Peterson;
use fault::Fault;
use lock::{Call, Kind, Lock, Reply, call_on};

/// Box 0 of a new Peterson lock bids and steps four times, with nobody else there.
pub fn lone_peterson_box_moves_moves_waits_enters() -> ([Reply; 5], Peterson)
    ensures replies { result.0 ≡ Ok None ∷ (Ok (Some Moves) ∷ (Ok (Some Moves) ∷ (Ok (Some Waits) ∷ (Ok (Some Enters) ∷ [])))) }
    ensures registers { (peterson_meaning result.1).registers ≡ 1 ∷ (0 ∷ (1 ∷ [])) }
{
    // Call by call, since of a lock that a closure borrowed the registers are not known.
    let mut lock = Peterson::new();
    let step = Call {
        kind: Kind::Step,
        place: 0,
    };
    let bid = call_on(
        &mut lock,
        Call {
            kind: Kind::Bid,
            place: 0,
        },
    );
    let first = call_on(&mut lock, step);
    let second = call_on(&mut lock, step);
    let third = call_on(&mut lock, step);
    let fourth = call_on(&mut lock, step);
    ([bid, first, second, third, fourth], lock)
}

/// A step of box 0 of a new Peterson lock, which is out.
pub fn step_of_an_out_box_is_refused_with_2() -> Option<u8>
    ensures number { result ≡ Some 2 }
    ensures by_the_rules { result ≡ refused_with (refusal_of (peterson_meaning peterson_made) (step_by 0)) }
{
    let mut lock = Peterson::new();
    let refusal = lock.step(0).err()?;
    Some(refusal.number())
}

/// A call at place 2 of any Peterson lock.
pub fn place_2_of_a_peterson_lock_is_refused_with_1(lock: &mut Peterson, kind: Kind) -> Option<u8>
    ensures number { result ≡ Some 1 }
    ensures by_the_rules { result ≡ refused_with (refusal_of (peterson_meaning lock.old) (record { kind = kind; place = 2 })) }
    ensures same { lock.new ≡ lock.old }
{
    let refusal = call_on(lock, Call { kind, place: 2 }).err()?;
    Some(refusal.number())
}
