ghost use Rattle.std.specs.Prelude.{◌≡◌, [], ◌∷◌};
ghost use Rattle.lock.specs.declared.Answer.TheVariants.{Waits, Moves, Enters, Out as Gone};
ghost use Rattle.shapes.specs.Shapes.{eight_means, three_means};

use super::{PileFour, PileSix};
use leaf::{Bye, Peterson};
use lock::{Call, Kind, Reply, call_on};
use pile::Pile;

/// Box 0 of a new pile of Peterson's lock over two byes bids, enters, leaves and is out, with
/// nobody else there.
pub fn lone_box_of_a_pile_comes_and_goes() -> [Reply; 9]
    ensures { result ≡ Ok None ∷ (Ok (Some Moves) ∷ (Ok (Some Moves) ∷ (Ok (Some Moves) ∷ (Ok (Some Waits) ∷ (Ok (Some Enters) ∷ (Ok None ∷ (Ok (Some Moves) ∷ (Ok (Some Gone) ∷ [])))))))) }
{
    // Call by call, since the replies of a closure over the calls are not proved.
    let mut pile = Pile::new(Peterson::new(), Bye::new(), Bye::new());
    let step = Call {
        kind: Kind::Step,
        place: 0,
    };
    let bid = call_on(
        &mut pile,
        Call {
            kind: Kind::Bid,
            place: 0,
        },
    );
    let first = call_on(&mut pile, step);
    let second = call_on(&mut pile, step);
    let third = call_on(&mut pile, step);
    let fourth = call_on(&mut pile, step);
    let fifth = call_on(&mut pile, step);
    let leave = call_on(
        &mut pile,
        Call {
            kind: Kind::Leave,
            place: 0,
        },
    );
    let sixth = call_on(&mut pile, step);
    let seventh = call_on(&mut pile, step);
    [
        bid, first, second, third, fourth, fifth, leave, sixth, seventh,
    ]
}

// A function for each pile, since each contract states the pile's own number.

/// How many calls on pile 4 neither wait nor enter between two entries, at most.
pub fn pile_four_has_the_call_limit_168(_pile: &PileFour) -> u32
    ensures limit { result ≡ (eight_means _pile.now).call_limit }
    ensures value { result ≡ 168 }
{
    168
}

/// How many calls on pile 6 neither wait nor enter between two entries, at most.
pub fn pile_six_has_the_call_limit_30(_pile: &PileSix) -> u32
    ensures limit { result ≡ (three_means _pile.now).call_limit }
    ensures value { result ≡ 30 }
{
    30
}
