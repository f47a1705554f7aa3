#![tactic(auto)]

ghost use Rattle.std.specs.Prelude.{◌≡◌};
ghost use Rattle.shapes.specs.Shapes.{four_made, eight_made, three_made};

pub mod examples;
#[cfg(test)]
mod tests;

use leaf::{Bye, Peterson};
use pile::Pile;

/// Peterson's lock over two of its kind: four boxes.
pub type PetersonPair = Pile<Peterson, Peterson, Peterson>;

/// Pile 4: eight boxes, with Peterson's lock at all seven nodes.
pub type PileFour = Pile<Peterson, PetersonPair, PetersonPair>;

/// Pile 6: three boxes, with Peterson's lock over a bye and Peterson's lock.
pub type PileSix = Pile<Peterson, Bye, Peterson>;

/// A pair of Peterson's locks under a third, with its four boxes out.
pub fn peterson_pair() -> PetersonPair
    ensures { result ≡ four_made }
{
    Pile::new(Peterson::new(), Peterson::new(), Peterson::new())
}

/// Pile 4 with its eight boxes out.
pub fn pile_four() -> PileFour
    ensures { result ≡ eight_made }
{
    Pile::new(Peterson::new(), peterson_pair(), peterson_pair())
}

/// Pile 6 with its three boxes out.
pub fn pile_six() -> PileSix
    ensures { result ≡ three_made }
{
    Pile::new(Peterson::new(), Bye::new(), Peterson::new())
}
