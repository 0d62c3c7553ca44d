//! The points at which graphs are learned.

ghost use Rattle.std.specs.Prelude.{◌≡◌, ◌<◌, ◌≤◌};
ghost use Rattle.learn_phase.specs.Points.{learning_point};

use poly_maps::Point;
use prime_field::sequence;

/// The learning point with the number `q`, counted from 0, of a graph with so many variables.
pub fn learning_point(variables: u32, q: u32) -> Point
    requires some { 1 ≤ variables }
    requires few { variables ≤ 8 }
    requires numbered { q < 8 }
    ensures { result ≡ learning_point variables q }
{
    let mut entries = [0; 8];
    for place in 0..variables {
        entries[place as usize] = sequence(8 * q + place + 1) / 16;
    }
    Point::of(&entries[..variables as usize])
}
