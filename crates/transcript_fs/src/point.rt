//! The coordinates of the output point.

ghost use Rattle.std.specs.Prelude.{◌≡◌, length, IsTrue};
ghost use Rattle.transcript_fs.specs.Source.{point_draws, state_after_point};

use crate::challenges::Challenges;
use field_ext::Ext;

/// Draws the coordinates of the output point, one challenge each, with no message between them.
pub fn draw_point<C: Challenges>(point: &mut [Ext], challenges: &mut C)
    requires { IsTrue (C.source.has (C.state challenges.old) (length point.old)) }
    ensures point { point.new ≡ point_draws C.source (C.state challenges.old) (length point.old) }
    ensures state { C.state challenges.new ≡ state_after_point C.source
        (C.state challenges.old) (length point.old) }
{
    for coordinate in point.iter_mut() {
        *coordinate = challenges.challenge();
    }
}
