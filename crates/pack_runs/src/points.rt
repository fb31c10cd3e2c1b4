// A run over the points of a pack that is opened.
ghost use Rattle.std.specs.Prelude.{◌≡◌};
ghost use Rattle.refusal.specs.Outcome.{said};
ghost use Rattle.pack.specs.Opening.{point_count};
ghost use Rattle.pack.specs.Points.{point_label};
ghost use Rattle.pack_points.specs.Ready.{Sized};
ghost use Rattle.run.specs.Series.{run_from};

use refusal::Answer;
use run::Series;
use run_in_turn::inner::{InTurn, in_turn};

// The points of a pack, asked for their labels from one on.
#[derive(Drop)]
struct Points<'a> {
    pack: &'a [u8],
    many: usize,
    next: usize,
}

impl<'a> InTurn for Points<'a> {
    ghost asking = { λ s. point_label s.pack.now };

    ghost is_next = { λ s k. (s.next ≡ k) × (Sized s.pack.now × (s.many ≡ point_count s.pack.now)) };

    fn ask_next(&mut self, out: &mut [u8]) -> Answer {
        let bytes = pack_label::inner::label_at(self.pack, self.many, self.next, out)?;
        self.next += 1;
        Ok(bytes)
    }
}

// So many labels from point `first` on.
pub fn run_points<'a>(
    pack: &'a [u8],
    points: usize,
    first: usize,
    count: usize,
    out: &mut [u8],
) -> Series
    requires { Sized pack.now × (points ≡ point_count pack.now) }
    ensures { said result out.new
        ≡ run_from (point_label pack.now) first count out.old }
{
    let mut turns = Points {
        pack,
        many: points,
        next: first,
    };
    in_turn(&mut turns, count, out)
}
