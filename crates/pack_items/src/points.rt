// A listing over the points of a pack that is opened.
ghost use Rattle.std.specs.Prelude.{◌≡◌, Ok};
ghost use Rattle.refusal.specs.Outcome.{said};
ghost use Rattle.item.specs.Lines.{point_line};
ghost use Rattle.pack.specs.Opening.{opened};
ghost use Rattle.pack.specs.Points.{point_item};
ghost use Rattle.run.specs.Series.{run_from};

use refusal::Answer;
use run::Series;
use run_in_turn::inner::{InTurn, in_turn};

// The item of point k.
fn item_at<'a>(pack: &'a [u8], points: usize, k: usize, out: &mut [u8]) -> Answer
    requires { opened pack.now ≡ Ok points }
    ensures { said result out.new ≡ point_item point_line pack.now k out.old }
{
    let line = item_write::point_line(k);
    let bytes = line.bytes;
    let n = line.len;
    let heading = &bytes[..n];
    let room = item_write::inner::room_before(heading, out.len());
    let answer = pack_label::inner::label_at(pack, points, k, &mut out[room..]);
    item_write::inner::headed_item(heading, answer, out)
}

// The points of a pack, asked for their items from one on.
#[derive(Drop)]
struct Points<'a> {
    pack: &'a [u8],
    many: usize,
    next: usize,
}

impl<'a> InTurn for Points<'a> {
    ghost asking = { λ s. point_item point_line s.pack.now };

    ghost is_next = { λ s k. (s.next ≡ k) × (opened s.pack.now ≡ Ok s.many) };

    fn ask_next(&mut self, out: &mut [u8]) -> Answer {
        let bytes = item_at(self.pack, self.many, self.next, out)?;
        self.next += 1;
        Ok(bytes)
    }
}

// So many items from point `first` on.
pub fn list_points<'a>(
    pack: &'a [u8],
    points: usize,
    first: usize,
    count: usize,
    out: &mut [u8],
) -> Series
    requires { opened pack.now ≡ Ok points }
    ensures { said result out.new
        ≡ run_from (point_item point_line pack.now) first count out.old }
{
    let mut turns = Points {
        pack,
        many: points,
        next: first,
    };
    in_turn(&mut turns, count, out)
}
