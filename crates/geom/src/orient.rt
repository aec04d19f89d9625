// The eight transforms that carry the axes to the axes.

ghost use Rattle.std.specs.Prelude.{◌≡◌, ℤ, ◌^◌, pos, neg_ℤ, ◌≤ℤ◌, if◌then◌else◌};
ghost use Rattle.geom.specs.Turns.{turned_x, turned_y, flipped, IsReachable};

/// One of the eight axis transforms: it exchanges x and y where `swap` is set, then negates each coordinate whose
/// flag is set.
#[derive(Clone, Copy, Debug, PartialEq, Eq)]
pub struct Orient {
    pub swap: bool,
    pub neg_x: bool,
    pub neg_y: bool,
}

impl Orient {
    /// First `self`, then `next`.
    pub fn then(self, next: Orient) -> Orient
        ensures across { (x y : ℤ) → turned_x result x y ≡ turned_x next (turned_x self x y) (turned_y self x y) }
        ensures upward { (x y : ℤ) → turned_y result x y ≡ turned_y next (turned_x self x y) (turned_y self x y) }
    {
        let (neg_x, neg_y) = if next.swap {
            (self.neg_y, self.neg_x)
        } else {
            (self.neg_x, self.neg_y)
        };
        Orient {
            swap: self.swap != next.swap,
            neg_x: neg_x != next.neg_x,
            neg_y: neg_y != next.neg_y,
        }
    }

    /// Where the point (x, y) comes to. No coordinate is farther than 2^40 from the origin.
    pub fn turn(self, x: i64, y: i64) -> (i64, i64)
        requires x_near { IsReachable x }
        requires y_near { IsReachable y }
        ensures across { result.0 ≡ turned_x self x y }
        ensures upward { result.1 ≡ turned_y self x y }
        ensures x_stays_near { IsReachable result.0 }
        ensures y_stays_near { IsReachable result.1 }
    {
        if self.swap {
            (flip(self.neg_x, y), flip(self.neg_y, x))
        } else {
            (flip(self.neg_x, x), flip(self.neg_y, y))
        }
    }
}

/// The coordinate, negated where the flag is set.
fn flip(negated: bool, v: i64) -> i64
    requires { IsReachable v }
    ensures flipped { result ≡ flipped negated v }
    ensures stays_near { IsReachable result }
{
    if negated { -v } else { v }
}
