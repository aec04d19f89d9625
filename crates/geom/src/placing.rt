// Boxes turned and moved.

ghost use Rattle.std.specs.Prelude.{◌≡◌, ◌↔◌, ℤ, ◌^◌, pos, neg_ℤ, ◌+ℤ◌, ◌≤ℤ◌, IsSome, IfSome};
ghost use Rattle.std.specs.Int.{int_min, int_max};
ghost use Rattle.geom.specs.Squares.{IsBox, Inside};
ghost use Rattle.geom.specs.Turns.{moved, ImageOf, IsReachable, IsMove};

use crate::layer_box::Box2;
use crate::orient::Orient;

/// The box that covers exactly the squares of `b` turned by `o` and then moved by (`dx`, `dy`), both within ±2^41;
/// `None` exactly where one of its edges is farther than 2^40 from the origin.
pub fn place(b: Box2, o: Orient, dx: i64, dy: i64) -> Option<Box2>
    requires dx_near { IsMove dx }
    requires dy_near { IsMove dy }
    ensures placed { IsSome result ↔ IsBox (moved b o dx dy) }
    ensures edges { IfSome result (λ made. made ≡ moved b o dx dy) }
    ensures squares { IfSome result (λ made. (u v : ℤ) → Inside made u v ↔ ImageOf b o dx dy u v) }
{
    let (first_x, first_y) = o.turn(b.x1, b.y1);
    let (last_x, last_y) = o.turn(b.x2, b.y2);
    Box2::new(
        b.layer,
        lower(first_x, last_x, dx),
        lower(first_y, last_y, dy),
        upper(first_x, last_x, dx),
        upper(first_y, last_y, dy),
    )
}

/// The lower of two coordinates, moved.
fn lower(one: i64, other: i64, by: i64) -> i64
    requires one_near { IsReachable one }
    requires other_near { IsReachable other }
    requires by_near { IsMove by }
    ensures { result ≡ int_min one other +ℤ by }
{
    one.min(other) + by
}

/// The upper of two coordinates, moved.
fn upper(one: i64, other: i64, by: i64) -> i64
    requires one_near { IsReachable one }
    requires other_near { IsReachable other }
    requires by_near { IsMove by }
    ensures { result ≡ int_max one other +ℤ by }
{
    one.max(other) + by
}
