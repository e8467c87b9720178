//! Laws of the definitions. Each is the contract of a function that does nothing.

ghost use Rattle.std.specs.Prelude.{◌≡◌, ◌-◌, ◌<◌, ℕ};
ghost use Rattle.ts_ring.specs.Modular.{mul, inverse};
ghost use Rattle.ts_curve.specs.Points.{Point, double, sum};
ghost use Rattle.ts_curve.specs.Jacobian.{jacobian, jacobian_double, jacobian_sum};
ghost use Rattle.ts_curve.specs.Curves.{curve_p256, curve_p384, curve_p521, IsOnCurve};
ghost use Rattle.ts_ring.specs.Modular.{IsField};

/// The base points are points of their curves.
pub fn base_points()
    ensures p256 { IsOnCurve curve_p256 curve_p256.base_x curve_p256.base_y }
    ensures p384 { IsOnCurve curve_p384 curve_p384.base_x curve_p384.base_y }
    ensures p521 { IsOnCurve curve_p521 curve_p521.base_x curve_p521.base_y }
{}

/// `inverse` is the inverse modulo the order of a base point.
pub fn inverses()
    ensures p256 { (s : ℕ) → 0 < s → s < curve_p256.order
        → mul curve_p256.order s (inverse curve_p256.order s) ≡ 1 }
    ensures p384 { (s : ℕ) → 0 < s → s < curve_p384.order
        → mul curve_p384.order s (inverse curve_p384.order s) ≡ 1 }
    ensures p521 { (s : ℕ) → 0 < s → s < curve_p521.order
        → mul curve_p521.order s (inverse curve_p521.order s) ≡ 1 }
{}

/// In Jacobian coordinates the double and the sum are those of points, where a is -3.
pub fn jacobian_coordinates()
    ensures double { (p x y z : ℕ) → IsField p → x < p → y < p → z < p
        → jacobian p (jacobian_double p (x, y, z)) ≡ double p (p - 3) (jacobian p (x, y, z)) }
    ensures sum { (p x y z u v w : ℕ) → IsField p → x < p → y < p → z < p → u < p → v < p → w < p
        → jacobian p (jacobian_sum p (x, y, z) (u, v, w))
        ≡ sum p (p - 3) (jacobian p (x, y, z)) (jacobian p (u, v, w)) }
{}
