//! Jacobian coordinates of points of a curve whose a is -3: the double and the sum.

ghost use Rattle.std.specs.Prelude.{◌≡◌, ◌-◌, ◌<◌, true};
ghost use Rattle.ts_ring.specs.Modular.{mul};
ghost use Rattle.ts_curve.specs.Points.{sum};
ghost use Rattle.ts_curve.specs.Jacobian.{Triple, jacobian, jacobian_double, chord_sum};

use crate::modulus::Modulus;
use crate::residue::Residue;
use std::marker::Model;

/// Turns the coordinates of a point into those of its double. Twice the square of y is made once,
/// which saves two sums.
pub fn double<M: Modulus>(x: &mut Residue<M>, y: &mut Residue<M>, z: &mut Residue<M>)
    ensures coordinates { (let t : Triple = (x.new, y.new, z.new) in t)
        ≡ jacobian_double M.prime (x.old, y.old, z.old) }
    ensures below { (x.new < M.prime) × (y.new < M.prime) × (z.new < M.prime) }
{
    let delta = z.square();
    let gamma = y.square();
    let gamma2 = gamma.sum(&gamma);
    let beta2 = x.product(&gamma2);
    let left = x.difference(&delta);
    let right = x.sum(&delta);
    let m = left.product(&right);
    let mm = m.sum(&m);
    let alpha = mm.sum(&m);
    let beta4 = beta2.sum(&beta2);
    let beta8 = beta4.sum(&beta4);
    let alpha2 = alpha.square();
    let x3 = alpha2.difference(&beta8);
    let yz = y.product(z);
    let z3 = yz.sum(&yz);
    let gg4 = gamma2.square();
    let gg8 = gg4.sum(&gg4);
    let down = beta4.difference(&x3);
    let slope = alpha.product(&down);
    let y3 = slope.difference(&gg8);
    *x = x3;
    *y = y3;
    *z = z3;
}

/// A point as it is added to others: its coordinates, the square and the cube of z, and whether z
/// is known to be 1.
#[derive(Drop)]
pub struct Addend<M: Modulus> {
    x: Residue<M>,
    y: Residue<M>,
    z: Residue<M>,
    zz: Residue<M>,
    zzz: Residue<M>,
    is_one: bool,
}

impl<M: Modulus> Model for Addend<M> {
    ghost use Rattle.std.specs.Prelude.{◌≡◌, ◌<◌, true};
    ghost use Rattle.ts_ring.specs.Modular.{mul};
    ghost use Rattle.ts_curve.specs.Points.{Point};
    ghost use Rattle.ts_curve.specs.Jacobian.{jacobian};

    ghost Value = { Point };

    ghost view = { λ a. jacobian M.prime (a.x, a.y, a.z) };

    ghost invariant = { λ a. (a.x < M.prime) × (a.y < M.prime) × (a.z < M.prime)
        × (a.zz ≡ mul M.prime a.z a.z) × (a.zzz ≡ mul M.prime a.z a.zz)
        × (a.is_one ≡ true → a.z ≡ 1) };
}

impl<M: Modulus> Addend<M> {
    /// The point with these coordinates.
    pub fn new(x: &Residue<M>, y: &Residue<M>, z: &Residue<M>) -> Self
        ensures { result ≡ jacobian M.prime (x.now, y.now, z.now) }
    {
        let zz = z.square();
        Addend {
            x: x.copy(),
            y: y.copy(),
            z: z.copy(),
            zzz: z.product(&zz),
            zz,
            is_one: z.is_equal(&Residue::one()),
        }
    }
}

/// The product with a factor that may be known to be 1.
#[inline(always)]
fn product_by<M: Modulus>(x: &Residue<M>, w: &Residue<M>, is_one: bool) -> Residue<M>
    requires { is_one ≡ true → w.now ≡ 1 }
    ensures { result ≡ mul M.prime x.now w.now }
{
    if is_one { x.copy() } else { x.product(w) }
}

/// Turns the coordinates of a point into those of its sum with another, where neither is infinity
/// and their first coordinates differ.
#[inline(always)]
fn chord<M: Modulus>(
    x: &mut Residue<M>,
    y: &mut Residue<M>,
    z: &mut Residue<M>,
    w: &Residue<M>,
    is_one: bool,
    u1: &Residue<M>,
    u2: &Residue<M>,
    s1: &Residue<M>,
    s2: &Residue<M>,
)
    requires { is_one ≡ true → w.now ≡ 1 }
    ensures coordinates { (let t : Triple = (x.new, y.new, z.new) in t)
        ≡ chord_sum M.prime z.old w.now u1.now u2.now s1.now s2.now }
    ensures below { (x.new < M.prime) × (y.new < M.prime) × (z.new < M.prime) }
{
    let h = u2.difference(u1);
    let r = s2.difference(s1);
    let hh = h.square();
    let hhh = h.product(&hh);
    let v = u1.product(&hh);
    let rr = r.square();
    let vv = v.sum(&v);
    let left = rr.difference(&hhh);
    let x3 = left.difference(&vv);
    let down = v.difference(&x3);
    let slope = r.product(&down);
    let base = s1.product(&hhh);
    let y3 = slope.difference(&base);
    let zw = product_by(z, w, is_one);
    let z3 = zw.product(&h);
    *x = x3;
    *y = y3;
    *z = z3;
}

/// Turns the coordinates of a point into those of its sum with another point.
pub fn sum<M: Modulus>(
    x: &mut Residue<M>,
    y: &mut Residue<M>,
    z: &mut Residue<M>,
    other: &Addend<M>,
)
    requires { (x.old < M.prime) × (y.old < M.prime) × (z.old < M.prime) }
    ensures point { jacobian M.prime (x.new, y.new, z.new)
        ≡ sum M.prime (M.prime - 3) (jacobian M.prime (x.old, y.old, z.old)) other.now }
    ensures below { (x.new < M.prime) × (y.new < M.prime) × (z.new < M.prime) }
{
    let origin = Residue::zero();
    if z.is_equal(&origin) {
        *x = other.x.copy();
        *y = other.y.copy();
        *z = other.z.copy();
        return;
    }
    if other.z.is_equal(&origin) {
        return;
    }
    let zz = z.square();
    let u1 = product_by(x, &other.zz, other.is_one);
    let u2 = other.x.product(&zz);
    let s1 = product_by(y, &other.zzz, other.is_one);
    let zzz = z.product(&zz);
    let s2 = other.y.product(&zzz);
    if !u1.is_equal(&u2) {
        chord(x, y, z, &other.z, other.is_one, &u1, &u2, &s1, &s2);
        return;
    }
    if s1.is_equal(&s2) {
        double(x, y, z);
        return;
    }
    *x = Residue::zero();
    *y = Residue::zero();
    *z = Residue::zero();
}
