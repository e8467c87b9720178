//! Points of a curve whose a is -3.

ghost use Rattle.std.specs.Prelude.{◌≡◌, ◌-◌, ◌<◌, ◌↔◌, ℕ, IsTrue, true, false};
ghost use Rattle.std.specs.Prelude.{Some, None, IfSome, IfNone};
ghost use Rattle.ts_curve.specs.Points.{double, joint_multiple, sum, with_bits};

use crate::jacobian::{self, Addend};
use crate::limbs::Limbs;
use crate::modulus::Modulus;
use crate::residue::Residue;
use std::marker::Model;

/// A point: (x / z^2, y / z^3), or infinity where z is 0.
#[derive(Drop)]
pub struct CurvePoint<M: Modulus> {
    x: Residue<M>,
    y: Residue<M>,
    z: Residue<M>,
}

impl<M: Modulus> Model for CurvePoint<M> {
    ghost use Rattle.std.specs.Prelude.{◌<◌};
    ghost use Rattle.ts_curve.specs.Points.{Point};
    ghost use Rattle.ts_curve.specs.Jacobian.{jacobian};

    ghost Value = { Point };

    ghost view = { λ t. jacobian M.prime (t.x, t.y, t.z) };

    ghost invariant = { λ t. (t.x < M.prime) × (t.y < M.prime) × (t.z < M.prime) };
}

impl<M: Modulus> CurvePoint<M> {
    /// The point at infinity.
    pub fn infinity() -> Self
        ensures { result ≡ None }
    {
        CurvePoint {
            x: Residue::zero(),
            y: Residue::zero(),
            z: Residue::zero(),
        }
    }

    /// The point with these coordinates.
    pub fn new(x: &Residue<M>, y: &Residue<M>) -> Self
        ensures { result ≡ Some (x.now, y.now) }
    {
        CurvePoint {
            x: x.copy(),
            y: y.copy(),
            z: Residue::one(),
        }
    }

    /// The double.
    pub fn double(&self) -> Self
        ensures { result ≡ double M.prime (M.prime - 3) self.now }
    {
        let mut point = self.copy();
        point.double_in_place();
        point
    }

    /// The same point.
    fn copy(&self) -> Self
        ensures { result ≡ self.now }
    {
        CurvePoint {
            x: self.x.copy(),
            y: self.y.copy(),
            z: self.z.copy(),
        }
    }

    /// Turns the point into its double. In place, since a point that is returned is copied.
    fn double_in_place(&mut self)
        ensures { self.new ≡ double M.prime (M.prime - 3) self.old }
    {
        jacobian::double(&mut self.x, &mut self.y, &mut self.z);
    }

    /// The sum.
    pub fn sum(&self, other: &Self) -> Self
        ensures { result ≡ sum M.prime (M.prime - 3) self.now other.now }
    {
        let mut point = self.copy();
        point.add(&other.addend());
        point
    }

    /// The point as it is added to others.
    fn addend(&self) -> Addend<M>
        ensures { result ≡ self.now }
    {
        Addend::new(&self.x, &self.y, &self.z)
    }

    /// Turns the point into its sum with another.
    fn add(&mut self, other: &Addend<M>)
        ensures { self.new ≡ sum M.prime (M.prime - 3) self.old other.now }
    {
        jacobian::sum(&mut self.x, &mut self.y, &mut self.z, other);
    }

    /// The first coordinate; `None` for infinity.
    pub fn x(&self) -> Option<Residue<M>>
        ensures found { IfSome result (λ x. (y : ℕ) × (self.now ≡ Some (x, y))) }
        ensures none { IfNone result (self.now ≡ None) }
    {
        if self.z.is_equal(&Residue::zero()) {
            return None;
        }
        let inverse = self.z.inverse();
        Some(self.x.product(&inverse.square()))
    }

    /// Whether the point is not infinity, and its first coordinate is `x`: without a division, by a
    /// comparison with `x` times the square of z.
    pub fn has_x(&self, x: &Residue<M>) -> bool
        ensures exactly { IsTrue result ↔ ((y : ℕ) × (self.now ≡ Some (x.now, y))) }
        ensures below { (x y : ℕ) → self.now ≡ Some (x, y) → x < M.prime }
    {
        if self.z.is_equal(&Residue::zero()) {
            return false;
        }
        let first = x.copy();
        self.x.is_equal(&first.product(&self.z.square()))
    }

    /// The sum of `u` times this point and `v` times another, in one pass over the bits of both.
    pub fn joint_multiple<L: Limbs>(&self, u: &L, other: &Self, v: &L) -> Self
        ensures { result ≡ joint_multiple M.prime (M.prime - 3) L.BITS (L.number u.now)
            (L.number v.now) self.now other.now }
    {
        let g = self.addend();
        let q = other.addend();
        let both = self.sum(other).addend();
        let mut rest_u = *u;
        let mut rest_v = *v;
        let mut total = Self::infinity();
        for _i in 0..L::BITS {
            let (next_u, bit_u) = L::doubled(&rest_u);
            let (next_v, bit_v) = L::doubled(&rest_v);
            rest_u = next_u;
            rest_v = next_v;
            total.step(bit_u == 1, bit_v == 1, &g, &q, &both);
        }
        total
    }

    /// Turns the point into its double, and adds what goes with these two bits: `g`, `q`, or the
    /// sum of both.
    fn step(&mut self, of_g: bool, of_q: bool, g: &Addend<M>, q: &Addend<M>, both: &Addend<M>)
        requires { both.now ≡ sum M.prime (M.prime - 3) g.now q.now }
        ensures { self.new ≡ with_bits M.prime (M.prime - 3) of_g of_q g.now q.now
            (double M.prime (M.prime - 3) self.old) }
    {
        self.double_in_place();
        match (of_g, of_q) {
            (false, false) => {}
            (false, true) => self.add(q),
            (true, false) => self.add(g),
            (true, true) => self.add(both),
        }
    }
}
