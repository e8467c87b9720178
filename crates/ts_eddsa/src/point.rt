//! Points of edwards25519 (RFC 8032 5.1.4).

ghost use Rattle.std.specs.Prelude.{◌≡◌, true, false};
ghost use Rattle.ts_curve.specs.Four.{number4};
ghost use Rattle.ts_eddsa.specs.Points.{affine, base, neutral, completion, double, multiple};
ghost use Rattle.ts_eddsa.specs.inside.Addend.{addend_of, sum_by};
ghost use Rattle.ts_eddsa.specs.Tests.{are_equal};

use std::marker::Model;
use ts_curve::{Limbs, Limbs4, Prime25519, Residue};

/// The coefficient d of the curve -x^2 + y^2 = 1 + d x^2 y^2.
pub const D: Limbs4 = Limbs4 {
    a: 0x75eb_4dca_1359_78a3,
    b: 0x0070_0a4d_4141_d8ab,
    c: 0x8cc7_4079_7779_e898,
    d: 0x5203_6cee_2b6f_fe73,
};

/// The first coordinate of the base point.
const BASE_X: Limbs4 = Limbs4 {
    a: 0xc956_2d60_8f25_d51a,
    b: 0x692c_c760_9525_a7b2,
    c: 0xc0a4_e231_fdd6_dc5c,
    d: 0x2169_36d3_cd6e_53fe,
};

/// The second coordinate of the base point.
const BASE_Y: Limbs4 = Limbs4 {
    a: 0x6666_6666_6666_6658,
    b: 0x6666_6666_6666_6666,
    c: 0x6666_6666_6666_6666,
    d: 0x6666_6666_6666_6666,
};

/// A point in extended homogeneous coordinates: (x / z, y / z), where t / z is the product of both.
#[derive(Drop)]
pub struct EdwardsPoint {
    x: Residue<Prime25519>,
    y: Residue<Prime25519>,
    z: Residue<Prime25519>,
    t: Residue<Prime25519>,
}

impl Model for EdwardsPoint {
    ghost use Rattle.ts_eddsa.specs.Points.{Point, point_of};

    ghost Value = { Point };

    ghost view = { λ q. point_of q.x q.y q.z q.t };
}

/// What of a second point is computed once: y - x, y + x, 2 d t and 2 z.
#[derive(Drop)]
pub struct Addend {
    low: Residue<Prime25519>,
    high: Residue<Prime25519>,
    scaled: Residue<Prime25519>,
    twice: Residue<Prime25519>,
}

impl Model for Addend {
    ghost use Rattle.ts_eddsa.specs.inside.Addend.{PreparedPoint, prepared_point};

    ghost Value = { PreparedPoint };

    ghost view = { λ q. prepared_point q.low q.high q.scaled q.twice };
}

impl EdwardsPoint {
    /// The neutral point.
    pub fn neutral() -> Self
        ensures { result ≡ neutral }
    {
        EdwardsPoint {
            x: Residue::zero(),
            y: Residue::one(),
            z: Residue::one(),
            t: Residue::zero(),
        }
    }

    /// The point with these coordinates.
    pub fn affine(x: &Residue<Prime25519>, y: &Residue<Prime25519>) -> Self
        ensures { result ≡ affine x.now y.now }
    {
        EdwardsPoint {
            x: x.copy(),
            y: y.copy(),
            z: Residue::one(),
            t: x.product(y),
        }
    }

    /// The base point.
    pub fn base() -> Self
        ensures { result ≡ base }
    {
        Self::affine(&Residue::from_limbs(&BASE_X), &Residue::from_limbs(&BASE_Y))
    }

    /// The same point.
    pub fn copy(&self) -> Self
        ensures { result ≡ self.now }
    {
        EdwardsPoint {
            x: self.x.copy(),
            y: self.y.copy(),
            z: self.z.copy(),
            t: self.t.copy(),
        }
    }

    /// The last products of both formulas: E F, G H, F G and E H.
    #[inline(always)]
    fn complete(
        &mut self,
        e: &Residue<Prime25519>,
        f: &Residue<Prime25519>,
        g: &Residue<Prime25519>,
        h: &Residue<Prime25519>,
    )
        ensures { self.new ≡ completion e.now f.now g.now h.now }
    {
        self.x = e.product(f);
        self.y = g.product(h);
        self.z = f.product(g);
        self.t = e.product(h);
    }

    /// Turns the point into its double.
    pub fn double(&mut self)
        ensures { self.new ≡ double self.old }
    {
        let a = self.x.square();
        let b = self.y.square();
        let zz = self.z.square();
        let h = a.sum(&b);
        let s = self.x.sum(&self.y);
        let g = a.difference(&b);
        let c = zz.sum(&zz);
        let square = s.square();
        let e = h.difference(&square);
        let f = c.sum(&g);
        self.complete(&e, &f, &g, &h);
    }

    /// What of the point is computed once where it is added.
    pub fn addend(&self) -> Addend
        ensures { result ≡ addend_of self.now }
    {
        let d = Residue::from_limbs(&D);
        let twice_d = d.sum(&d);
        Addend {
            low: self.y.difference(&self.x),
            high: self.y.sum(&self.x),
            scaled: twice_d.product(&self.t),
            twice: self.z.sum(&self.z),
        }
    }

    /// Turns the point into its sum with another.
    pub fn add(&mut self, other: &Addend)
        ensures { self.new ≡ sum_by self.old other.now }
    {
        let y_less = self.y.difference(&self.x);
        let y_more = self.y.sum(&self.x);
        let a = y_less.product(&other.low);
        let b = y_more.product(&other.high);
        let c = self.t.product(&other.scaled);
        let m = self.z.product(&other.twice);
        let e = b.difference(&a);
        let f = m.difference(&c);
        let g = m.sum(&c);
        let h = b.sum(&a);
        self.complete(&e, &f, &g, &h);
    }

    /// Turns the point into its double, and adds another where `is_odd`.
    fn step(&mut self, addend: &Addend, is_odd: bool)
        ensures even { is_odd ≡ false → self.new ≡ double self.old }
        ensures odd { is_odd ≡ true → self.new ≡ sum_by (double self.old) addend.now }
    {
        self.double();
        if is_odd {
            self.add(addend);
        }
    }

    /// The multiple.
    pub fn multiple(&self, k: &Limbs4) -> Self
        ensures { result ≡ multiple 256 (number4 k.now) self.now }
    {
        let addend = self.addend();
        let mut rest = *k;
        let mut total = Self::neutral();
        for _i in 0..Limbs4::BITS {
            let (next, bit) = Limbs4::doubled(&rest);
            rest = next;
            total.step(&addend, bit == 1);
        }
        total
    }

    /// Whether two points are equal (RFC 8032 6, point_equal).
    #[tactic(auto, unfolding(crate::specs::Tests::are_equal))]
    pub fn is_equal(&self, other: &Self) -> bool
        ensures { result ≡ are_equal self.now other.now }
    {
        let x = self.x.product(&other.z);
        let other_x = other.x.product(&self.z);
        if !x.is_equal(&other_x) {
            return false;
        }
        let y = self.y.product(&other.z);
        let other_y = other.y.product(&self.z);
        y.is_equal(&other_y)
    }
}
