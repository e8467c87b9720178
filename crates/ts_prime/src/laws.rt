//! The primes. Each law is the contract of a function that does nothing.

ghost use Rattle.ts_prime.specs.Prime.{IsPrime};
ghost use Rattle.ts_prime.specs.Primes.{p256, n256, p384, n384, p521, n521, p25519, l25519};
ghost use Rattle.ts_ring.specs.Modular.{IsField};

/// The field of P-256.
pub fn p256_is_prime()
    ensures prime { IsPrime p256 }
    ensures field { IsField p256 }
{}

/// The order of the base point of P-256.
pub fn n256_is_prime()
    ensures prime { IsPrime n256 }
    ensures field { IsField n256 }
{}

/// The field of P-384.
pub fn p384_is_prime()
    ensures prime { IsPrime p384 }
    ensures field { IsField p384 }
{}

/// The order of the base point of P-384.
pub fn n384_is_prime()
    ensures prime { IsPrime n384 }
    ensures field { IsField n384 }
{}

/// The field of P-521.
pub fn p521_is_prime()
    ensures prime { IsPrime p521 }
    ensures field { IsField p521 }
{}

/// The order of the base point of P-521.
pub fn n521_is_prime()
    ensures prime { IsPrime n521 }
    ensures field { IsField n521 }
{}

/// The field of Curve25519.
pub fn p25519_is_prime()
    ensures prime { IsPrime p25519 }
    ensures field { IsField p25519 }
{}

/// The order of the base point of Curve25519.
pub fn l25519_is_prime()
    ensures prime { IsPrime l25519 }
    ensures field { IsField l25519 }
{}
