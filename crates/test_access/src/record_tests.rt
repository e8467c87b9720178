//! Sealed records, as Python's hmac and hashlib make them.

use sha2::{Digest, Sha256};
use std::alloc::Global;
use std::test::Fail;
use ts_guard::{Direction, GuardFault, MAX_CONTENT, Sealer, Session};

/// The octets 00 to 1f.
const KEY: [u8; 32] = [
    0, 1, 2, 3, 4, 5, 6, 7, 8, 9, 10, 11, 12, 13, 14, 15, 16, 17, 18, 19, 20, 21, 22, 23, 24, 25,
    26, 27, 28, 29, 30, 31,
];

/// Of the key 7: the challenge is c0 to cf, twice, and the nonce 10 to 2f.
const SESSION: Session = Session {
    key_id: 7,
    challenge: [
        192, 193, 194, 195, 196, 197, 198, 199, 200, 201, 202, 203, 204, 205, 206, 207, 192, 193,
        194, 195, 196, 197, 198, 199, 200, 201, 202, 203, 204, 205, 206, 207,
    ],
    nonce: [
        16, 17, 18, 19, 20, 21, 22, 23, 24, 25, 26, 27, 28, 29, 30, 31, 32, 33, 34, 35, 36, 37, 38,
        39, 40, 41, 42, 43, 44, 45, 46, 47,
    ],
};

/// The contents of ten records.
const CONTENTS: &[&[u8]] = &[
    b"0",
    b"11",
    b"222",
    b"3333",
    b"44444",
    b"555555",
    b"6666666",
    b"77777777",
    b"888888888",
    b"9999999999",
];

/// The SHA-256 of these records, and of one with 65,536 times `a`.
const TEN: &str = "24f38a42ea97ccd3b0e8a086bd0b365cf66dbb6fff06e33a1cb1efc40ca327a5";

const LONG: &str = "ad579c64cf59523e82cdb0e42af0e41e8c2be5bd4c1de060a1663da6eb9987b7";

/// Seals contents, one after another.
fn seal_all(sealer: &mut Sealer, contents: &[&[u8]], out: &mut Vec<u8>) -> Result<(), GuardFault> {
    for content in contents {
        sealer.seal(content, out)?;
    }
    Ok(())
}

/// The records of contents from the client.
fn records(alloc: Global, contents: &[&[u8]]) -> Result<Vec<u8>, GuardFault> {
    let mut sealer = Sealer::new(&KEY, &SESSION, Direction::FromClient);
    let mut octets = Vec::new(alloc);
    let sealed = seal_all(&mut sealer, contents, &mut octets);
    drop(sealer);
    match sealed {
        Ok(()) => Ok(octets),
        Err(fault) => Err(fault),
    }
}

#[test]
fn seals_as_another_tool_does(rt: HostRuntime) -> Result<(), Fail> {
    let alloc = rt.alloc();
    let wanted = hex::decode(alloc, TEN)?;
    let octets = records(alloc, CONTENTS)?;
    assert_eq!(rt; Sha256::digest(&octets).as_slice(), wanted.as_slice());
    let content = vec![in alloc; b'a'; MAX_CONTENT]?;
    let wanted = hex::decode(alloc, LONG)?;
    let octets = records(alloc, &[content.as_slice()])?;
    assert_eq!(rt; Sha256::digest(&octets).as_slice(), wanted.as_slice());
    Ok(())
}
