//! Keys and signatures that openssl made, and what becomes bad by one change.

use crate::sample::Sample;
use ts_digest::Hash;
use ts_ecdsa::Curve;

/// Of each curve and hash a signature, and one that is spoiled.
pub const OPENSSL: &[Sample] = &[
    // openssl dgst -sign
    Sample {
        curve: Curve::P256,
        hash: Hash::Sha256,
        key: "04113460633234ac4a4c14e9050e0025ecb759d44d1b17dba36f96022d20546e3b47a5832217afa8\
            7eecaa2415a54589c0bc1715075d2879524d6c8ea9a3c71c50",
        message: "503235362077697468205348412d323536",
        signature: "3045022100e3e872e4fd703f121710344c69878e67158ddf542670fefda0a2ae5e57703901022064\
            a0a5f81e8d2d83261cee239be487b6edaa0e49e3b14cf2b291cf247548da75",
        is_good: true,
    },
    // the message differs
    Sample {
        curve: Curve::P256,
        hash: Hash::Sha256,
        key: "04113460633234ac4a4c14e9050e0025ecb759d44d1b17dba36f96022d20546e3b47a5832217afa8\
            7eecaa2415a54589c0bc1715075d2879524d6c8ea9a3c71c50",
        message: "503235362077697468205348412d3235362e",
        signature: "3045022100e3e872e4fd703f121710344c69878e67158ddf542670fefda0a2ae5e57703901022064\
            a0a5f81e8d2d83261cee239be487b6edaa0e49e3b14cf2b291cf247548da75",
        is_good: false,
    },
    // openssl dgst -sign
    Sample {
        curve: Curve::P256,
        hash: Hash::Sha384,
        key: "04113460633234ac4a4c14e9050e0025ecb759d44d1b17dba36f96022d20546e3b47a5832217afa8\
            7eecaa2415a54589c0bc1715075d2879524d6c8ea9a3c71c50",
        message: "503235362077697468205348412d333834",
        signature: "3046022100a6acf2245e8119ee7e54075ff4ee6e9256f206f02042b7a917d638fed660f5f6022100\
            af4eed0d2822ec803cc3b97712e428d380af4d8c95a675aef351e2315d351950",
        is_good: true,
    },
    // s is s + n
    Sample {
        curve: Curve::P256,
        hash: Hash::Sha384,
        key: "04113460633234ac4a4c14e9050e0025ecb759d44d1b17dba36f96022d20546e3b47a5832217afa8\
            7eecaa2415a54589c0bc1715075d2879524d6c8ea9a3c71c50",
        message: "503235362077697468205348412d333834",
        signature: "3046022100a6acf2245e8119ee7e54075ff4ee6e9256f206f02042b7a917d638fed660f5f6022101\
            af4eed0c2822ec813cc3b97712e428d33d96483a3cbe1433e70bacf459983ea1",
        is_good: false,
    },
    // openssl dgst -sign
    Sample {
        curve: Curve::P256,
        hash: Hash::Sha512,
        key: "04113460633234ac4a4c14e9050e0025ecb759d44d1b17dba36f96022d20546e3b47a5832217afa8\
            7eecaa2415a54589c0bc1715075d2879524d6c8ea9a3c71c50",
        message: "503235362077697468205348412d353132",
        signature: "3046022100b51b0d98d9a6d5434dcf897f2791251640a008ea5c5fe9e2cb0ed28176008880022100\
            ceb300e945b70d6b45e6bd575f7ec600ad25cc279c797e08fc42b71060c3fdec",
        is_good: true,
    },
    // r is negative: its octet 00 is left out
    Sample {
        curve: Curve::P256,
        hash: Hash::Sha512,
        key: "04113460633234ac4a4c14e9050e0025ecb759d44d1b17dba36f96022d20546e3b47a5832217afa8\
            7eecaa2415a54589c0bc1715075d2879524d6c8ea9a3c71c50",
        message: "503235362077697468205348412d353132",
        signature: "30450220b51b0d98d9a6d5434dcf897f2791251640a008ea5c5fe9e2cb0ed28176008880022100ce\
            b300e945b70d6b45e6bd575f7ec600ad25cc279c797e08fc42b71060c3fdec",
        is_good: false,
    },
    // openssl dgst -sign
    Sample {
        curve: Curve::P384,
        hash: Hash::Sha256,
        key: "048343be2013a9cb4814fd2a1ff6dac0ae427aa008c694a099526c1f038cf2acf39f7b360edfa42a\
            a7f32aa34db98724fb045b5398c324d78adeeaf79301631a1334e973342b5da1a024b0d6e77960c8\
            7a92212f65c9ee8abf890970eb7573ae9e",
        message: "503338342077697468205348412d323536",
        signature: "306502307833fb4b2b9a09656c1fae838f9761a4441073e065b7aedc8dea9c4aba7b60ecc6f53d9d\
            c260ceaee757681ec7bcb99402310086c69854fb79461efba7b1bea8adcda27a4c136111e619e626\
            7538a4a64f9804f8f9dcb51d14e6999a73abdf415b275b",
        is_good: true,
    },
    // an octet follows
    Sample {
        curve: Curve::P384,
        hash: Hash::Sha256,
        key: "048343be2013a9cb4814fd2a1ff6dac0ae427aa008c694a099526c1f038cf2acf39f7b360edfa42a\
            a7f32aa34db98724fb045b5398c324d78adeeaf79301631a1334e973342b5da1a024b0d6e77960c8\
            7a92212f65c9ee8abf890970eb7573ae9e",
        message: "503338342077697468205348412d323536",
        signature: "306502307833fb4b2b9a09656c1fae838f9761a4441073e065b7aedc8dea9c4aba7b60ecc6f53d9d\
            c260ceaee757681ec7bcb99402310086c69854fb79461efba7b1bea8adcda27a4c136111e619e626\
            7538a4a64f9804f8f9dcb51d14e6999a73abdf415b275b00",
        is_good: false,
    },
    // openssl dgst -sign
    Sample {
        curve: Curve::P384,
        hash: Hash::Sha384,
        key: "048343be2013a9cb4814fd2a1ff6dac0ae427aa008c694a099526c1f038cf2acf39f7b360edfa42a\
            a7f32aa34db98724fb045b5398c324d78adeeaf79301631a1334e973342b5da1a024b0d6e77960c8\
            7a92212f65c9ee8abf890970eb7573ae9e",
        message: "503338342077697468205348412d333834",
        signature: "3065023006f5cd0a0051b93a551799e99e64e930b70e5b9fb317b6f7d22ad8eda495dfd84d59f799\
            e14cdd10ca0a6402cb885ecd0231008c49b01589d4ef60cbe61ad8f8b553dfb2e546fd7568246d87\
            a216e1cb2cba1ef772548d2233ff93d48e877890e8bdc5",
        is_good: true,
    },
    // the key is off the curve
    Sample {
        curve: Curve::P384,
        hash: Hash::Sha384,
        key: "048343be2013a9cb4814fd2a1ff6dac0ae427aa008c694a099526c1f038cf2acf39f7b360edfa42a\
            a7f32aa34db98724fb045b5398c324d78adeeaf79301631a1334e973342b5da1a024b0d6e77960c8\
            7a92212f65c9ee8abf890970eb7573ae9f",
        message: "503338342077697468205348412d333834",
        signature: "3065023006f5cd0a0051b93a551799e99e64e930b70e5b9fb317b6f7d22ad8eda495dfd84d59f799\
            e14cdd10ca0a6402cb885ecd0231008c49b01589d4ef60cbe61ad8f8b553dfb2e546fd7568246d87\
            a216e1cb2cba1ef772548d2233ff93d48e877890e8bdc5",
        is_good: false,
    },
    // openssl dgst -sign
    Sample {
        curve: Curve::P384,
        hash: Hash::Sha512,
        key: "048343be2013a9cb4814fd2a1ff6dac0ae427aa008c694a099526c1f038cf2acf39f7b360edfa42a\
            a7f32aa34db98724fb045b5398c324d78adeeaf79301631a1334e973342b5da1a024b0d6e77960c8\
            7a92212f65c9ee8abf890970eb7573ae9e",
        message: "503338342077697468205348412d353132",
        signature: "30640230119a4b0f75e833e674cb5f36c24461b71eaec12fce24ed0be8a559299486aa351f3f93f6\
            801c7d792a13b5a26f7c0bbc02304a67119ad72441399e79feec59dd78baa02e92333808dc07c695\
            00f2a2cbe73fa05cd8c94516625299504d130a081a82",
        is_good: true,
    },
    // r and s are exchanged
    Sample {
        curve: Curve::P384,
        hash: Hash::Sha512,
        key: "048343be2013a9cb4814fd2a1ff6dac0ae427aa008c694a099526c1f038cf2acf39f7b360edfa42a\
            a7f32aa34db98724fb045b5398c324d78adeeaf79301631a1334e973342b5da1a024b0d6e77960c8\
            7a92212f65c9ee8abf890970eb7573ae9e",
        message: "503338342077697468205348412d353132",
        signature: "306402304a67119ad72441399e79feec59dd78baa02e92333808dc07c69500f2a2cbe73fa05cd8c9\
            4516625299504d130a081a820230119a4b0f75e833e674cb5f36c24461b71eaec12fce24ed0be8a5\
            59299486aa351f3f93f6801c7d792a13b5a26f7c0bbc",
        is_good: false,
    },
    // s is 0
    Sample {
        curve: Curve::P256,
        hash: Hash::Sha256,
        key: "04113460633234ac4a4c14e9050e0025ecb759d44d1b17dba36f96022d20546e3b47a5832217afa8\
            7eecaa2415a54589c0bc1715075d2879524d6c8ea9a3c71c50",
        message: "503235362077697468205348412d323536",
        signature: "3026022100e3e872e4fd703f121710344c69878e67158ddf542670fefda0a2ae5e57703901020100",
        is_good: false,
    },
    // r is 0
    Sample {
        curve: Curve::P256,
        hash: Hash::Sha256,
        key: "04113460633234ac4a4c14e9050e0025ecb759d44d1b17dba36f96022d20546e3b47a5832217afa8\
            7eecaa2415a54589c0bc1715075d2879524d6c8ea9a3c71c50",
        message: "503235362077697468205348412d323536",
        signature: "3025020100022064a0a5f81e8d2d83261cee239be487b6edaa0e49e3b14cf2b291cf247548da75",
        is_good: false,
    },
    // the key is compressed
    Sample {
        curve: Curve::P256,
        hash: Hash::Sha256,
        key: "02113460633234ac4a4c14e9050e0025ecb759d44d1b17dba36f96022d20546e3b",
        message: "503235362077697468205348412d323536",
        signature: "3045022100e3e872e4fd703f121710344c69878e67158ddf542670fefda0a2ae5e57703901022064\
            a0a5f81e8d2d83261cee239be487b6edaa0e49e3b14cf2b291cf247548da75",
        is_good: false,
    },
    // the key is infinity
    Sample {
        curve: Curve::P256,
        hash: Hash::Sha256,
        key: "00",
        message: "503235362077697468205348412d323536",
        signature: "3045022100e3e872e4fd703f121710344c69878e67158ddf542670fefda0a2ae5e57703901022064\
            a0a5f81e8d2d83261cee239be487b6edaa0e49e3b14cf2b291cf247548da75",
        is_good: false,
    },
    // r has an octet 00 too many
    Sample {
        curve: Curve::P256,
        hash: Hash::Sha256,
        key: "04113460633234ac4a4c14e9050e0025ecb759d44d1b17dba36f96022d20546e3b47a5832217afa8\
            7eecaa2415a54589c0bc1715075d2879524d6c8ea9a3c71c50",
        message: "503235362077697468205348412d323536",
        signature: "304602220000e3e872e4fd703f121710344c69878e67158ddf542670fefda0a2ae5e577039010220\
            64a0a5f81e8d2d83261cee239be487b6edaa0e49e3b14cf2b291cf247548da75",
        is_good: false,
    },
    // s is n - s, which is good too
    Sample {
        curve: Curve::P256,
        hash: Hash::Sha256,
        key: "04113460633234ac4a4c14e9050e0025ecb759d44d1b17dba36f96022d20546e3b47a5832217afa8\
            7eecaa2415a54589c0bc1715075d2879524d6c8ea9a3c71c50",
        message: "503235362077697468205348412d323536",
        signature: "3046022100e3e872e4fd703f121710344c69878e67158ddf542670fefda0a2ae5e57703901022100\
            9b5f5a06e172d27dd9e311dc641b7848cf3cec63c36651924127fb9e871a4adc",
        is_good: true,
    },
];
