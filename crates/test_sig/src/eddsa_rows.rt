//! Keys, messages and signatures: those of RFC 8032 7.1, and such as are spoiled. The reference
//! code of RFC 8032 6 answers alike. So does openssl 3.0, which was asked of all but the empty
//! message and the key that is too long, but for two: it takes the key whose y is not below p, and
//! the one whose x is 0 with the sign 1.

/// A question with its answer; octets are in hexadecimal digits.
pub struct Sample {
    pub name: &'static str,
    pub key: &'static str,
    pub message: &'static str,
    pub signature: &'static str,
    pub is_good: bool,
}

/// Signatures, and what is none.
pub const ROWS: &[Sample] = &[
    Sample {
        name: "RFC 8032 7.1, TEST 1",
        key: "d75a980182b10ab7d54bfed3c964073a0ee172f3daa62325af021a68f707511a",
        message: "",
        signature: "e5564300c360ac729086e2cc806e828a84877f1eb8e5d974d873e065224901555fb8821590a3\
            3bacc61e39701cf9b46bd25bf5f0595bbe24655141438e7a100b",
        is_good: true,
    },
    Sample {
        name: "RFC 8032 7.1, TEST 2",
        key: "3d4017c3e843895a92b70aa74d1b7ebc9c982ccf2ec4968cc0cd55f12af4660c",
        message: "72",
        signature: "92a009a9f0d4cab8720e820b5f642540a2b27b5416503f8fb3762223ebdb69da085ac1e43e15\
            996e458f3613d0f11d8c387b2eaeb4302aeeb00d291612bb0c00",
        is_good: true,
    },
    Sample {
        name: "RFC 8032 7.1, TEST 3",
        key: "fc51cd8e6218a1a38da47ed00230f0580816ed13ba3303ac5deb911548908025",
        message: "af82",
        signature: "6291d657deec24024827e69c3abe01a30ce548a284743a445e3680d7db5ac3ac18ff9b538d16\
            f290ae67f760984dc6594a7c15e9716ed28dc027beceea1ec40a",
        is_good: true,
    },
    Sample {
        name: "RFC 8032 7.1, TEST SHA(abc)",
        key: "ec172b93ad5e563bf4932c70e1245034c35467ef2efd4d64ebf819683467e2bf",
        message: "ddaf35a193617abacc417349ae20413112e6fa4e89a97ea20a9eeee64b55d39a2192992a274f\
            c1a836ba3c23a3feebbd454d4423643ce80e2a9ac94fa54ca49f",
        signature: "dc2a4459e7369633a52b1bf277839a00201009a3efbf3ecb69bea2186c26b58909351fc9ac90\
            b3ecfdfbc7c66431e0303dca179c138ac17ad9bef1177331a704",
        is_good: true,
    },
    Sample {
        name: "a bit of R differs",
        key: "fc51cd8e6218a1a38da47ed00230f0580816ed13ba3303ac5deb911548908025",
        message: "af82",
        signature: "6391d657deec24024827e69c3abe01a30ce548a284743a445e3680d7db5ac3ac18ff9b538d16\
            f290ae67f760984dc6594a7c15e9716ed28dc027beceea1ec40a",
        is_good: false,
    },
    Sample {
        name: "the sign of R differs",
        key: "fc51cd8e6218a1a38da47ed00230f0580816ed13ba3303ac5deb911548908025",
        message: "af82",
        signature: "6291d657deec24024827e69c3abe01a30ce548a284743a445e3680d7db5ac32c18ff9b538d16\
            f290ae67f760984dc6594a7c15e9716ed28dc027beceea1ec40a",
        is_good: false,
    },
    Sample {
        name: "a bit of S differs",
        key: "fc51cd8e6218a1a38da47ed00230f0580816ed13ba3303ac5deb911548908025",
        message: "af82",
        signature: "6291d657deec24024827e69c3abe01a30ce548a284743a445e3680d7db5ac3ac19ff9b538d16\
            f290ae67f760984dc6594a7c15e9716ed28dc027beceea1ec40a",
        is_good: false,
    },
    Sample {
        name: "the message differs",
        key: "fc51cd8e6218a1a38da47ed00230f0580816ed13ba3303ac5deb911548908025",
        message: "ae82",
        signature: "6291d657deec24024827e69c3abe01a30ce548a284743a445e3680d7db5ac3ac18ff9b538d16\
            f290ae67f760984dc6594a7c15e9716ed28dc027beceea1ec40a",
        is_good: false,
    },
    Sample {
        name: "a bit of the key differs",
        key: "fd51cd8e6218a1a38da47ed00230f0580816ed13ba3303ac5deb911548908025",
        message: "af82",
        signature: "6291d657deec24024827e69c3abe01a30ce548a284743a445e3680d7db5ac3ac18ff9b538d16\
            f290ae67f760984dc6594a7c15e9716ed28dc027beceea1ec40a",
        is_good: false,
    },
    Sample {
        name: "the sign of the key differs",
        key: "fc51cd8e6218a1a38da47ed00230f0580816ed13ba3303ac5deb9115489080a5",
        message: "af82",
        signature: "6291d657deec24024827e69c3abe01a30ce548a284743a445e3680d7db5ac3ac18ff9b538d16\
            f290ae67f760984dc6594a7c15e9716ed28dc027beceea1ec40a",
        is_good: false,
    },
    Sample {
        name: "S is not below L",
        key: "fc51cd8e6218a1a38da47ed00230f0580816ed13ba3303ac5deb911548908025",
        message: "af82",
        signature: "6291d657deec24024827e69c3abe01a30ce548a284743a445e3680d7db5ac3ac05d391b0a779\
            04e98404ef037747a56e4a7c15e9716ed28dc027beceea1ec41a",
        is_good: false,
    },
    Sample {
        name: "an octet is missing",
        key: "fc51cd8e6218a1a38da47ed00230f0580816ed13ba3303ac5deb911548908025",
        message: "af82",
        signature: "6291d657deec24024827e69c3abe01a30ce548a284743a445e3680d7db5ac3ac18ff9b538d16\
            f290ae67f760984dc6594a7c15e9716ed28dc027beceea1ec4",
        is_good: false,
    },
    Sample {
        name: "an octet is too many",
        key: "fc51cd8e6218a1a38da47ed00230f0580816ed13ba3303ac5deb911548908025",
        message: "af82",
        signature: "6291d657deec24024827e69c3abe01a30ce548a284743a445e3680d7db5ac3ac18ff9b538d16\
            f290ae67f760984dc6594a7c15e9716ed28dc027beceea1ec40a00",
        is_good: false,
    },
    Sample {
        name: "the key has an octet too many",
        key: "fc51cd8e6218a1a38da47ed00230f0580816ed13ba3303ac5deb91154890802500",
        message: "af82",
        signature: "6291d657deec24024827e69c3abe01a30ce548a284743a445e3680d7db5ac3ac18ff9b538d16\
            f290ae67f760984dc6594a7c15e9716ed28dc027beceea1ec40a",
        is_good: false,
    },
    Sample {
        name: "the key is the neutral point",
        key: "0100000000000000000000000000000000000000000000000000000000000000",
        message: "af82",
        signature: "7767a3242dc9b58bbc68488c1265cc6cc5f26c6f3c88a5d55e901b0734dca572d20a1feb8ca9\
            54ab000000000000000000000000000000000000000000000000",
        is_good: true,
    },
    Sample {
        name: "the key's y is not below p",
        key: "eeffffffffffffffffffffffffffffffffffffffffffffffffffffffffffff7f",
        message: "af82",
        signature: "7767a3242dc9b58bbc68488c1265cc6cc5f26c6f3c88a5d55e901b0734dca572d20a1feb8ca9\
            54ab000000000000000000000000000000000000000000000000",
        is_good: false,
    },
    Sample {
        name: "the key's x is 0, and its sign is 1",
        key: "0100000000000000000000000000000000000000000000000000000000000080",
        message: "af82",
        signature: "7767a3242dc9b58bbc68488c1265cc6cc5f26c6f3c88a5d55e901b0734dca572d20a1feb8ca9\
            54ab000000000000000000000000000000000000000000000000",
        is_good: false,
    },
    Sample {
        name: "the key's y has no x",
        key: "0200000000000000000000000000000000000000000000000000000000000000",
        message: "af82",
        signature: "7767a3242dc9b58bbc68488c1265cc6cc5f26c6f3c88a5d55e901b0734dca572d20a1feb8ca9\
            54ab000000000000000000000000000000000000000000000000",
        is_good: false,
    },
    Sample {
        name: "R is the neutral point",
        key: "aa6df914f7a0f04e7f852adf459873f17dba5b1671ea62e82cc10ed6aecc489c",
        message: "af82",
        signature: "01000000000000000000000000000000000000000000000000000000000000003a420c4968ce\
            f185eae27446b8c555e3535f126e1dc492af01b029219af39900",
        is_good: true,
    },
    Sample {
        name: "R's y is not below p",
        key: "aa6df914f7a0f04e7f852adf459873f17dba5b1671ea62e82cc10ed6aecc489c",
        message: "af82",
        signature: "eeffffffffffffffffffffffffffffffffffffffffffffffffffffffffffff7fcc606ab6fcaa\
            b3a7fb1e6c82a66072becdf619db3cbca0e94b3130d12fc37807",
        is_good: false,
    },
    Sample {
        name: "R's x is 0, and its sign is 1",
        key: "aa6df914f7a0f04e7f852adf459873f17dba5b1671ea62e82cc10ed6aecc489c",
        message: "af82",
        signature: "010000000000000000000000000000000000000000000000000000000000008020f52bcf8750\
            e33228c59587161c92b7398bdf0c7f562f1a889545b6dbe3730d",
        is_good: false,
    },
    Sample {
        name: "the equation holds only times 8",
        key: "439206eb085f0fb1807ad520ba678c0e8245a4e98e159d17d33ef1295133b763",
        message: "00",
        signature: "edc876d6831fd2105d0b4389ca2e283166469289146e2ce06faefe98b22548df45327adb8150\
            c852ff3cc8fa7843df5b08b11539e0af02d298de9d471c3d6202",
        is_good: false,
    },
    Sample {
        name: "the key has a part of order 2, and k is even",
        key: "439206eb085f0fb1807ad520ba678c0e8245a4e98e159d17d33ef1295133b763",
        message: "02",
        signature: "edc876d6831fd2105d0b4389ca2e283166469289146e2ce06faefe98b22548df09209101e091\
            8885726e00db334cbcecbbad68e62c268639f55745790f0ab50b",
        is_good: true,
    },
];
