//! Tags: the identifier octet of each universal type that a certificate or a CRL has, in the form
//! that DER gives it, primitive or constructed (X.690 8.1.2, X.680 8.4, table 1).

/// BOOLEAN, `[UNIVERSAL 1]`.
pub const BOOLEAN: u8 = 0x01;
/// INTEGER, `[UNIVERSAL 2]`.
pub const INTEGER: u8 = 0x02;
/// BIT STRING, `[UNIVERSAL 3]`.
pub const BIT_STRING: u8 = 0x03;
/// OCTET STRING, `[UNIVERSAL 4]`.
pub const OCTET_STRING: u8 = 0x04;
/// NULL, `[UNIVERSAL 5]`.
pub const NULL: u8 = 0x05;
/// OBJECT IDENTIFIER, `[UNIVERSAL 6]`.
pub const OBJECT_IDENTIFIER: u8 = 0x06;
/// ENUMERATED, `[UNIVERSAL 10]`.
pub const ENUMERATED: u8 = 0x0A;
/// UTF8String, `[UNIVERSAL 12]`.
pub const UTF8_STRING: u8 = 0x0C;
/// PrintableString, `[UNIVERSAL 19]`.
pub const PRINTABLE_STRING: u8 = 0x13;
/// IA5String, `[UNIVERSAL 22]`.
pub const IA5_STRING: u8 = 0x16;
/// UTCTime, `[UNIVERSAL 23]`.
pub const UTC_TIME: u8 = 0x17;
/// GeneralizedTime, `[UNIVERSAL 24]`.
pub const GENERALIZED_TIME: u8 = 0x18;
/// SEQUENCE and SEQUENCE OF, `[UNIVERSAL 16]`, constructed.
pub const SEQUENCE: u8 = 0x30;
/// SET and SET OF, `[UNIVERSAL 17]`, constructed.
pub const SET: u8 = 0x31;
