//! Tags of fields of values (RFC 5280 4.2.1.1, 4.2.1.13).

/// `keyIdentifier [0]` of an AuthorityKeyIdentifier.
pub const KEY_IDENTIFIER: u8 = 0x80;
/// `distributionPoint [0]` of a DistributionPoint.
pub const POINT_NAME: u8 = 0xA0;
/// `fullName [0]` of a DistributionPointName.
pub const FULL_NAME: u8 = 0xA0;
