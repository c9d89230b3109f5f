//! Domain separators: bytes in what is hashed or signed, which keep the uses of one hash or key apart.

/// Domain separator: the first byte of what the owner in charge signs of an order.
pub const ORDER_TEXT: u8 = 0x01;

/// Domain separator: the first byte of what the owner of a higher layer signs of an order.
pub const COUNTERSIGNED_TEXT: u8 = 0x02;

/// Domain separator: the first byte of what a device key, or the maker's key, signs of a log entry.
pub const ENTRY_TEXT: u8 = 0x03;

/// Domain separator: the first byte of what a key of a region signs.
pub const STATEMENT_TEXT: u8 = 0x04;

/// Domain separator: the first byte of what a key of a region signs for a call.
pub const CALL_TEXT: u8 = 0x06;

/// Domain separator: the first byte of what is hashed for the secret SEED of a device's key.
pub const KEY_SECRET: u8 = 0x10;

/// Domain separator: the first byte of what is hashed for the identifier I of a device's key.
pub const KEY_IDENTIFIER: u8 = 0x11;

/// Domain separator: the first byte of what is hashed for the secret SEED of an officer's key.
pub const OFFICER_SECRET: u8 = 0x12;

/// Domain separator: the first byte of what is hashed for the identifier I of an officer's key.
pub const OFFICER_IDENTIFIER: u8 = 0x13;

/// Domain separator: the first byte of what is hashed for the secret SEED of a key of a maker's level.
pub const LEVEL_SECRET: u8 = 0x14;

/// Domain separator: the first byte of what is hashed for the identifier I of a key of a maker's level.
pub const LEVEL_IDENTIFIER: u8 = 0x15;

/// Domain separator: the first byte of what is hashed for the seed of a maker of HSS signatures.
pub const MAKER_SECRET: u8 = 0x16;

/// D_PBLC: these bytes stand in what is hashed for a one-time public key (RFC 8554, section 7.1).
pub const ONE_TIME_KEY_MARK: [u8; 2] = [0x80, 0x80];

/// D_MESG: these bytes stand in what is hashed of a message (RFC 8554, section 7.1).
pub const MESSAGE_MARK: [u8; 2] = [0x81, 0x81];

/// D_LEAF: these bytes stand in what is hashed for a leaf of a tree (RFC 8554, section 7.1).
pub const LEAF_MARK: [u8; 2] = [0x82, 0x82];

/// D_INTR: these bytes stand in what is hashed for an inner node of a tree (RFC 8554, section 7.1).
pub const INNER_MARK: [u8; 2] = [0x83, 0x83];
