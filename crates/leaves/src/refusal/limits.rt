// The limits of document 01: a sheet or a text that is over its limit is refused, and so is a record that is too deep.
// The last limit refuses nothing: the check lists an item with a larger number, and the machine stops at it.
pub(crate) const MOST_RECORDS: usize = 65_535;

pub(crate) const MOST_BYTES: usize = 16_777_216;

// The deepest level of a record.
pub(crate) const MOST_LEVEL: u32 = 64;

// The largest number of an ordered item.
pub const MOST_ITEM_NUMBER: u32 = 999_999_999;
