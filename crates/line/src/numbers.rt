// The numbers of a line's fields, as a refusal tells them (document 02, request 2/12).
pub const STAMP: u8 = 1;

pub(crate) const CHANNEL: u8 = 2;

pub(crate) const EVENT: u8 = 3;
// The event's own two.
pub(crate) const FIRST: u8 = 4;

pub(crate) const SECOND: u8 = 5;

pub(crate) const BOARD: u8 = 1;

pub(crate) const STATUS: u8 = 2;

pub(crate) const SECTOR: u8 = 3;

pub(crate) const ADDRESS: u8 = 4;
