// Document 01's numbers of the kinds: of heads, of literals, and VIEW, which is both.
pub const INIT: u8 = 1;

pub const NEXT: u8 = 2;

pub const VIEW: u8 = 3;

pub const LEGAL: u8 = 4;

pub const GOAL: u8 = 5;

pub const TERMINAL: u8 = 6;

pub const TRUE: u8 = 1;

pub const NOT_TRUE: u8 = 2;

pub const NOT_VIEW: u8 = 4;

pub const DOES: u8 = 5;
