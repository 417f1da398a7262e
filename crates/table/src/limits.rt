// The most that a lawful table has: the check refuses more, and whoever makes lists beforehand gives them so many places.
// The limits in words are those of `specs/Limits`.

pub const MOST_STATES: u32 = 256;

pub const MOST_DENOMINATOR: u32 = 65_536;

// of a state
pub const MOST_CHOICES: u32 = 16;

// a reward lies between this and its opposite
pub const MOST_REWARD: i32 = 1_000_000;

// of a choice
pub const MOST_BRANCHES: u32 = 8;
