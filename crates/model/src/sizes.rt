// How many rows a lawful table has at most: a list that is made beforehand has so many places.
use table::{MOST_BRANCHES, MOST_CHOICES, MOST_STATES};

pub const STATE_PLACES: usize = MOST_STATES as usize;

// for the choices of all states
pub const CHOICE_PLACES: usize = MOST_CHOICES as usize * STATE_PLACES;

// for the branches of all choices
pub const BRANCH_PLACES: usize = MOST_BRANCHES as usize * CHOICE_PLACES;
