// An event: "sort, kind or error record index (from 0), start, end", and the count of nodes open around it.

// How many numbers it has.
pub const EVENT: usize = 5;

// Where each of them stands in it. Events are lists of numbers that C lends, so these are places and no fields.
pub const SORT: usize = 0;

pub const KIND: usize = 1;

pub const START: usize = 2;

pub const END: usize = 3;

pub const DEPTH: usize = 4;
