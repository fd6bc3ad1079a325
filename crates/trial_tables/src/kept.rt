// What the test program keeps, in one table of numbers: the call under way, what is wanted of it, what was counted, the
// job and the input.

// The place of the next word or number of the input.
pub const AT: usize = 0;

// Calls of planning and of the check since the last line printed, and the rows since then.
pub const CALLS: usize = 1;

pub const CHECKS: usize = 2;

pub const ROWS: usize = 3;

// The nodes of the last planning call.
pub const NODES: usize = 4;

// The length of the caller's list.
pub const LISTED: usize = 5;

// Sheets with a plan, with more than k greedy classes, and with a refused list of the caller.
pub const WITH: usize = 6;

pub const LAYERED: usize = 7;

pub const REFUSED: usize = 8;

// The last number of the pseudo-random sequence.
pub const SEED: usize = 9;

// The setting of a planning call, and the number and the nodes wanted of it.
pub const FILTER: usize = 10;

pub const CHOICE: usize = 11;

pub const LIMIT: usize = 12;

pub const NUMBER: usize = 13;

pub const WANTED: usize = 14;

// Calls for the spares since the last line printed.
pub const SPARES: usize = 15;

// The nodes of all trees beside the brute-force solver: eight filter numbers for each choice.
pub const NODE_SUMS: usize = 24;

// The nodes of a sheet's trees under a choice, by filter number.
pub const SIZES: usize = 48;

// The plan wanted, with zeros after it, in 136 cells; and the caller's list, up to 1,100 classes.
pub const PLAN: usize = 64;

pub const LIST: usize = 200;

// The job: its sheet's counts k, n, q and t, and its fields, two numbers a link, one a frequency, five a rule and two a
// pair. A rule's kind is a number, as all of the table.
pub const K: usize = 1300;

pub const N: usize = 1301;

pub const Q: usize = 1302;

pub const T: usize = 1303;

pub const LINKS: usize = 1304;

pub const FREQUENCIES: usize = 1562;

pub const RULES: usize = 2587;

pub const PAIRS: usize = 12672;

// The input's words and numbers, up to 20,480.
pub const INPUT: usize = 29058;

// The job's widths, one a link; 1 where its sheet is of form 2 or 3, which says them, else 0; and 1 where it is of form
// 3, else 0.
pub const WIDTHS: usize = 49538;

pub const WIDE: usize = 49667;

pub const FESTIVAL: usize = 49668;

// The channels on air, part of the job: how many, and their numbers, up to 60.
pub const ON_AIR: usize = 49669;

pub const CHANNELS: usize = 49670;

// Of the jobs of the pseudo-random sequence: the kHz below all frequencies, and those of a step, less 1.
pub const BELOW: usize = 49730;

pub const STEP: usize = 49731;

// Sheets with channels on air, and with a link left empty by them.
pub const AIRED: usize = 49732;

pub const EMPTIED: usize = 49733;

// Calls of planning since the last line printed of form 2 sheets with form 3 in the header.
pub const FESTIVALS: usize = 49734;

pub const ROOM: usize = 49735;

// The cells of a small job's graph, a table of its own: the layer of each of 32 vertices, and a row of 32 for each.
pub const CELLS: usize = 1056;
