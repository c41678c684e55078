// What each operator gives on words at the edges of the data types.
use words::types::DataType;

pub const DATA_TYPES: [DataType; 3] = [DataType::Bool, DataType::Int, DataType::Unsigned];

// The greatest int.
const MOST: u32 = 0x7fff_ffff;

// The word of the least int.
const LEAST: u32 = 0x8000_0000;

// Half of that word.
const HALF: u32 = 0x4000_0000;

// The last word, which is the int -1.
const LAST: u32 = 0xffff_ffff;

// Beside the tables and not in them, since all share these.
pub const EDGES: [u32; 7] = [0, 1, 2, MOST, LEAST, LEAST + 1, LAST];

// A word for each two edges: a row for each left operand, and a column for each right one.
pub type Table = [[u32; 7]; 7];

pub const OPPOSITES: [u32; 7] = [0, LAST, LAST - 1, LEAST + 1, LEAST, MOST, 1];

pub const NEGATIONS: [u32; 7] = [1, 0, 0, 0, 0, 0, 0];

pub const SUMS: Table = [
    [0, 1, 2, MOST, LEAST, LEAST + 1, LAST],
    [1, 2, 3, LEAST, LEAST + 1, LEAST + 2, 0],
    [2, 3, 4, LEAST + 1, LEAST + 2, LEAST + 3, 1],
    [MOST, LEAST, LEAST + 1, LAST - 1, LAST, 0, MOST - 1],
    [LEAST, LEAST + 1, LEAST + 2, LAST, 0, 1, MOST],
    [LEAST + 1, LEAST + 2, LEAST + 3, 0, 1, 2, LEAST],
    [LAST, 0, 1, MOST - 1, MOST, LEAST, LAST - 1],
];

pub const DIFFERENCES: Table = [
    [0, LAST, LAST - 1, LEAST + 1, LEAST, MOST, 1],
    [1, 0, LAST, LEAST + 2, LEAST + 1, LEAST, 2],
    [2, 1, 0, LEAST + 3, LEAST + 2, LEAST + 1, 3],
    [MOST, MOST - 1, MOST - 2, 0, LAST, LAST - 1, LEAST],
    [LEAST, MOST, MOST - 1, 1, 0, LAST, LEAST + 1],
    [LEAST + 1, LEAST, MOST, 2, 1, 0, LEAST + 2],
    [LAST, LAST - 1, LAST - 2, LEAST, MOST, MOST - 1, 0],
];

pub const PRODUCTS: Table = [
    [0, 0, 0, 0, 0, 0, 0],
    [0, 1, 2, MOST, LEAST, LEAST + 1, LAST],
    [0, 2, 4, LAST - 1, 0, 2, LAST - 1],
    [0, MOST, LAST - 1, 1, LEAST, LAST, LEAST + 1],
    [0, LEAST, 0, LEAST, 0, LEAST, LEAST],
    [0, LEAST + 1, 2, LAST, LEAST, 1, MOST],
    [0, LAST, LAST - 1, LEAST + 1, LEAST, MOST, 1],
];

pub const INT_QUOTIENTS: Table = [
    [0, 0, 0, 0, 0, 0, 0],
    [0, 1, 0, 0, 0, 0, LAST],
    [0, 2, 1, 0, 0, 0, LAST - 1],
    [0, MOST, HALF - 1, 1, 0, LAST, LEAST + 1],
    [0, LEAST, LEAST + HALF, LAST, 1, 1, LEAST],
    [0, LEAST + 1, LEAST + HALF + 1, LAST, 0, 1, MOST],
    [0, LAST, 0, 0, 0, 0, 1],
];

pub const INT_REMAINDERS: Table = [
    [0, 0, 0, 0, 0, 0, 0],
    [0, 0, 1, 1, 1, 1, 0],
    [0, 0, 0, 2, 2, 2, 0],
    [0, 0, 1, 0, MOST, 0, 0],
    [0, 0, 0, LAST, 0, LAST, 0],
    [0, 0, LAST, 0, LEAST + 1, 0, 0],
    [0, 0, LAST, LAST, LAST, LAST, 0],
];

pub const UNSIGNED_QUOTIENTS: Table = [
    [0, 0, 0, 0, 0, 0, 0],
    [0, 1, 0, 0, 0, 0, 0],
    [0, 2, 1, 0, 0, 0, 0],
    [0, MOST, HALF - 1, 1, 0, 0, 0],
    [0, LEAST, HALF, 1, 1, 0, 0],
    [0, LEAST + 1, HALF, 1, 1, 1, 0],
    [0, LAST, MOST, 2, 1, 1, 1],
];

pub const UNSIGNED_REMAINDERS: Table = [
    [0, 0, 0, 0, 0, 0, 0],
    [0, 0, 1, 1, 1, 1, 1],
    [0, 0, 0, 2, 2, 2, 2],
    [0, 0, 1, 0, MOST, MOST, MOST],
    [0, 0, 0, 1, 0, LEAST, LEAST],
    [0, 0, 1, 2, 1, 0, LEAST + 1],
    [0, 0, 1, 1, MOST, MOST - 1, 0],
];

pub const EQUAL: Table = [
    [1, 0, 0, 0, 0, 0, 0],
    [0, 1, 0, 0, 0, 0, 0],
    [0, 0, 1, 0, 0, 0, 0],
    [0, 0, 0, 1, 0, 0, 0],
    [0, 0, 0, 0, 1, 0, 0],
    [0, 0, 0, 0, 0, 1, 0],
    [0, 0, 0, 0, 0, 0, 1],
];

pub const NOT_EQUAL: Table = [
    [0, 1, 1, 1, 1, 1, 1],
    [1, 0, 1, 1, 1, 1, 1],
    [1, 1, 0, 1, 1, 1, 1],
    [1, 1, 1, 0, 1, 1, 1],
    [1, 1, 1, 1, 0, 1, 1],
    [1, 1, 1, 1, 1, 0, 1],
    [1, 1, 1, 1, 1, 1, 0],
];

pub const INT_LESS: Table = [
    [0, 1, 1, 1, 0, 0, 0],
    [0, 0, 1, 1, 0, 0, 0],
    [0, 0, 0, 1, 0, 0, 0],
    [0, 0, 0, 0, 0, 0, 0],
    [1, 1, 1, 1, 0, 1, 1],
    [1, 1, 1, 1, 0, 0, 1],
    [1, 1, 1, 1, 0, 0, 0],
];

pub const INT_LESS_OR_EQUAL: Table = [
    [1, 1, 1, 1, 0, 0, 0],
    [0, 1, 1, 1, 0, 0, 0],
    [0, 0, 1, 1, 0, 0, 0],
    [0, 0, 0, 1, 0, 0, 0],
    [1, 1, 1, 1, 1, 1, 1],
    [1, 1, 1, 1, 0, 1, 1],
    [1, 1, 1, 1, 0, 0, 1],
];

pub const INT_GREATER: Table = [
    [0, 0, 0, 0, 1, 1, 1],
    [1, 0, 0, 0, 1, 1, 1],
    [1, 1, 0, 0, 1, 1, 1],
    [1, 1, 1, 0, 1, 1, 1],
    [0, 0, 0, 0, 0, 0, 0],
    [0, 0, 0, 0, 1, 0, 0],
    [0, 0, 0, 0, 1, 1, 0],
];

pub const INT_GREATER_OR_EQUAL: Table = [
    [1, 0, 0, 0, 1, 1, 1],
    [1, 1, 0, 0, 1, 1, 1],
    [1, 1, 1, 0, 1, 1, 1],
    [1, 1, 1, 1, 1, 1, 1],
    [0, 0, 0, 0, 1, 0, 0],
    [0, 0, 0, 0, 1, 1, 0],
    [0, 0, 0, 0, 1, 1, 1],
];

pub const UNSIGNED_LESS: Table = [
    [0, 1, 1, 1, 1, 1, 1],
    [0, 0, 1, 1, 1, 1, 1],
    [0, 0, 0, 1, 1, 1, 1],
    [0, 0, 0, 0, 1, 1, 1],
    [0, 0, 0, 0, 0, 1, 1],
    [0, 0, 0, 0, 0, 0, 1],
    [0, 0, 0, 0, 0, 0, 0],
];

pub const UNSIGNED_LESS_OR_EQUAL: Table = [
    [1, 1, 1, 1, 1, 1, 1],
    [0, 1, 1, 1, 1, 1, 1],
    [0, 0, 1, 1, 1, 1, 1],
    [0, 0, 0, 1, 1, 1, 1],
    [0, 0, 0, 0, 1, 1, 1],
    [0, 0, 0, 0, 0, 1, 1],
    [0, 0, 0, 0, 0, 0, 1],
];

pub const UNSIGNED_GREATER: Table = [
    [0, 0, 0, 0, 0, 0, 0],
    [1, 0, 0, 0, 0, 0, 0],
    [1, 1, 0, 0, 0, 0, 0],
    [1, 1, 1, 0, 0, 0, 0],
    [1, 1, 1, 1, 0, 0, 0],
    [1, 1, 1, 1, 1, 0, 0],
    [1, 1, 1, 1, 1, 1, 0],
];

pub const UNSIGNED_GREATER_OR_EQUAL: Table = [
    [1, 0, 0, 0, 0, 0, 0],
    [1, 1, 0, 0, 0, 0, 0],
    [1, 1, 1, 0, 0, 0, 0],
    [1, 1, 1, 1, 0, 0, 0],
    [1, 1, 1, 1, 1, 0, 0],
    [1, 1, 1, 1, 1, 1, 0],
    [1, 1, 1, 1, 1, 1, 1],
];

pub const BOTH: Table = [
    [0, 0, 0, 0, 0, 0, 0],
    [0, 1, 1, 1, 1, 1, 1],
    [0, 1, 1, 1, 1, 1, 1],
    [0, 1, 1, 1, 1, 1, 1],
    [0, 1, 1, 1, 1, 1, 1],
    [0, 1, 1, 1, 1, 1, 1],
    [0, 1, 1, 1, 1, 1, 1],
];

pub const EITHER: Table = [
    [0, 1, 1, 1, 1, 1, 1],
    [1, 1, 1, 1, 1, 1, 1],
    [1, 1, 1, 1, 1, 1, 1],
    [1, 1, 1, 1, 1, 1, 1],
    [1, 1, 1, 1, 1, 1, 1],
    [1, 1, 1, 1, 1, 1, 1],
    [1, 1, 1, 1, 1, 1, 1],
];
