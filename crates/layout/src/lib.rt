// Where each area of the work slice begins, and what its words are made of.
//
// While a table is built:
//
//     0                ranks of the marked text              2048 words
//     LONGEST   2048   length of the longest Lyndon word     2048
//     CLOSINGS  4096   joins that close behind a symbol      2048
//     STACK     6144   rules                                 2048
//     LINKS     8192   buckets, then links of rules          1024 + 2304
//     TABLE     11520  the table                             4608
//
// While a table is judged and loaded:
//
//     0                buckets, then links of rules          1024 + 2304 words; later ranks of what the root spells, 2048
//     LENGTHS   2048   length of a rule's string             2304
//     PLACES    4352   a place at which it stands            2304
//     ENTRIES   6656   the rules met before it               2304
//     TABLE     11520  the table                             4608
//
// While the longest Lyndon words of what is loaded are asked for:
//
//     0                ranks of the marked text              2048 words
//     LONGEST   2048   length of the longest Lyndon word     2048, over LENGTHS
//     CLOSINGS  4096   joins that close behind a symbol      2048, over LENGTHS and PLACES
//
// During a search:
//
//     0                ranks of the marked text              2048 words
//     LENGTHS   2048   length of a rule's string             2304
//     PLACES    4352   a place at which it stands            2304
//     FOUND     6656   its occurrences * PACK + its join's cut  2304
//     PATTERN   8960   ranks of the pattern                  2048
//     CUTS      11008  its listed cuts, then NO_CUT          12
//     TABLE     11520  the table                             4608
#![tactic(auto)]

pub const LONGEST: usize = 2048;

pub const CLOSINGS: usize = 4096;

pub const STACK: usize = 6144;

pub const LINKS: usize = 8192;
// The buckets end, and the links of rules begin.
pub const LINKS_OF_RULES: usize = 9216;

pub const TABLE: usize = 11520;
// The second word of rule 0, which carries the chair number.
pub const CHAIR: usize = 11521;

pub const TABLE_END: usize = 16128;

pub const LENGTHS: usize = 2048;

pub const PLACES: usize = 4352;

pub const ENTRIES: usize = 6656;

pub const FOUND: usize = 6656;

// A word of FOUND is occurrences * PACK + cut.
pub const PACK: u32 = 4096;

pub const PATTERN: usize = 8960;

pub const CUTS: usize = 11008;
// What stands behind the last cut: no string is so long.
pub const NO_CUT: u32 = 4096;

// The words of the work slice that the services use.
pub const WORK: usize = 16384;

// A word of a table is kind * KIND + number: kind 0 a symbol, 1 a left half, 2 a right half, 3 what stands beside a symbol.
pub const KIND: u32 = 1073741824;

pub const LEFT_HALF: u32 = 1073741824;

pub const RIGHT_HALF: u32 = 2147483648;

pub const BESIDE_SYMBOL: u32 = 3221225472;
