// The answers of the services, the order of samples, and what a table holds. What each means is said in specs/.
#![tactic(auto)]

// The order in which samples are compared: as unsigned bytes, or as signed ones, where a byte of 128 or more means itself minus 256.
#[derive(Clone, Copy, Debug, PartialEq, Eq)]
pub enum Order {
    Unsigned,
    Signed,
}

// What a table holds: the samples of a drive, or its steps. The table does not say which; whoever searches it does.
#[derive(Clone, Copy, Debug, PartialEq, Eq)]
pub enum Content {
    Samples,
    Steps,
}

// Why a request is turned down. Its number and place, and what each means, are said in specs/.
#[derive(Clone, Copy, Debug, PartialEq, Eq)]
pub enum Refusal {
    TextTooLong,
    PatternEmpty,
    PatternTooLong,
    WorkTooShort,
    TableLength,
    // The lowest index of a bad word.
    BadWord(usize),
    NotATable,
    RangePastEnd,
    // The entries needed.
    ResultTooShort(usize),
    NoStep,
    // The lowest index of a byte above 8.
    OffHeading(usize),
    NotAtRest,
    OddWindow,
}

// What a service answers with: the number that success gives, or the refusal.
pub type Answer = Result<usize, Refusal>;

// What reading a table back gives: how many samples were written, and the chair number.
#[derive(Clone, Copy, Debug, PartialEq, Eq)]
pub struct ReadBack {
    pub samples: usize,
    pub chair: u16,
}

pub type ReadAnswer = Result<ReadBack, Refusal>;

// What counting and locating answer with: the answer, and how many tests the search makes, 0 if it is refused.
#[derive(Clone, Copy, Debug, PartialEq, Eq)]
pub struct Search {
    pub answer: Answer,
    pub tests: usize,
}

// What the interface to C replies with. number: 0 on success, else the refusal's.
#[repr(C)]
#[derive(Clone, Copy)]
pub struct Reply {
    pub number: u32,
    pub chair: u32,
    pub place: u64,
    pub count: u64,
}

// What counting and locating reply with there.
#[repr(C)]
#[derive(Clone, Copy)]
pub struct SearchReply {
    pub number: u32,
    pub chair: u32,
    pub place: u64,
    pub count: u64,
    pub tests: u64,
}
