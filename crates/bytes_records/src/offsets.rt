// Where each number of a record of the tree stands, in bytes from its mark, and how long the record is.

// `JT`.
pub const TREE_COUNT: usize = 2;

// `ID`.
pub const ID_KIND: usize = 2;

pub const ID_SPAN: usize = 6;

// `VA`.
pub const VA_NAME: usize = 2;

pub const VA_SPAN: usize = 6;

pub const VA_SIZE: usize = 10;

// `TV`.
pub const TV_CONSTANT: usize = 2;

pub const TV_SIZE: usize = 6;

// `AR`.
pub const AR_COUNT: usize = 2;

pub const AR_SIZE: usize = 6;

// `AS`.
pub const AS_MESSAGE: usize = 2;

// `LO`.
pub const LO_COUNT: usize = 2;

pub const LO_SIZE: usize = 6;

// `IM`.
pub const IM_KIND: usize = 2;

pub const IM_SPAN: usize = 6;

pub const IM_LITERAL: usize = 10;

pub const IM_PATH: usize = 14;

pub const IM_SIZE: usize = 18;

// `AP`.
pub const AP_VALUES: usize = 2;

pub const AP_NAMED: usize = 6;

pub const AP_TAILSTRICT: usize = 10;

// `IX`.
pub const IX_COUNT: usize = 2;

// `FN`.
pub const FN_SPAN: usize = 2;

pub const FN_COUNT: usize = 6;

pub const FN_SIZE: usize = 10;

// `IF`.
pub const IF_ELSE: usize = 2;

// `SC`.
pub const SC_SET: usize = 2;

// `OB`.
pub const OB_BINDS: usize = 2;

pub const OB_ASSERTIONS: usize = 6;

pub const OB_FIELDS: usize = 10;

pub const OB_SIZE: usize = 14;

// `BV` and `BF`.
pub const BIND_NAME: usize = 2;

pub const BIND_SPAN: usize = 6;

pub const BIND_SIZE: usize = 10;

// `PA`.
pub const PA_NAME: usize = 2;

pub const PA_DEFAULT: usize = 10;

pub const PA_SIZE: usize = 14;

// `AT`.
pub const AT_MESSAGE: usize = 2;

// `NA`, `PT` and `AT`.
pub const HELD_SIZE: usize = 6;

// `FH`.
pub const FH_KIND: usize = 2;

pub const FH_NAME: usize = 6;

pub const FH_SPAN: usize = 10;

pub const FH_PLUS: usize = 14;

pub const FH_VISIBILITY: usize = 18;

pub const FH_METHOD: usize = 22;

pub const FH_SIZE: usize = 26;
