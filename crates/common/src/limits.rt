// The limits of a module's, a state's and a tick's numbers.
ghost use Rattle.std.specs.Prelude.{◌≡◌};
ghost use Rattle.common.specs.Limits.{between, legal_period};

// How many channels arrays have room for. A file may have fewer.
pub const WIDTH: usize = 8;

// How many sample numbers there are, with 0 for none. A file may have fewer.
pub const SAMPLE_NUMBERS: usize = 32;

pub const LOUDEST: u32 = 64;

// A cell's period that is not 0.
pub const LEAST_CELL_PERIOD: u32 = 113;

pub const GREATEST_CELL_PERIOD: u32 = 856;

// A state's or a tick's period that is not 0.
pub const LEAST_PERIOD: u32 = 108;

pub const GREATEST_PERIOD: u32 = 907;

pub const LEAST_TEMPO: u32 = 32;

pub const GREATEST_TEMPO: u32 = 255;

pub const LAST_BYTE: u32 = 255;

// The largest number of two bytes.
pub const LAST_WORD: u32 = 65535;

pub const ROWS: usize = 64;

pub const LAST_ROW: u32 = 63;

pub fn is_between(least: u32, greatest: u32, n: u32) -> bool
    ensures { result ≡ between least greatest n }
{
    (least <= n) & (n <= greatest)
}

// Whether a state or a tick may hold the period: 0, or within the limits.
pub fn is_period(period: u32) -> bool
    ensures { result ≡ legal_period period }
{
    (period == 0) | is_between(LEAST_PERIOD, GREATEST_PERIOD, period)
}
