// Floats as cell numbers (01, Numbers): floor and ceiling in the range of an i32, saturating, NaN to 0; and a cell number as a float.
#![tactic(auto)]

ghost use Rattle.std.specs.Prelude.{◌≡◌};
ghost use Rattle.std.specs.Float.{binary64};
ghost use Rattle.std.specs.Float.Ieee.{of_int};
ghost use Rattle.cells.specs.Cells.{floor_cell, ceil_cell};

// The ends of an i32.
const LOWEST: i64 = -2147483648;

const HIGHEST: i64 = 2147483647;

// The cell that x lies in: its floor, which is the whole part, or one less where that lies above x. Outside the range of an i32 the nearest end, of NaN 0.
pub fn floor_cell(x: f64) -> i64
    ensures { result ≡ floor_cell x }
{
    if x < 2147483647.0 {
        if -2147483648.0 < x {
            let whole = std::num::truncating_f64_to_i64(x);
            whole - ((x < (whole as f64)) as i64)
        } else {
            LOWEST
        }
    } else if 0.0 < x {
        HIGHEST
    } else {
        0
    }
}

// The first cell border at or above x: its ceiling, with the same ends. It is the floor, or one more where that lies below x.
pub fn ceil_cell(x: f64) -> i64
    ensures { result ≡ ceil_cell x }
{
    let floor = floor_cell(x);
    floor + ((((floor as f64) < x) & (floor < HIGHEST)) as i64)
}

// A cell number as a float: exact for every number of at most 53 binary digits, and else the nearest.
pub fn float_cell(n: i64) -> f64
    ensures { result ≡ of_int binary64 n }
{
    if n < 9007199254740992 {
        if -9007199254740992 < n {
            return n as f64;
        }
    }
    std::num::nearest_i64_to_f64(n)
}
