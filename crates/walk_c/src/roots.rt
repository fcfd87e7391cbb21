// The square root (01, Numbers): the one that refuses, and the one that answers every number, as the search uses it.
ghost use Rattle.std.specs.Prelude.{◌≡◌};
ghost use Rattle.root.specs.Distance.{square_root};
ghost use Rattle.root.specs.Method.{answer};
ghost use Rattle.walk_c.specs.Answers.{root_number, root_written};

use crate::float::put_float;

// 0, and the root in the first 8 bytes of `root`; or 9 BadNumber, and nothing is written.
#[unsafe(no_mangle)]
pub extern "C" fn walkprint_root(x: f64, root: &mut [u8]) -> u64
    ensures value { result ≡ root_number (answer x) }
    ensures root_after { root.new ≡ root_written (answer x) root.old }
{
    put_float(root::root(x), 9, root)
}

// The root, or NaN where there is none; the infinity's is itself.
#[unsafe(no_mangle)]
pub extern "C" fn walkprint_square_root(x: f64) -> f64
    ensures { result ≡ square_root x }
{
    root::square_root(x)
}
