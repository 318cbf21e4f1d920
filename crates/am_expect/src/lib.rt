//! What worked examples are held to. A test ends with the error of the first example that isn't as is wanted.
//!
//! Each is one call in the test, which costs its proof less than what `assert_eq!` writes in its place.
#![tactic(auto)]

ghost use Rattle.std.specs.Prelude.{◌≡◌, true, IfOk};

use std::fmt::{Debug, Display};
use std::test::Fail;

/// Holds what an example gave to what is wanted of it.
///
/// # Errors
/// They differ: the error tells both, and of what example.
pub fn equal<T: PartialEq + Debug + Copy, D: Display + Copy>(
    found: T,
    wanted: T,
    of: D,
) -> Result<(), Fail>
    ensures { IfOk result (λ _. T.eq found wanted ≡ true) }
{
    if found == wanted {
        Ok(())
    } else {
        Err(Fail::new(format_args!("{of}: {found:?}, and not {wanted:?}")))
    }
}

/// Holds an example to what must be so.
///
/// # Errors
/// It isn't so: the error tells of what example.
pub fn holds<D: Display + Copy>(is_so: bool, of: D) -> Result<(), Fail>
    ensures { IfOk result (λ _. is_so ≡ true) }
{
    if is_so { Ok(()) } else { Err(Fail::new(of)) }
}
