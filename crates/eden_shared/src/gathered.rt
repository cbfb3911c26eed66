// Whether passes are one of each number.
ghost use Rattle.std.specs.Prelude.{◌≡◌, ◌≤◌, ℕ, true};
ghost use Rattle.eden_shared.specs.Passes.{HasNumber};

use crate::account::Naming;
use crate::pass::Pass;

/// Whether one of the passes has the number.
fn have_number<J: Naming>(passes: &[Pass<J>], number: u32) -> bool
    ensures yes { result ≡ true → HasNumber passes.now number }
    ensures no { HasNumber passes.now number → result ≡ true }
{
    for pass in passes {
        if pass.number() == number {
            return true;
        }
    }
    false
}

/// Whether there is one of each number from 1 on.
pub(crate) fn have_each<J: Naming>(passes: &[Pass<J>], count: u32) -> bool
    ensures yes { result ≡ true → (c : ℕ) → 1 ≤ c → c ≤ count → HasNumber passes.now c }
    ensures no { ((c : ℕ) → 1 ≤ c → c ≤ count → HasNumber passes.now c) → result ≡ true }
{
    for below in 0..count {
        if !have_number(passes, below + 1) {
            return false;
        }
    }
    true
}
