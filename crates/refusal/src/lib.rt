// Refusals (01, "Refusal numbers"): what the error types of the crates above have in common, for a caller who is told
// numbers alone, as one in C is.
#![tactic(auto)]

ghost use Rattle.std.specs.Prelude.{◌≡◌, ℕ};
ghost use Rattle.refusal.specs.Refusal.{InTable};

// Each error type has a match of its own for it: the toolchain takes no `impl` by a derive of a project's own.
//
// A refusal is known by its number in 01's table. Beside it stands the need, which 9 alone has; it is 0 with any other
// number.
pub trait Refusal: Copy {
    ghost number: { Self → ℕ };

    ghost need: { Self → ℕ };

    fn number(self) -> u32
        ensures { result ≡ number self };

    fn need(self) -> usize
        ensures { result ≡ need self };

    ghost in_table: { (e : Self) → InTable (number e) (need e) };
}
