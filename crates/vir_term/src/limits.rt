// The limits of terms.
ghost use Rattle.std.specs.Prelude.{◌↔◌, IsTrue};
ghost use Rattle.vir_term.specs.Limits.{IsCount};

/// How many modules and compositions a term may have.
pub const SIZE_LIMIT: u32 = 200;

/// How deep a term may be nested.
pub const NESTING_LIMIT: u32 = 64;

/// The greatest number of alternatives that a module or a loop may name; the least is 1.
pub const COUNT_LIMIT: u32 = 1_000_000;

/// Whether a module or a loop may name this number of alternatives.
pub fn is_count(k: u32) -> bool
    ensures { IsTrue result ↔ IsCount k }
{
    k >= 1 && k <= COUNT_LIMIT
}
