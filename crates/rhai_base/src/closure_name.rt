//! How closures are named: `anon$` and sixteen hexadecimal digits.

ghost use Rattle.std.specs.Prelude.{◌≡◌, IfOk};
ghost use Rattle.std.specs.Rc.{rc_str_bytes};
ghost use Rattle.rhai_grammar.specs.Closures.{closure_name};

use std::alloc::{AllocError, Global};
use std::rc::RcStr;

/// The name of the closure with the number `hash`: `anon$` and the number as sixteen lower-case hexadecimal digits.
/// Returns `AllocError` if memory runs out.
#[tactic(auto, using(crate::proofs::HexLemmas::padded_hex))]
pub fn make_anonymous_fn(alloc: Global, hash: u64) -> Result<RcStr, AllocError>
    ensures { IfOk result (λ name. rc_str_bytes name ≡ closure_name hash) }
{
    RcStr::from_string(format!(in alloc; "anon${hash:016x}")?)
}
