//! The name that is most similar to another one.

ghost use Rattle.std.specs.Prelude.{◌≡◌, IfOk, map, option_map, if◌then◌else◌};
ghost use Rattle.rhai_report.specs.Similar.{IsMeantBy, edits, is_compared, may_be_meant, most_edits};

use crate::text::characters;
use std::alloc::{AllocError, Global};
use strsim::osa_distance;

/// The greatest length of a name, in bytes, that is compared with others.
const LONGEST: usize = 64;

// How many edits lead from a name of this many characters to one that was meant: one for each three of them, but not
// all.
fn allowed(characters: usize) -> usize
    ensures { result ≡ most_edits characters }
{
    let third = characters.max(3) / 3;
    third.min(characters.saturating_sub(1))
}

// How many edits lead from one name to another. Names that differ in case alone are one edit apart.
#[tactic(auto, unfolding(crate::specs::Similar::edits))]
fn distance(alloc: Global, name: &str, other: &str) -> Result<usize, AllocError>
    ensures { IfOk result (λ n. n ≡ edits name.now other.now) }
{
    if name.eq_ignore_ascii_case(other) {
        return Ok(1);
    }
    osa_distance(alloc, name, other)
}

// Whether two names are compared: they are not the same, and neither is too long.
fn is_compared(name: &str, other: &str) -> bool
    ensures { result ≡ is_compared name.now other.now }
{
    name != other && name.len() <= LONGEST && other.len() <= LONGEST
}

// How many edits lead from one name to another that may be meant.
#[tactic(auto, unfolding(crate::specs::Similar::may_be_meant))]
fn edits_to(alloc: Global, name: &str, other: &str) -> Result<Option<usize>, AllocError>
    ensures { IfOk result (λ n. n ≡ (if may_be_meant name.now other.now then Some (edits name.now other.now)
        else None)) }
{
    if !is_compared(name, other) {
        return Ok(None);
    }
    let edits = distance(alloc, name, other)?;
    if edits <= allowed(characters(name)) {
        Ok(Some(edits))
    } else {
        Ok(None)
    }
}

/// Of these names the first one that is most like `name`, but not equal to it, if one is alike enough. Returns
/// `AllocError` if memory runs out.
pub fn most_similar<'a>(
    alloc: Global,
    name: &str,
    names: &[&'a str],
) -> Result<Option<&'a str>, AllocError>
    ensures { IfOk result (λ other. IsMeantBy name.now (map (λ n. n.now) names.now) (option_map (λ n. n.now) other)) }
{
    let mut best = None;
    let mut least = 0;
    for other in names {
        let Some(edits) = edits_to(alloc, name, other)? else {
            continue;
        };
        if best.is_none() || edits < least {
            (best, least) = (Some(*other), edits);
        }
    }
    Ok(best)
}
