// Numbers of tokens.
ghost use Rattle.std.specs.Prelude.{◌≡◌, OnOk, IfErr, slice_get};
ghost use Rattle.held_counts.specs.Counts as spec;
ghost use Rattle.held_counts.specs.Refusals.{is_held, differ, differs_from, refuse};
ghost use Rattle.outline_pieces.specs.Errors.{Tells};

use crate::error::FlowError;
use edges::Counts;
use held_counts::HeldKind;

/// How many tokens of a resource are held.
fn count(held: &Counts, resource: u32) -> Option<u32>
    ensures { result ≡ slice_get held.now resource }
{
    held.get(resource as usize).copied()
}

/// Takes a token. The one error is want of memory, which a number past its type counts as.
pub fn raise(held: &mut Counts, resource: u32) -> Result<(), FlowError>
    ensures ok { OnOk result (held.new ≡ spec.raise held.old resource) }
    ensures err { IfErr result (λ e. e ≡ FlowError.Memory) }
{
    if let Some(count) = count(held, resource) {
        let more = count.checked_add(1).ok_or(FlowError::Memory)?;
        held.set(resource as usize, more);
    }
    Ok(())
}

/// Gives a token back, where one is held.
pub fn lower(held: &mut Counts, resource: u32)
    ensures { held.new ≡ spec.lower held.old resource }
{
    if let Some(count) = count(held, resource) {
        held.set(resource as usize, count.saturating_sub(1));
    }
}

/// Whether a token is held.
pub fn is_held(held: &Counts, resource: u32) -> bool
    ensures { result ≡ is_held held.now resource }
{
    match count(held, resource) {
        Some(count) => count > 0,
        None => false,
    }
}

/// Whether two numbers differ for a resource.
pub fn differ(one: &Counts, other: &Counts) -> bool
    ensures { result ≡ differ one.now other.now }
{
    one.as_slice() != other.as_slice()
}

/// Whether what is held differs from what was held at the first exit, where there was one.
pub fn differs_from(exit: &Option<Counts>, held: &Counts) -> bool
    ensures { result ≡ differs_from exit.now held.now }
{
    match exit {
        Some(exit) => differ(exit, held),
        None => false,
    }
}

/// Refuses what is wrong.
pub fn refuse(wrong: bool, kind: HeldKind, line: u32) -> Result<(), FlowError>
    ensures ok { OnOk result (refuse wrong kind line ≡ None) }
    ensures err { IfErr result (λ e. Tells e (refuse wrong kind line)) }
{
    if wrong {
        return Err(FlowError::Held { kind, line });
    }
    Ok(())
}
