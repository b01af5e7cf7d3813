// Tables in which names are looked up.

ghost use Rattle.std.specs.Prelude.{◌≡◌, ◌||◌, ℕ, List, OnOk, bytes_eq, option_map, take, length, nat_le, false};
ghost use Rattle.std.specs.Option.{option_map_or};
ghost use Rattle.c_names.specs.Shown.{shown};
ghost use Rattle.c_names.specs.Tables.{meant, joined, in_scope};

use crate::outer::Declaration;
use indexmap::{IndexMap, IndexSet};
use std::alloc::AllocError;

/// What the names that are declared outside functions stand for.
pub type Names<'p> = IndexMap<&'p [u8], Declaration<'p>>;

/// The locals and parameters in scope.
pub type Scope<'p> = IndexSet<&'p [u8]>;

/// The declaration that a name means outside functions.
pub fn declaration_of<'p>(names: &Names<'p>, name: &[u8]) -> Option<Declaration<'p>>
    ensures { option_map shown result ≡ meant names.now name.now }
{
    names.get(name).copied()
}

/// Whether a name has a declaration on this line or above.
fn has_earlier(names: &Names, name: &[u8], line: u32) -> bool
    ensures { result ≡ option_map_or (λ e. nat_le e.line line) (meant names.now name.now) false }
{
    match declaration_of(names, name) {
        Some(before) => before.line <= line,
        None => false,
    }
}

/// Makes a declaration known, unless its name has one on no later line. The one error is want of
/// memory.
pub fn declare<'p>(names: &mut Names<'p>, d: Declaration<'p>) -> Result<(), AllocError>
    ensures { OnOk result ((name : List ℕ) → meant names.new name ≡ joined (meant names.old name) (shown d.entry) name) }
{
    if has_earlier(names, d.name, d.line) {
        return Ok(());
    }
    names.insert(d.name, d)?;
    Ok(())
}

/// Whether a local or a parameter of a name is in scope.
pub fn is_in_scope(scope: &Scope, name: &[u8]) -> bool
    ensures { result ≡ in_scope scope.now name.now }
{
    scope.contains(name)
}

/// Brings a name into scope. The one error is want of memory.
pub fn enter<'p>(scope: &mut Scope<'p>, name: &'p [u8]) -> Result<(), AllocError>
    ensures scoped { OnOk result ((n : List ℕ) → in_scope scope.new n ≡ (bytes_eq n name.now || in_scope scope.old n)) }
    ensures behind { OnOk result (take (length scope.old.keys) scope.new.keys ≡ scope.old.keys) }
{
    scope.insert(name)?;
    Ok(())
}
