// What a name means where it is used.

ghost use Rattle.std.specs.Prelude.{◌≡◌, option_map};
ghost use Rattle.c_tree.specs.Lined.{function_of};
ghost use Rattle.c_rules.specs.Names as kept;
ghost use Rattle.c_rules.specs.Uses as spec;
ghost use Rattle.c_rules.specs.Meaning as meaning;
ghost use Rattle.c_names.specs.Shown.{thing_of};
ghost use Rattle.c_names.specs.Tables.{meant, in_scope, meaning_by, is_function_use};

use crate::outer::Thing;
use crate::tables::{Names, Scope, declaration_of, is_in_scope};
use c_rules::Role;
use c_tree::{Function, Kind, Name};

/// Whether a name is among these.
fn are_naming(names: &[Name], name: &[u8]) -> bool
    ensures { result ≡ kept.mentions names.now name.now }
{
    names.iter().any(|n| name == n.as_slice())
}

/// Whether threads may begin with a function of this kind.
pub fn is_start(kind: Kind) -> bool
    ensures { result ≡ spec.is_start kind }
{
    matches!(kind, Kind::Thread)
}

/// Whether a function of this kind may be called, and for its result where one is wanted.
fn is_callable(kind: Kind, wanted: bool) -> bool
    ensures { result ≡ spec.is_callable kind wanted }
{
    match kind {
        Kind::Int => true,
        Kind::Void => !wanted,
        Kind::Main | Kind::Thread => false,
    }
}

/// What a local or a parameter of a function stands for.
fn local_thing<'p>(f: &Function, name: &[u8]) -> Thing<'p>
    ensures { thing_of result ≡ meaning.local_thing (function_of f.now) name.now }
{
    if is_start(f.kind) && are_naming(f.params.as_slice(), name) {
        Thing::Argument
    } else {
        Thing::Local
    }
}

/// What a name means in a function, with these locals and parameters in scope.
pub fn meaning<'p>(names: &Names<'p>, scope: &Scope, f: &Function, name: &[u8]) -> Option<Thing<'p>>
    ensures { option_map thing_of result ≡ meaning_by (meant names.now) (in_scope scope.now) (function_of f.now) name.now }
{
    if is_in_scope(scope, name) {
        return Some(local_thing(f, name));
    }
    let d = declaration_of(names, name)?;
    Some(d.thing)
}

/// Whether a name means nothing in the function at this place, or a function further below.
pub fn is_out_of_reach(here: u32, thing: &Option<Thing>) -> bool
    ensures { result ≡ meaning.is_out_of_reach here (option_map thing_of thing.now) }
{
    match thing {
        None => true,
        Some(Thing::Function(place, _)) => here < *place,
        Some(_) => false,
    }
}

/// Whether an index stands where there is a length, and nowhere else.
fn is_indexed_so(len: Option<u32>, indexed: bool) -> bool
    ensures { result ≡ spec.is_indexed_so len indexed }
{
    len.is_some() == indexed
}

/// Whether a use is what the name's thing is made for.
pub fn fits(thing: &Thing, role: Role, indexed: bool) -> bool
    ensures { result ≡ spec.fits (thing_of thing.now) role indexed }
{
    match thing {
        Thing::Scalar | Thing::Local => matches!(role, Role::Value) && !indexed,
        Thing::Array => matches!(role, Role::Value) && indexed,
        Thing::Argument => matches!(role, Role::Cast) && !indexed,
        Thing::Mutex(len) => matches!(role, Role::OfMutex) && is_indexed_so(*len, indexed),
        Thing::Condition(len) => matches!(role, Role::OfCondition) && is_indexed_so(*len, indexed),
        Thing::Thread(len) => matches!(role, Role::OfThread) && is_indexed_so(*len, indexed),
        Thing::Function(_, f) => fits_function(f.kind, role),
    }
}

/// Whether a function of this kind is used so.
fn fits_function(kind: Kind, role: Role) -> bool
    ensures { result ≡ is_function_use kind role }
{
    match role {
        Role::Start => is_start(kind),
        Role::Called(wanted) => is_callable(kind, wanted),
        _ => false,
    }
}
