// Locals as values beside the names of a function's parameters and locals.
ghost use Rattle.std.specs.Prelude.{◌≡◌, length, replicate, IfOk};
ghost use Rattle.std.specs.List.{AllPass};
ghost use Rattle.std.specs.FinMap as finite;
ghost use Rattle.c_frames.specs.LocalValues.{locals_of, changed};
ghost use Rattle.c_frames.specs.Names.{names_in, is_among, IsAmong};
ghost use Rattle.c_meaning.specs.Calls.{passed};

use crate::names::LocalNames;
use c_tree::Name;
use std::alloc::{AllocError, Global};

/// The value of a local, where it has one.
pub fn local_value(names: &LocalNames, values: &[Option<i32>], name: &[u8]) -> Option<i32>
    ensures { result ≡ finite.get (locals_of (names_in names.now) values.now) name.now }
{
    let place = names.place(name)?;
    *values.get(place)?
}

/// Gives a local a value, or takes its value away. It is one of the names.
pub fn set_local(names: &LocalNames, values: &mut [Option<i32>], name: &[u8], value: Option<i32>)
    requires same { length values.old ≡ length (names_in names.now) }
    requires there { IsAmong names.now name.now }
    ensures { locals_of (names_in names.now) values.new ≡ changed (locals_of (names_in names.now) values.old) name.now value }
{
    if let Some(place) = names.place(name) {
        values[place] = value;
    }
}

/// No value for each of so many locals. The one error is want of memory.
pub fn no_values(alloc: Global, count: usize) -> Result<Vec<Option<i32>>, AllocError>
    ensures { IfOk result (λ values. values.items ≡ replicate count None) }
{
    vec![in alloc; None; count]
}

/// Gives each parameter its argument, where none of the names has a value yet.
pub fn pass_args(names: &LocalNames, values: &mut [Option<i32>], params: &[Name], args: &[i32])
    requires same { length values.old ≡ length (names_in names.now) }
    requires there { AllPass (is_among (names_in names.now)) params.now }
    requires none { locals_of (names_in names.now) values.old ≡ finite.empty }
    ensures { locals_of (names_in names.now) values.new ≡ passed params.now args.now }
{
    let count = params.len().min(args.len());
    for k in (0..count).rev() {
        set_local(names, values, params[k].as_slice(), Some(args[k]));
    }
}
