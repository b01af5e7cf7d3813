// Declarations, functions and whole programs.

ghost use Rattle.std.specs.Prelude.{◌≡◌, [], ◌∷◌, ◌++◌, Option, Some, None, IfOk, OnOk, codes, map, replicate};
ghost use Rattle.std.specs.List.{flat_map};
ghost use Rattle.c_layout.specs.Layout as tokens;
ghost use Rattle.c_layout.specs.Layout.{text};
ghost use Rattle.c_tree.specs.Lined.{bare_cell, bare_array, bare_object, bare_slot, bare_function, bare_program, function_of, program_of};
ghost use Rattle.c_canonical.specs.Canonical.{SpellsBare};
ghost use Rattle.c_canonical.specs.Expressions.{followed, separated};
ghost use Rattle.c_canonical.specs.Programs as spec;
ghost use Rattle.c_canonical.specs.ShapedPrograms.{ShapedProgram};
ghost use Rattle.c_canonical.specs.Statements.{statements};
ghost use Rattle.c_canonical.specs.Waits.{some_waits};
ghost use Rattle.c_canonical.specs.Writable.{IsWritableProgram};

use crate::acts::following_numbers;
use crate::statements::lines;
use crate::waits::some_waits;
use crate::writing::{put, put_name, put_number, put_value};
use c_tree::{Array, Cell, Function, Kind, Name, Names, Object, Program, Slot, Values};
use std::alloc::{AllocError, Global};

/// A length in brackets.
fn length(out: &mut Vec<u8>, alloc: Global, n: u32) -> Result<(), AllocError>
    ensures { OnOk result (out.new.items ≡ out.old.items ++ text (spec.length_of (Some n))) }
{
    put(out, b"[")?;
    put_number(out, alloc, n)?;
    put(out, b"]")?;
    Ok(())
}

/// A length in brackets, if there is one.
fn length_of(out: &mut Vec<u8>, alloc: Global, len: Option<u32>) -> Result<(), AllocError>
    ensures { OnOk result (out.new.items ≡ out.old.items ++ text (spec.length_of len)) }
{
    match len {
        None => Ok(()),
        Some(n) => length(out, alloc, n),
    }
}

fn cell(out: &mut Vec<u8>, alloc: Global, c: &Cell) -> Result<(), AllocError>
    ensures { OnOk result (out.new.items ≡ out.old.items ++ text (spec.cell (bare_cell c.now))) }
{
    put(out, b"int ")?;
    put_name(out, &c.name)?;
    put(out, b" = ")?;
    put_value(out, alloc, c.value)?;
    put(out, b";\n")?;
    Ok(())
}

fn cells(out: &mut Vec<u8>, alloc: Global, cs: &[Cell]) -> Result<(), AllocError>
    ensures { OnOk result (out.new.items ≡ out.old.items ++ text (flat_map (λ c. spec.cell (bare_cell c)) cs.now)) }
{
    for c in cs {
        cell(out, alloc, c)?;
    }
    Ok(())
}

fn following_value(out: &mut Vec<u8>, alloc: Global, v: i32) -> Result<(), AllocError>
    ensures { OnOk result (out.new.items ≡ out.old.items ++ 44 ∷ 32 ∷ text (spec.value v)) }
{
    put(out, b", ")?;
    put_value(out, alloc, v)?;
    Ok(())
}

/// Numbers, each behind a comma and a space.
fn following_values(out: &mut Vec<u8>, alloc: Global, vs: &[i32]) -> Result<(), AllocError>
    ensures { OnOk result (out.new.items ≡ out.old.items ++ text (followed (map spec.value vs.now))) }
{
    for v in vs {
        following_value(out, alloc, *v)?;
    }
    Ok(())
}

/// The initial values of an array, if it has any.
fn values(out: &mut Vec<u8>, alloc: Global, vs: &[i32]) -> Result<(), AllocError>
    ensures { OnOk result (out.new.items ≡ out.old.items ++ text (spec.values vs.now)) }
{
    match vs.split_first() {
        None => Ok(()),
        Some((first, more)) => {
            put(out, b" = {")?;
            put_value(out, alloc, *first)?;
            following_values(out, alloc, more)?;
            put(out, b"}")?;
            Ok(())
        }
    }
}

fn all_values(out: &mut Vec<u8>, alloc: Global, vs: &Values) -> Result<(), AllocError>
    ensures { OnOk result (out.new.items ≡ out.old.items ++ text (spec.values vs.now)) }
{
    values(out, alloc, vs.as_slice())
}

fn array(out: &mut Vec<u8>, alloc: Global, a: &Array) -> Result<(), AllocError>
    ensures { OnOk result (out.new.items ≡ out.old.items ++ text (spec.array (bare_array a.now))) }
{
    put(out, b"int ")?;
    put_name(out, &a.name)?;
    length(out, alloc, a.len)?;
    all_values(out, alloc, &a.values)?;
    put(out, b";\n")?;
    Ok(())
}

fn arrays(out: &mut Vec<u8>, alloc: Global, arrays: &[Array]) -> Result<(), AllocError>
    ensures { OnOk result (out.new.items ≡ out.old.items ++ text (flat_map (λ a. spec.array (bare_array a)) arrays.now)) }
{
    for a in arrays {
        array(out, alloc, a)?;
    }
    Ok(())
}

fn following_initialiser(out: &mut Vec<u8>, initialiser: &[u8]) -> Result<(), AllocError>
    ensures { OnOk result (out.new.items ≡ out.old.items ++ 44 ∷ 32 ∷ initialiser.now) }
{
    put(out, b", ")?;
    put(out, initialiser)?;
    Ok(())
}

/// The initialisers of an array of objects, behind the first.
fn following_initialisers(
    out: &mut Vec<u8>,
    initialiser: &[u8],
    count: u32,
) -> Result<(), AllocError>
    ensures { OnOk result (out.new.items ≡ out.old.items ++ text (followed (replicate count (tokens.word initialiser.now ∷ [])))) }
{
    for _i in 0..count {
        following_initialiser(out, initialiser)?;
    }
    Ok(())
}

/// The initialisers of an array of objects.
fn initialiser_list(out: &mut Vec<u8>, initialiser: &[u8], given: u32) -> Result<(), AllocError>
    ensures { OnOk result (out.new.items ≡ out.old.items ++ text (separated (replicate given (tokens.word initialiser.now ∷ [])))) }
{
    if given == 0 {
        return Ok(());
    }
    put(out, initialiser)?;
    following_initialisers(out, initialiser, given - 1)?;
    Ok(())
}

/// ` = ` and an initialiser.
fn one_initialiser(out: &mut Vec<u8>, initialiser: &[u8], given: u32) -> Result<(), AllocError>
    ensures { OnOk result (out.new.items ≡ out.old.items ++ text (spec.initialisers initialiser.now None given)) }
{
    put(out, b" = ")?;
    put(out, initialiser)?;
    Ok(())
}

/// ` = ` and initialisers in braces.
fn more_initialisers(
    out: &mut Vec<u8>,
    initialiser: &[u8],
    len: u32,
    given: u32,
) -> Result<(), AllocError>
    ensures { OnOk result (out.new.items ≡ out.old.items ++ text (spec.initialisers initialiser.now (Some len) given)) }
{
    put(out, b" = {")?;
    initialiser_list(out, initialiser, given)?;
    put(out, b"}")?;
    Ok(())
}

/// The initialisers of an object, if it has any.
fn initialisers(out: &mut Vec<u8>, initialiser: &[u8], o: &Object) -> Result<(), AllocError>
    ensures { OnOk result (out.new.items ≡ out.old.items ++ text (spec.readied o.now.ready (spec.initialisers initialiser.now o.now.len o.now.given))) }
{
    if !o.ready {
        return Ok(());
    }
    match o.len {
        None => one_initialiser(out, initialiser, o.given),
        Some(len) => more_initialisers(out, initialiser, len, o.given),
    }
}

/// A mutex or a condition, by its type and its initialiser.
fn object(
    out: &mut Vec<u8>,
    alloc: Global,
    kind: &[u8],
    initialiser: &[u8],
    o: &Object,
) -> Result<(), AllocError>
    ensures { OnOk result (out.new.items ≡ out.old.items ++ text (spec.object kind.now initialiser.now (bare_object o.now))) }
{
    put(out, kind)?;
    put(out, b" ")?;
    put_name(out, &o.name)?;
    length_of(out, alloc, o.len)?;
    initialisers(out, initialiser, o)?;
    put(out, b";\n")?;
    Ok(())
}

fn objects(
    out: &mut Vec<u8>,
    alloc: Global,
    kind: &[u8],
    initialiser: &[u8],
    os: &[Object],
) -> Result<(), AllocError>
    ensures { OnOk result (out.new.items ≡ out.old.items ++ text (flat_map (λ o. spec.object kind.now initialiser.now (bare_object o)) os.now)) }
{
    for o in os {
        object(out, alloc, kind, initialiser, o)?;
    }
    Ok(())
}

fn slot(out: &mut Vec<u8>, alloc: Global, t: &Slot) -> Result<(), AllocError>
    ensures { OnOk result (out.new.items ≡ out.old.items ++ text (spec.slot (bare_slot t.now))) }
{
    put(out, b"pthread_t ")?;
    put_name(out, &t.name)?;
    length_of(out, alloc, t.len)?;
    put(out, b";\n")?;
    Ok(())
}

fn slots(out: &mut Vec<u8>, alloc: Global, ts: &[Slot]) -> Result<(), AllocError>
    ensures { OnOk result (out.new.items ≡ out.old.items ++ text (flat_map (λ t. spec.slot (bare_slot t)) ts.now)) }
{
    for t in ts {
        slot(out, alloc, t)?;
    }
    Ok(())
}

/// The declaration of the waits that take tokens, where there are any.
fn wait_call(out: &mut Vec<u8>, waits: bool) -> Result<(), AllocError>
    ensures { OnOk result (out.new.items ≡ out.old.items ++ text (spec.wait_call waits)) }
{
    if !waits {
        return Ok(());
    }
    put(
        out,
        b"void gd_cond_wait(pthread_cond_t *c, pthread_mutex_t *m, ...);\n",
    )
}

/// The declarations of the monitors, if there are any.
fn monitors(
    out: &mut Vec<u8>,
    alloc: Global,
    len: u32,
    caps: &[u32],
    waits: bool,
) -> Result<(), AllocError>
    ensures { OnOk result (out.new.items ≡ out.old.items ++ text (spec.monitors len caps.now waits)) }
{
    match caps.split_first() {
        None => Ok(()),
        Some((first, more)) => {
            put(out, b"int gd_cap")?;
            length(out, alloc, len)?;
            put(out, b" = {")?;
            put_number(out, alloc, *first)?;
            following_numbers(out, alloc, more)?;
            put(out, b"};\nvoid gd_take(int k);\nvoid gd_give(int k);\n")?;
            wait_call(out, waits)?;
            Ok(())
        }
    }
}

fn result_type(out: &mut Vec<u8>, kind: Kind) -> Result<(), AllocError>
    ensures { OnOk result (out.new.items ≡ out.old.items ++ text (spec.result_type kind)) }
{
    match kind {
        Kind::Main | Kind::Int => put(out, b"int "),
        Kind::Void => put(out, b"void "),
        Kind::Thread => put(out, b"void *"),
    }
}

/// The type of a parameter, before its name.
fn parameter_type(out: &mut Vec<u8>, kind: Kind) -> Result<(), AllocError>
    ensures { OnOk result (out.new.items ≡ out.old.items ++ text (spec.parameter_type kind)) }
{
    match kind {
        Kind::Main | Kind::Int | Kind::Void => put(out, b"int "),
        Kind::Thread => put(out, b"void *"),
    }
}

fn parameter(out: &mut Vec<u8>, kind: Kind, name: &Name) -> Result<(), AllocError>
    ensures { OnOk result (out.new.items ≡ out.old.items ++ text (spec.parameter kind name.now)) }
{
    parameter_type(out, kind)?;
    put_name(out, name)?;
    Ok(())
}

fn following_parameter(out: &mut Vec<u8>, kind: Kind, name: &Name) -> Result<(), AllocError>
    ensures { OnOk result (out.new.items ≡ out.old.items ++ 44 ∷ 32 ∷ text (spec.parameter kind name.now)) }
{
    put(out, b", ")?;
    parameter(out, kind, name)?;
    Ok(())
}

/// Parameters, each behind a comma and a space.
fn following_parameters(out: &mut Vec<u8>, kind: Kind, names: &[Name]) -> Result<(), AllocError>
    ensures { OnOk result (out.new.items ≡ out.old.items ++ text (followed (map (spec.parameter kind) names.now))) }
{
    for name in names {
        following_parameter(out, kind, name)?;
    }
    Ok(())
}

fn parameters(out: &mut Vec<u8>, kind: Kind, names: &[Name]) -> Result<(), AllocError>
    ensures { OnOk result (out.new.items ≡ out.old.items ++ text (spec.parameters kind names.now)) }
{
    match names.split_first() {
        None => put(out, b"void"),
        Some((first, more)) => {
            parameter(out, kind, first)?;
            following_parameters(out, kind, more)?;
            Ok(())
        }
    }
}

fn all_parameters(out: &mut Vec<u8>, kind: Kind, names: &Names) -> Result<(), AllocError>
    ensures { OnOk result (out.new.items ≡ out.old.items ++ text (spec.parameters kind names.now)) }
{
    parameters(out, kind, names.as_slice())
}

/// The head of a function up to its `{`, behind an empty line.
fn function_head(out: &mut Vec<u8>, f: &Function) -> Result<(), AllocError>
    ensures { OnOk result (out.new.items ≡ out.old.items ++ text (spec.function_head (bare_function (function_of f.now)))) }
{
    put(out, b"\n")?;
    result_type(out, f.kind)?;
    put_name(out, &f.name)?;
    put(out, b"(")?;
    all_parameters(out, f.kind, &f.params)?;
    put(out, b") {\n")?;
    Ok(())
}

fn body(out: &mut Vec<u8>, alloc: Global, f: &Function) -> Result<(), AllocError>
    ensures { OnOk result (out.new.items ≡ out.old.items ++ text (statements f.now.kind (codes "    ") (bare_function (function_of f.now)).body)) }
{
    lines(out, alloc, f.kind, b"    ", f.body.as_slice())
}

fn function(out: &mut Vec<u8>, alloc: Global, f: &Function) -> Result<(), AllocError>
    ensures { OnOk result (out.new.items ≡ out.old.items ++ text (spec.function (bare_function (function_of f.now)))) }
{
    function_head(out, f)?;
    body(out, alloc, f)?;
    put(out, b"}\n")?;
    Ok(())
}

fn functions(out: &mut Vec<u8>, alloc: Global, fs: &[Function]) -> Result<(), AllocError>
    ensures { OnOk result (out.new.items ≡ out.old.items ++ text (flat_map (λ f. spec.function (bare_function (function_of f))) fs.now)) }
{
    for f in fs {
        function(out, alloc, f)?;
    }
    Ok(())
}

fn all_monitors(out: &mut Vec<u8>, alloc: Global, p: &Program) -> Result<(), AllocError>
    ensures { OnOk result (out.new.items ≡ out.old.items ++ text (spec.monitors p.now.cap_len p.now.monitors (some_waits (map bare_function (map function_of p.now.functions))))) }
{
    let waits = some_waits(p.functions.as_slice());
    monitors(out, alloc, p.cap_len, p.monitors.as_slice(), waits)
}

fn all_ints(out: &mut Vec<u8>, alloc: Global, p: &Program) -> Result<(), AllocError>
    ensures { OnOk result (out.new.items ≡ out.old.items ++ text (flat_map spec.cell (map bare_cell p.now.ints))) }
{
    cells(out, alloc, p.ints.as_slice())?;
    Ok(())
}

fn all_arrays(out: &mut Vec<u8>, alloc: Global, p: &Program) -> Result<(), AllocError>
    ensures { OnOk result (out.new.items ≡ out.old.items ++ text (flat_map spec.array (map bare_array p.now.arrays))) }
{
    arrays(out, alloc, p.arrays.as_slice())?;
    Ok(())
}

fn all_mutexes(out: &mut Vec<u8>, alloc: Global, p: &Program) -> Result<(), AllocError>
    ensures { OnOk result (out.new.items ≡ out.old.items ++ text (flat_map spec.mutex (map bare_object p.now.mutexes))) }
{
    objects(
        out,
        alloc,
        b"pthread_mutex_t",
        b"PTHREAD_MUTEX_INITIALIZER",
        p.mutexes.as_slice(),
    )?;
    Ok(())
}

fn all_conditions(out: &mut Vec<u8>, alloc: Global, p: &Program) -> Result<(), AllocError>
    ensures { OnOk result (out.new.items ≡ out.old.items ++ text (flat_map spec.condition (map bare_object p.now.conds))) }
{
    objects(
        out,
        alloc,
        b"pthread_cond_t",
        b"PTHREAD_COND_INITIALIZER",
        p.conds.as_slice(),
    )?;
    Ok(())
}

fn all_threads(out: &mut Vec<u8>, alloc: Global, p: &Program) -> Result<(), AllocError>
    ensures { OnOk result (out.new.items ≡ out.old.items ++ text (flat_map spec.slot (map bare_slot p.now.threads))) }
{
    slots(out, alloc, p.threads.as_slice())?;
    Ok(())
}

fn all_functions(out: &mut Vec<u8>, alloc: Global, p: &Program) -> Result<(), AllocError>
    ensures { OnOk result (out.new.items ≡ out.old.items ++ text (flat_map spec.function (map bare_function (map function_of p.now.functions)))) }
{
    functions(out, alloc, p.functions.as_slice())?;
    Ok(())
}

/// The declarations of a program.
fn declarations(out: &mut Vec<u8>, alloc: Global, p: &Program) -> Result<(), AllocError>
    ensures { OnOk result (out.new.items ≡ out.old.items ++ text (spec.declarations (bare_program (program_of p.now)))) }
{
    all_monitors(out, alloc, p)?;
    all_ints(out, alloc, p)?;
    all_arrays(out, alloc, p)?;
    all_mutexes(out, alloc, p)?;
    all_conditions(out, alloc, p)?;
    all_threads(out, alloc, p)?;
    Ok(())
}

/// The canonical text of a program: two includes, the declarations one on each line, and the
/// functions, each behind an empty line. Statements are indented by four spaces a level, arms and
/// bodies stand in braces, and parentheses stand only where an expression needs them. Lines have no
/// part in it. The tokens of this text spell the program, lines apart, where it has the shape of what
/// tokens spell and its names, numbers and formats can be written: so they do wherever any text's do. The
/// one error is want of memory.
pub fn print(alloc: Global, p: &Program) -> Result<Vec<u8>, AllocError>
    ensures text { IfOk result (λ bytes. bytes.items ≡ text (spec.layout_of (bare_program (program_of p.now)))) }
    ensures spelled { ShapedProgram (bare_program (program_of p.now)) → IsWritableProgram (bare_program (program_of p.now))
        → IfOk result (λ bytes. SpellsBare bytes.items (bare_program (program_of p.now))) }
{
    let mut out = Vec::new(alloc);
    put(&mut out, b"#include <pthread.h>\n#include <stdio.h>\n")?;
    declarations(&mut out, alloc, p)?;
    all_functions(&mut out, alloc, p)?;
    Ok(out)
}
