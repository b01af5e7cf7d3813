// The lines of complaint, each with its newline.
ghost use Rattle.std.specs.Prelude.{◌≡◌, IfOk, string_bytes};
ghost use Rattle.answers.specs.Lines.{usage_line, unread_line, too_long_line, limit_line, refused_line, not_built_line};

use std::alloc::{AllocError, Global};

/// The shapes of words that the tool is to know in the end.
pub fn usage(alloc: Global) -> Result<String, AllocError>
    ensures { IfOk result (λ line. string_bytes line ≡ usage_line) }
{
    format!(in alloc;
        "gadara: usage: gadara instrument FILE | certify FILE | check FILE CERT | run FILE SCHEDULE INPUT | report FILE | survey N | runtime\n"
    )
}

/// A file of this name can't be read.
pub fn unread(alloc: Global, name: &str) -> Result<String, AllocError>
    ensures { IfOk result (λ line. string_bytes line ≡ unread_line name.now) }
{
    format!(in alloc; "gadara: {name}: cannot read\n")
}

/// A file of this name has more than so many bytes.
pub fn too_long(alloc: Global, name: &str, limit: usize) -> Result<String, AllocError>
    ensures { IfOk result (λ line. string_bytes line ≡ too_long_line name.now limit) }
{
    format!(in alloc; "gadara: {name}: limit: bytes {limit}\n")
}

/// The text of a file passes the limit of something, which is this number.
pub fn limited(alloc: Global, name: &str, what: &str, number: u32) -> Result<String, AllocError>
    ensures { IfOk result (λ line. string_bytes line ≡ limit_line name.now what.now number) }
{
    format!(in alloc; "gadara: {name}: limit: {what} {number}\n")
}

/// The text of a file is refused at a line, from 1, for a reason.
pub fn refused(alloc: Global, name: &str, line: u32, reason: &str) -> Result<String, AllocError>
    ensures { IfOk result (λ made. string_bytes made ≡ refused_line name.now line reason.now) }
{
    format!(in alloc; "gadara: {name}: line {line}: {reason}\n")
}

/// The text of a file has a form that isn't built yet.
pub fn not_built(alloc: Global, name: &str) -> Result<String, AllocError>
    ensures { IfOk result (λ line. string_bytes line ≡ not_built_line name.now) }
{
    format!(in alloc; "gadara: {name}: not built yet\n")
}
