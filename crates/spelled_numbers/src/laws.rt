// What holds of the numbers of programs that texts spell.

ghost use Rattle.spelled_numbers.specs.Spelled.{SmallWhenSpelled, SmallWhenWritable};

/// A law of the programs that a text spells within the limits: each number in their statements is at most 2147483647.
pub fn spelled_is_small()
    ensures { SmallWhenSpelled }
{}

/// A law of the programs that can be written, whose names, numbers and formats are tokens: each number
/// in their statements is at most 2147483647.
pub fn writable_is_small()
    ensures { SmallWhenWritable }
{}
