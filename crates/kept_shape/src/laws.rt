// What keeps the shape.

ghost use Rattle.kept_shape.specs.Edited.{EditsKeepTheShape, PutsKeepTheShape, CopiesKeepTheShape, LinesDoNotMatter};

/// A program with functions copied and renamed, with takes and gives of monitors put in and on other
/// lines is shaped as tokens spell programs, where the names that it calls, starts and declares can be
/// used as those that they are read as, nothing is put into the head of a `for`, and capacities have a
/// number where there are some.
pub fn edits_keep_the_shape()
    ensures { EditsKeepTheShape }
{}

/// A program with takes and gives of monitors put in, also among the takes of its waits, has the
/// shape, where nothing is put into the head of a `for`.
pub fn puts_keep_the_shape()
    ensures { PutsKeepTheShape }
{}

/// A program whose functions are copied, and called by the names of copies, has the shape.
pub fn copies_keep_the_shape()
    ensures { CopiesKeepTheShape }
{}

/// A program that has the shape has it on other lines.
pub fn lines_do_not_matter_to_the_shape()
    ensures { LinesDoNotMatter }
{}
