// How the marks of contexts make the pieces of outlines.
ghost use Rattle.flow_graph.specs.Weaving.{MarksMakePieces};

/// Where the walk through the contexts of a program finds outlines, the shapes of its functions
/// and the marks of these outlines make their pieces.
pub fn marks_make_pieces()
    ensures { MarksMakePieces }
{}
