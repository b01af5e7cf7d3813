// The laws of the canonical text.

ghost use Rattle.c_canonical.specs.Writable.{ReadsBack};
ghost use Rattle.c_canonical.specs.Canonical.{SpelledIsShaped, ShapedIsSpelled, CanonicalSpells, ShapeIsWhatWordsSpell, TextsAreWritable};

/// A law of programs whose names, numbers and formats are tokens: the canonical text of one is read
/// as exactly the tokens of its layout.
pub fn reads_back()
    ensures { ReadsBack }
{}

/// A law of the programs that the tokens of a text spell, definitions of names among them: each is shaped as the grammar
/// can spell it without definitions, and its names, numbers and formats are tokens.
pub fn spelled_is_shaped()
    ensures { SpelledIsShaped }
{}

/// A law of programs that are shaped so and can be written: the canonical text of one spells it, lines apart.
pub fn shaped_is_spelled()
    ensures { ShapedIsSpelled }
{}

/// A law of programs that some text spells: the canonical text of one spells it too, lines apart.
pub fn canonical_spells()
    ensures { CanonicalSpells }
{}

/// A law of the shape: a program is shaped exactly where some tokens spell it, lines apart. No bound
/// on names, numbers or texts has a part in it.
pub fn shape_is_what_words_spell()
    ensures { ShapeIsWhatWordsSpell }
{}

/// A law of the programs that have texts: they are those that are shaped and whose names, numbers and
/// formats are tokens.
pub fn texts_are_writable()
    ensures { TextsAreWritable }
{}
