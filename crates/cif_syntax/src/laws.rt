// What holds of all sentences.

ghost use Rattle.cif_syntax.specs.Apart.{SentencesAreApart};

/// At the front of a list of bytes stands at most one sentence; or it breaks, at one place; or it is cut.
pub fn sentences_are_apart()
    ensures { SentencesAreApart }
{}
