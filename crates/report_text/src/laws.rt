ghost use Rattle.report_text.specs.Laws.{EachLineHasItsOwnSpelling};

/// A law over every line whose numbers fit their types: no two lines have one spelling.
pub fn each_line_has_its_own_spelling()
    ensures { EachLineHasItsOwnSpelling }
{}
