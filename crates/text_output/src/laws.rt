// A law of every output.
ghost use Rattle.text_output.specs.Laws.{TextsFollow};

/// What comes of one text behind another.
pub fn texts_follow()
    ensures { TextsFollow }
{}
