//! Laws of replies and of what serving writes.
ghost use Rattle.loader.specs.HoldingLaws.{UnchangedIsEqual};
ghost use Rattle.loader.specs.Laws.{OneAnswer, OneAnswerEach, OneOutput, SomeAnswer, SomeAnswerEach, StopsInOutput};

/// States the law of one reply: a line has at most one reply from each state, and lines have at most one list of
/// replies.
pub fn lines_determine_answers()
    ensures line { OneAnswer }
    ensures lines { OneAnswerEach }
{}

/// States the law of existence: a line has a reply from each state, and lines have a list of replies. So the replies
/// are a function of the lines.
pub fn lines_have_answers()
    ensures line { SomeAnswer }
    ensures lines { SomeAnswerEach }
{}

/// States the law of one output: two servings of one input write the same bytes. A serving that stopped wrote a
/// beginning of what the serving of any longer input writes. If the reader had reported its end, that input is its own.
pub fn input_determines_output()
    ensures served { OneOutput }
    ensures stopped { StopsInOutput }
{}

/// States the law of what has changed. If the value of a package is known in a session, and again after calls that
/// ended well, it is the same at both, unless the package is reported as changed since the version of the earlier one
/// or a version before.
pub fn unchanged_packages_are_equal()
    ensures { UnchangedIsEqual }
{}
