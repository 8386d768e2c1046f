//! The number of answers.
ghost use Rattle.std.specs.Prelude.{◌≡◌, length};

use crate::answers::Answers;

/// Returns how many answers there are.
pub fn answer_count(answers: &Answers) -> usize
    ensures { result ≡ length answers.now }
{
    let results = answers.results();
    results.len()
}
