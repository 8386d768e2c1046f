//! The texts of the replies that tell no package and no module.
ghost use Rattle.std.specs.Prelude.{◌≡◌, IfOk, string_bytes, codes as text_codes, false};
ghost use Rattle.serde_json.specs.View.{view as json_view};
ghost use Rattle.serde_json.specs.Written.{compact_text, has_float};
ghost use Rattle.loader_answers.specs.Answers as answers;

use base_types::Memory;
use keys::BuildName;
use serde_json::{Value, json};
use std::alloc::Global;

/// Writes a reply as compact JSON.
pub fn json_text(alloc: Global, answer: &Value) -> Result<String, Memory>
    ensures { IfOk result (λ text. has_float (json_view answer.now) ≡ false → string_bytes text
        ≡ compact_text (json_view answer.now)) }
{
    Ok(answer.to_string(alloc)?)
}

/// Makes the reply for a refusal.
pub fn refused_answer(alloc: Global, n: u64) -> Result<Value, Memory>
    ensures { IfOk result (λ value. json_view value ≡ answers.refusal_reply n) }
{
    Ok(json!(in alloc; {"refused": n})?)
}

fn accepted_answer(alloc: Global, version: u32) -> Result<Value, Memory>
    ensures { IfOk result (λ value. json_view value ≡ answers.accepted_reply version) }
{
    Ok(json!(in alloc; {"ok": version})?)
}

/// Returns the text of the reply for a refusal.
pub fn refusal_text(alloc: Global, n: u64) -> Result<String, Memory>
    ensures { IfOk result (λ text. string_bytes text ≡ compact_text (answers.refusal_reply n)) }
{
    let answer = refused_answer(alloc, n)?;
    json_text(alloc, &answer)
}

fn refused_at_answer(alloc: Global, at: usize, n: u64) -> Result<Value, Memory>
    ensures { IfOk result (λ value. json_view value ≡ answers.refused_at at n) }
{
    Ok(json!(in alloc; {"edit": at, "refused": n})?)
}

/// Returns the text of the reply to a batch of which a change is refused, by its place among them.
pub fn refusal_text_at(alloc: Global, at: usize, n: u64) -> Result<String, Memory>
    ensures { IfOk result (λ text. string_bytes text ≡ compact_text (answers.refused_at at n)) }
{
    let answer = refused_at_answer(alloc, at, n)?;
    json_text(alloc, &answer)
}

/// Returns the text of the reply to an edit that was made.
pub fn accepted_text(alloc: Global, version: u32) -> Result<String, Memory>
    ensures { IfOk result (λ text. string_bytes text ≡ compact_text (answers.accepted_reply
        version)) }
{
    let answer = accepted_answer(alloc, version)?;
    json_text(alloc, &answer)
}

// Makes the reply with a package's build file.
fn build_answer(alloc: Global, found: Option<BuildName>) -> Result<Value, Memory>
    ensures { IfOk result (λ value. json_view value ≡ answers.one_member (text_codes "build")
        (answers.build_text found)) }
{
    match found {
        Some(BuildName::BuildBazel) => Ok(json!(in alloc; {"build": "BUILD.bazel"})?),
        Some(BuildName::Build) => Ok(json!(in alloc; {"build": "BUILD"})?),
        None => Ok(json!(in alloc; {"build": null})?),
    }
}

/// Returns the text of the reply with a package's build file.
pub fn build_text(alloc: Global, found: Option<BuildName>) -> Result<String, Memory>
    ensures { IfOk result
        (λ text. string_bytes text ≡ compact_text
        (answers.one_member (text_codes "build") (answers.build_text found))) }
{
    let answer = build_answer(alloc, found)?;
    json_text(alloc, &answer)
}
