//! The targets that an evaluation has made.
ghost use Rattle.std.specs.Prelude.{◌≡◌, ◌++◌, ◌∷◌, [], IfOk, map};
ghost use Rattle.evaluator_semantics.specs.Sorting.{in_order};
ghost use Rattle.evaluator_state.specs.View.{attributed_of, target_of, world_of};

use crate::by_name::ByName;
use base_types::Memory;
use evaluator_state::{State, Target, TargetAttribute};
use std::alloc::Global;
use std::collections::BTreeSet;
use values_heap::Bytes;
use values_modules::{Attributes, Targets, TextBlock};

/// Returns the targets that were made, in byte order of their names.
pub fn targets_made(alloc: Global, state: &State) -> Result<Targets, Memory>
    ensures { IfOk result
        (λ targets. targets ≡ in_order (λ x. x.name) (world_of state.now).targets) }
{
    let set = ordered_targets(alloc, state.targets.as_slice())?;
    let mut all = Targets::new(alloc)?;
    for named in set {
        all = with_target(alloc, all, named.target)?;
    }
    all.fitted(alloc)
}

// Returns the set of these targets.
fn ordered_targets<'a>(alloc: Global, targets: &'a [Target]) -> Result<BTreeSet<ByName<'a>>, Memory>
    ensures { IfOk result (λ set. set.keys ≡ in_order (λ x. x.name) (map target_of targets.now)) }
{
    let mut set = BTreeSet::new(alloc);
    let mut i = targets.len();
    while i > 0 {
        i -= 1;
        let target = &targets[i];
        set.insert(ByName { target })?;
    }
    Ok(set)
}

// Adds a target as the package has it.
fn with_target(alloc: Global, all: Targets, target: &Target) -> Result<Targets, Memory>
    ensures { IfOk result (λ targets. targets ≡ all ++ target_of target.now ∷ []) }
{
    let attributes = make_attributes(alloc, target.attributes.as_slice())?;
    all.with(target.rule.name(), target.name.as_slice(), &attributes)
}

// Makes the attributes of a target.
fn make_attributes(alloc: Global, attributes: &[TargetAttribute]) -> Result<Attributes, Memory>
    ensures { IfOk result (λ all. all ≡ map attributed_of attributes.now) }
{
    let mut all = Attributes::new(alloc)?;
    for attribute in attributes {
        all = with_attribute(alloc, all, attribute)?;
    }
    Ok(all)
}

// Adds an attribute.
fn with_attribute(
    alloc: Global,
    all: Attributes,
    attribute: &TargetAttribute,
) -> Result<Attributes, Memory>
    ensures { IfOk result (λ attributes. attributes ≡ all ++ attributed_of attribute.now ∷ []) }
{
    let name = attribute.name.as_slice();
    match &attribute.value {
        evaluator_state::Attribute::Single(text) => all.with_single(name, text.as_slice()),
        evaluator_state::Attribute::Several(texts) => {
            let texts = block_of(alloc, texts.as_slice())?;
            all.with_several(name, &texts)
        }
    }
}

// Returns the strings in one block.
fn block_of(alloc: Global, texts: &[Bytes]) -> Result<TextBlock, Memory>
    ensures { IfOk result (λ block. block ≡ texts.now) }
{
    let mut block = TextBlock::new(alloc)?;
    for text in texts {
        block = block.with(text.as_slice())?;
    }
    Ok(block)
}
