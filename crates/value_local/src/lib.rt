// A local by value, under the Rust's names.

#![tactic(auto)]

ghost use Rattle.std.specs.Prelude.{◌≡◌};
ghost use Rattle.rules.specs.Locals.{new_local, use_at, note_reference, with_analysis};
ghost use Rattle.value_depths.specs.Meaning.{result_of};
ghost use Rattle.value_local.specs.Meaning.{binding_of, name_of, local};

use value_depths::{AnalysisResult, NEVER};

// The position of a local's entry.
#[derive(Clone, Copy, Debug, PartialEq, Eq)]
pub struct LocalId(pub u32);

// What a local stands for: a record, by its place in the tree, or an external, by its position.
#[derive(Clone, Copy, Debug, PartialEq, Eq)]
pub enum Binding {
    Record(u32),
    External(u32),
}

#[derive(Clone, Copy, Debug, PartialEq, Eq)]
pub struct LocalDefinition {
    pub defined_at_depth: u32,
    pub used_at_depth: u32,
    pub used_by_sibling: bool,
    pub analysis: AnalysisResult,
    pub analyzed: bool,
    pub scratch_referenced: bool,
    pub span: u32,
    pub name: Option<u32>,
    pub stands_for: Binding,
}

impl LocalDefinition {
    // What a local is when it is defined; `analyzed` holds from the start for externals and an object's `this`.
    #[tactic(auto, unfolding(crate::specs::Meaning::local, rules::specs::Locals::new_local))]
    pub fn new(
        stands_for: Binding,
        name: Option<u32>,
        span: u32,
        depth: u32,
        analyzed: bool,
    ) -> LocalDefinition
        ensures { local result ≡ new_local (binding_of stands_for) (name_of name) (record { number = span }) depth analyzed }
    {
        LocalDefinition {
            defined_at_depth: depth,
            used_at_depth: NEVER,
            used_by_sibling: false,
            analysis: AnalysisResult::no_dependence(),
            analyzed,
            scratch_referenced: false,
            span,
            name,
            stands_for,
        }
    }

    // A use of the local at a depth.
    #[tactic(auto, unfolding(crate::specs::Meaning::local, rules::specs::Locals::use_at, rules::specs::Locals::with_used_by_sibling, rules::specs::Locals::with_used_at_depth, rules::specs::Outcome::choose))]
    pub fn use_at(self, depth: u32) -> LocalDefinition
        ensures { local result ≡ use_at depth (local self) }
    {
        if depth == self.defined_at_depth {
            return LocalDefinition {
                used_by_sibling: true,
                ..self
            };
        }
        LocalDefinition {
            used_at_depth: self.used_at_depth.min(depth),
            ..self
        }
    }

    // A reference to the local from a sibling's value.
    #[tactic(auto, unfolding(crate::specs::Meaning::local, rules::specs::Locals::note_reference, rules::specs::Locals::keeps_reference, rules::specs::Locals::with_scratch_referenced, rules::specs::Outcome::choose))]
    pub fn note_reference(self) -> LocalDefinition
        ensures { local result ≡ note_reference (local self) }
    {
        if self.analyzed {
            return self;
        }
        LocalDefinition {
            scratch_referenced: true,
            ..self
        }
    }

    // The local once its value is analysed.
    #[tactic(auto, unfolding(crate::specs::Meaning::local, rules::specs::Locals::with_analysis))]
    pub fn with_analysis(self, analysis: AnalysisResult) -> LocalDefinition
        ensures { local result ≡ with_analysis (result_of analysis) (local self) }
    {
        LocalDefinition {
            analysis,
            analyzed: true,
            ..self
        }
    }
}
