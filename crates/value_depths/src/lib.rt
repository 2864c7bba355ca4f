// On which objects and locals a value depends, under the Rust's names.

#![tactic(auto)]

ghost use Rattle.std.specs.Prelude.{◌≡◌};
ghost use Rattle.rules.specs.Depths.{no_dependence, taint_by, depend_on_local, depend_on_object, same_result};
ghost use Rattle.value_depths.specs.Meaning.{result_of};

// No depth: nothing depends on it, or it is not used. Not an `Option`: the rules' `no_dependence` has this number, which the report gives C.
pub const NEVER: u32 = u32::MAX;

// The outermost object, the outermost local and the innermost local; `NEVER` and 0 where there is none.
#[derive(Clone, Copy, Debug, PartialEq, Eq)]
pub struct AnalysisResult {
    pub object_dependent_depth: u32,
    pub local_dependent_depth: u32,
    pub local_dependent_depth_max: u32,
}

impl AnalysisResult {
    #[tactic(auto, unfolding(rules::specs::Depths::no_dependence))]
    pub fn no_dependence() -> AnalysisResult
        ensures { result_of result ≡ no_dependence }
    {
        AnalysisResult {
            object_dependent_depth: NEVER,
            local_dependent_depth: NEVER,
            local_dependent_depth_max: 0,
        }
    }

    #[tactic(auto, unfolding(rules::specs::Depths::depend_on_object))]
    pub fn depend_on_object(self, depth: u32) -> AnalysisResult
        ensures { result_of result ≡ depend_on_object depth (result_of self) }
    {
        AnalysisResult {
            object_dependent_depth: self.object_dependent_depth.min(depth),
            ..self
        }
    }

    #[tactic(auto, unfolding(rules::specs::Depths::depend_on_local))]
    pub fn depend_on_local(self, depth: u32) -> AnalysisResult
        ensures { result_of result ≡ depend_on_local depth (result_of self) }
    {
        AnalysisResult {
            local_dependent_depth: self.local_dependent_depth.min(depth),
            local_dependent_depth_max: self.local_dependent_depth_max.max(depth),
            ..self
        }
    }

    #[tactic(auto, unfolding(rules::specs::Depths::taint_by))]
    pub fn taint_by(self, other: AnalysisResult) -> AnalysisResult
        ensures { result_of result ≡ taint_by (result_of self) (result_of other) }
    {
        AnalysisResult {
            object_dependent_depth: self
                .object_dependent_depth
                .min(other.object_dependent_depth),
            local_dependent_depth: self.local_dependent_depth.min(other.local_dependent_depth),
            local_dependent_depth_max: self
                .local_dependent_depth_max
                .max(other.local_dependent_depth_max),
        }
    }

    // Whether the two say the same, which the rules' test tells too.
    #[tactic(auto, unfolding(rules::specs::Depths::same_result))]
    pub fn same(self, other: AnalysisResult) -> bool
        ensures { result ≡ same_result (result_of self) (result_of other) }
    {
        self == other
    }
}
