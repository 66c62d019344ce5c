// The way to an opened group.
ghost use Rattle.std.specs.Prelude.{◌≡◌, ◌<◌, ◌≤◌, ◌++◌, ◌∷◌, [], length};

use arrayvec::ArrayVec;
use report_frame::{MAX_LAYERS, Value, Version};
use std::marker::Model;

/// The most steps of a path: one for each layer of a report.
pub const MAX_STEPS: usize = MAX_LAYERS;

/// The value of an opened group, the threshold with which it was opened, and its version.
///
/// Steps are compared field by field in this order: by value, then by threshold, then by version.
#[derive(Clone, Debug, Drop, PartialEq, Eq, PartialOrd, Ord)]
pub struct Step {
    pub value: Value,
    pub k: u16,
    pub version: Version,
}

/// The one byte 0 with the threshold 0, in version 1.
impl Default for Step {
    ghost use Rattle.std.specs.Prelude.{◌≡◌, [], ◌∷◌};
    ghost use Rattle.report_frame.specs.declared.version.Version.TheVariants.{One};

    ghost is_default = { λ s. (s.value ≡ 0 ∷ []) × (s.k ≡ 0) × (s.version ≡ One) };

    fn default() -> Step {
        Step {
            value: Value::default(),
            k: 0,
            version: Version::One,
        }
    }
}

impl Step {
    /// The same step once more. It takes no memory.
    pub fn copy(&self) -> Step
        ensures { result ≡ self.now }
    {
        Step {
            value: self.value.copy(),
            k: self.k,
            version: self.version,
        }
    }
}

/// The steps to an opened group, the outermost first, held in place. Paths are compared step by
/// step, a proper prefix first.
#[derive(Clone, Debug, Drop, PartialEq, Eq, PartialOrd, Ord)]
pub struct Path {
    steps: ArrayVec<Step, MAX_STEPS>,
}

impl Model for Path {
    ghost use Rattle.std.specs.Prelude.{◌≤◌, List, length};
    ghost use Rattle.layer_walk.specs.declared.path.Step.{Step};
    ghost use Rattle.layer_walk.specs.declared.path.TheConstants.{MAX_STEPS};

    ghost Value = { List Step };

    ghost view = { λ p. p.steps.items };

    ghost invariant = { λ p. length p.steps.items ≤ MAX_STEPS };

    ghost inverse = { λ d. record { steps = record { items = d } } };
}

impl Path {
    /// No steps.
    pub fn new() -> Path
        ensures { result ≡ [] }
    {
        Path {
            steps: ArrayVec::new(),
        }
    }

    /// Puts a step last.
    pub fn push(&mut self, item: Step)
        requires { length self.old < MAX_STEPS }
        ensures { self.new ≡ self.old ++ item ∷ [] }
    {
        self.steps.push(item);
    }

    /// The steps.
    pub fn as_slice(&self) -> &[Step]
        ensures value { result.now ≡ self.now }
        ensures few { length self.now ≤ MAX_STEPS }
    {
        self.steps.as_slice()
    }

    /// The path with one more step. It takes no memory.
    pub fn with(&self, step: Step) -> Path
        requires { length self.now < MAX_STEPS }
        ensures { result ≡ self.now ++ step ∷ [] }
    {
        let mut path = Path::new();
        for one in self.steps.as_slice() {
            path.push(one.copy());
        }
        path.push(step);
        path
    }
}
