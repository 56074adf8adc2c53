// What a desk did at its last turn.
ghost use Rattle.std.specs.Prelude.{◌≡◌, ℕ, ◌+◌, ◌<◌, ◌≤◌, [], ◌∷◌, ◌++◌, length, vec_capacity};

use crate::output::Output;
use crate::slot::SLOTS;
use std::alloc::{AllocError, Global};

// At most something for each slot: there is room for as much.
#[derive(Drop)]
pub(crate) struct Outputs {
    list: Vec<Output>,
    ghost spacious: { 8 ≤ vec_capacity list },
}

impl Outputs {
    ghost use Rattle.std.specs.Prelude.{IfOk};
    ghost use Rattle.desk_side.specs.View.{outputs_in};

    pub(crate) fn new(heap: Global) -> Result<Outputs, AllocError>
        ensures { IfOk result (λ outputs. outputs_in outputs ≡ []) }
    {
        let list = Vec::with_capacity(heap, SLOTS)?;
        Ok(Outputs { list })
    }

    pub(crate) fn as_slice(&self) -> &[Output]
        ensures { result.now ≡ outputs_in self.now }
    {
        self.list.as_slice()
    }

    pub(crate) fn clear(&mut self)
        ensures { outputs_in self.new ≡ [] }
    {
        self.list.clear();
    }

    pub(crate) fn push(&mut self, output: Output)
        requires { length (outputs_in self.old) < 8 }
        ensures { outputs_in self.new ≡ outputs_in self.old ++ output ∷ [] }
    {
        self.list.push_reserved(output);
    }

    // This is done, and nothing else in this turn.
    pub(crate) fn put_alone(&mut self, output: Output)
        ensures { outputs_in self.new ≡ output ∷ [] }
    {
        self.clear();
        self.push(output);
    }
}
