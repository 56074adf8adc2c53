// What a desk did at its last turn, and the bytes that it stands for.
ghost use Rattle.std.specs.Prelude.{◌≡◌};
ghost use Rattle.desk_side.specs.Desks.{outputs_of};
ghost use Rattle.desk_side.specs.Turns.{Says};

use crate::desk::Desk;
use crate::output::Output;

impl Desk {
    pub fn outputs(&self) -> &[Output]
        ensures { result.now ≡ outputs_of self.now }
    {
        self.memory.outputs.as_slice()
    }

    // The message to the house that an output stands for; what is told stands in the message that came, or says 11.
    pub fn message(&self, output: Output) -> Option<&[u8]>
        ensures { Says self.now output result }
    {
        match output {
            Output::Hello | Output::Alive => Some(self.memory.greeting.as_slice()),
            Output::Request { slot } => Some(self.memory.requests.get(slot)),
            Output::Tell { .. } | Output::Busy { .. } => None,
        }
    }
}
