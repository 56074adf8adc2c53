// A message that is written where it stands.
ghost use Rattle.std.specs.Prelude.{◌≡◌, ◌≤◌, vec_capacity};
ghost use Rattle.codec.specs.Messages.{encode_msg};
ghost use Rattle.messages.specs.Views.{msg_of, message_size, MessageFits};

use messages::{Message, write_message};
use std::alloc::{AllocError, Global};

// How many bytes a Hello or an Alive has.
const LENGTH: usize = 21;

// The last Hello or Alive.
#[derive(Drop)]
pub(crate) struct Greeting {
    bytes: Vec<u8>,
    ghost spacious: { 21 ≤ vec_capacity bytes },
}

impl Greeting {
    ghost use Rattle.desk_side.specs.View.{greeting_in};

    pub(crate) fn new(heap: Global) -> Result<Greeting, AllocError> {
        let bytes = Vec::with_capacity(heap, LENGTH)?;
        Ok(Greeting { bytes })
    }

    pub(crate) fn as_slice(&self) -> &[u8]
        ensures { result.now ≡ greeting_in self.now }
    {
        self.bytes.as_slice()
    }

    pub(crate) fn write(&mut self, message: Message<'_>)
        requires fits { MessageFits (msg_of message) }
        requires room { message_size (msg_of message) ≤ 21 }
        ensures { greeting_in self.new ≡ encode_msg (msg_of message.entry) }
    {
        self.bytes.clear();
        write_message(&mut self.bytes, message).unwrap();
    }
}
