//! What the messages of a connection ask for.

ghost use Rattle.ee_wire_calls.specs.Calls.{decoded, IsUnlessMemory};

use ee_wire::{Call, Routes, WireFault, decode, decode_with};
use std::alloc::Global;

/// Decodes the messages of a connection by routes that were made once or, if memory was refused to them, by
/// routes that are made for each message.
#[derive(Drop)]
pub struct Decoder {
    alloc: Global,
    routes: Option<Routes>,
}

impl Decoder {
    pub fn new(alloc: Global) -> Decoder {
        Decoder {
            alloc,
            routes: Routes::new(alloc).ok(),
        }
    }

    pub fn alloc(&self) -> Global {
        self.alloc
    }

    /// What a message asks for.
    pub fn decode(&self, target: &[u8], method: &[u8], body: &[u8]) -> Result<Call, WireFault>
        ensures { IsUnlessMemory result (decoded target.now method.now body.now) }
    {
        match &self.routes {
            Some(routes) => decode_with(self.alloc, routes, target, method, body),
            None => decode(self.alloc, target, method, body),
        }
    }
}
