//! The tree diagram of a module, into a buffer.

ghost use Rattle.std.specs.Prelude.{◌≡◌, IfOk};
ghost use Rattle.yspec.specs.schema.Diagram.{diagram};
ghost use Rattle.yschema.specs.View.{view};

use std::alloc::Global;
use ybase_output::{CallCount, Sink, SinkFault};
use ydiagram::{DiagramFault, write};
use yschema::Schema;

/// A sink that keeps what it takes.
#[derive(Drop)]
pub struct Buffer {
    bytes: Vec<u8>,
    failures: CallCount,
}

impl Sink for Buffer {
    ghost use Rattle.std.specs.Prelude.{◌≡◌, ◌+◌, ◌≤◌, Some, IfOk, OnErr, length, take};
    ghost use Rattle.ybase_output.specs.Sink.{followed_by, failed_calls};

    ghost taken = { λ b. Some b.bytes.items };

    ghost failures = { λ b. b.failures.calls };

    fn write(&mut self, part: &[u8]) -> Result<usize, SinkFault>
        ensures length { IfOk result (λ n. n ≤ length part.now) }
        ensures ok { IfOk result (λ n. ⟦<Buffer as Sink>⟧.taken self.new
            ≡ followed_by (⟦<Buffer as Sink>⟧.taken self.old) (take n part.now)) }
        ensures err { OnErr result (⟦<Buffer as Sink>⟧.taken self.new
            ≡ ⟦<Buffer as Sink>⟧.taken self.old) }
        ensures counted { ⟦<Buffer as Sink>⟧.failures self.new
            ≡ ⟦<Buffer as Sink>⟧.failures self.old + failed_calls result part.now }
    {
        if self.bytes.extend_from_slice(part).is_err() {
            self.failures.rise();
            return Err(SinkFault);
        }
        Ok(part.len())
    }
}

/// The tree diagram of the module of a number in the set. Its text is made where memory suffices for it.
pub fn diagram_of(alloc: Global, schema: &Schema, module: usize) -> Result<Vec<u8>, DiagramFault>
    ensures { IfOk result (λ bytes. bytes.items ≡ diagram (view schema.now) «module») }
{
    let mut buffer = Buffer {
        bytes: Vec::new(alloc),
        failures: CallCount::new(),
    };
    write(schema, module, &mut buffer)?;
    let Buffer { bytes, .. } = buffer;
    Ok(bytes)
}
