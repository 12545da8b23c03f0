ghost use Rattle.std.specs.Prelude.{◌≡◌, None};

use rd_base::{Sink, SinkFailed};

/// Standard output.
#[derive(Drop)]
pub struct Output<'a, R: Print> {
    rt: &'a R,
    faults: u64,
}

impl<'a, R: Print> Output<'a, R> {
    pub fn new(rt: &'a R) -> Output<'a, R>
        ensures { result.faults ≡ 0 }
    {
        Output { rt, faults: 0 }
    }
}

/// It tells nothing of what was written: no contract says what the system takes.
impl<R: Print> Sink for Output<'_, R> {
    ghost written = { λ _. None };

    ghost faults = { λ o. o.faults };

    /// Taking no byte of a piece that has one is a fault too.
    fn write(&mut self, bytes: &[u8]) -> Result<usize, SinkFailed> {
        match self.rt.write_some(bytes) {
            Ok(count) if count > 0 || bytes.is_empty() => Ok(count),
            _ => {
                self.faults = self.faults.saturating_add(1);
                Err(SinkFailed)
            }
        }
    }
}
