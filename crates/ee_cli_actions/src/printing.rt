//! Printing a text.

ghost use Rattle.std.specs.Prelude.{◌≡◌, IfErr, OnErr, is_ok};
ghost use Rattle.ee_io.specs.Written.{WritesFront};

use crate::faults::RunFault;
use ee_io::{Sink, write_whole};

/// Prints the text: all of it, or only its front if the output failed, which is `Device`.
pub fn print<W: Sink>(text: &str, output: &mut W) -> Result<(), RunFault>
    ensures printed { WritesFront (W.contents output.old) (W.contents output.new) text.now (is_ok result) }
    ensures fault { IfErr result (λ fault. fault ≡ RunFault.Device) }
    ensures device { OnErr result (W.may_have_failed output.new) }
{
    if write_whole(output, text.as_bytes()) {
        Ok(())
    } else {
        Err(RunFault::Device)
    }
}
