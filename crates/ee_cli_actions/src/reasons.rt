//! Why a connection ended, as printed.

use ee_counter::Why;
use ee_wire::WireFault;
use std::fmt;

/// The name of what ended a connection; for a framing fault, `Fault` and its code, as `Fault 63`.
#[derive(Clone, Copy)]
pub struct Reason(pub Why);

impl fmt::Display for Reason {
    ghost use Rattle.std.specs.Prelude.{Some};
    ghost use Rattle.ee_cli_actions.specs.Printed.{why_text};

    ghost output = { λ reason. Some (why_text reason.0) };

    fn fmt<W: fmt::Write>(&self, f: &mut fmt::Formatter<W>) -> fmt::Result {
        match self.0 {
            Why::Closed => f.write_str("Closed"),
            Why::Asked => f.write_str("Asked"),
            Why::Limit => f.write_str("Limit"),
            Why::Fault(cause) => {
                let code = WireFault::Framing(cause).code();
                write!(f, "Fault {code}")
            }
            Why::ReadFailed => f.write_str("ReadFailed"),
            Why::WriteFailed => f.write_str("WriteFailed"),
            Why::NoMemory => f.write_str("NoMemory"),
        }
    }
}
