//! Devices: reading a source whole, and writing a text whole, or only its front if the device failed.
//!
//! It promises the whole source or a cause, and a text of which the device has a front; over bytes in memory a
//! call never fails by the device. Begin with the traits `Source` and `Sink`.
//!
//! It doesn't promise which bytes a device gives, nor that bytes that it took have arrived.
#![tactic(auto)]

ghost use Rattle.std.specs.Prelude.{◌≡◌, false};
ghost use Rattle.ee_io.specs.Written.{WritesFront};

mod reading;
mod sink;
mod source;

pub use reading::{ReadFault, read_whole};
pub use sink::Sink;
pub use source::Source;

/// Writes the text, and returns whether the writer took all of it. Stops at the first failed write, without
/// a second try; an interrupted write, and one that takes no byte, is a failed one. The writer has then
/// taken only the front of the text.
pub fn write_whole<W: Sink>(writer: &mut W, text: &[u8]) -> bool
    ensures written { WritesFront (W.contents writer.old) (W.contents writer.new) text.now result }
    ensures failed { result ≡ false → W.may_have_failed writer.new }
{
    let mut rest = text;
    while !rest.is_empty() {
        match writer.write_once(rest) {
            Ok(count) if count > 0 => rest = &rest[count..],
            _ => return false,
        }
    }
    true
}
