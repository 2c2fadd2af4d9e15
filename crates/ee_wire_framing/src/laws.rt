//! Laws of the definitions. The clauses state the laws.
ghost use Rattle.std.specs.Prelude.{◌≡◌, List, ℕ};
ghost use Rattle.ee_wire_framing.specs.Inner.Reading.{IsFront};
ghost use Rattle.ee_wire_framing.specs.Framing.{most_head, most_fields, most_body, most_held, Message, Ending, ending_of, Splits};

use crate::front::{Front, read_front};
use crate::head::{Lines, find_head};
use crate::{BODY_LIMIT, BUFFER_LIMIT, FEW_HEADERS, FramingFault, HEAD_LIMIT, HEADER_LIMIT};
use httparse::spans::{EMPTY_HEADER_SPAN, HeaderSpan};

/// The limits in the code equal those in the definitions.
pub const fn limits_law()
    ensures head { HEAD_LIMIT ≡ most_head }
    ensures fields { HEADER_LIMIT ≡ most_fields }
    ensures body { BODY_LIMIT ≡ most_body }
    ensures held { BUFFER_LIMIT ≡ most_held }
{}

/// A stream can be split in only one way.
pub const fn one_split_law()
    ensures { (bytes : List ℕ) (ms ns : List Message) (d e : Ending) → Splits bytes ms d → Splits bytes ns e → (ms ≡ ns) × (d ≡ e) }
{}

#[tactic(auto, using(crate::proofs::Tested::none_tested))]
fn front_of(bytes: &[u8], headers: &mut [HeaderSpan]) -> Front
    ensures { IsFront bytes.now result }
{
    read_front(bytes, find_head(bytes, Lines::Empty(0), 0, headers))
}

/// Every slice of bytes splits into messages, followed by nothing or by this fault.
pub fn every_split_law(bytes: &[u8]) -> Option<FramingFault>
    ensures { (ms : List Message) × Splits bytes.now ms (ending_of result) }
{
    let mut headers = [EMPTY_HEADER_SPAN; FEW_HEADERS];
    let mut at = 0;
    loop {
        let rest = &bytes[at..];
        match front_of(rest, &mut headers) {
            Front::Message(_, len) => at += len,
            Front::Fault(fault) => return Some(fault),
            Front::More if rest.is_empty() => return None,
            Front::More => return Some(FramingFault::Truncated),
        }
    }
}
