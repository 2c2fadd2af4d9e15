//! The texts of statuses.

ghost use Rattle.std.specs.Prelude.{◌≡◌, ◌≤◌, length};
ghost use Rattle.ee_value_c.specs.Statuses.{status_text, text_into};

/// The text of a status.
pub const fn status_text(status: u32) -> &'static str
    ensures text { result.now ≡ status_text status }
    ensures short { length result.now ≤ 63 }
{
    match status {
        0 => "done",
        1 => "the dollars are no denomination",
        2 => "the month of issue is no month from 200505 to 209912",
        3 => "the month is no month from 200505 to 219912",
        4 => "the rate is above 20 percent",
        5 => "the rate of extended maturity is above 20 percent",
        6 => "the month is before the month of issue",
        7 => "the bond can't be redeemed before 12 months",
        8 => "the precision doesn't settle the value",
        _ => "no status of this library",
    }
}

/// Writes as much of a text as fits into a buffer, followed by a byte 0.
#[tactic(auto, unfolding(crate::specs::Statuses::text_into))]
pub fn put_text(text: &str, buffer: &mut [u8])
    ensures { buffer.new ≡ text_into text.now buffer.old }
{
    if buffer.is_empty() {
        return;
    }
    let text = text.as_bytes();
    let count = text.len().min(buffer.len() - 1);
    buffer[..count].copy_from_slice(&text[..count]);
    buffer[count] = 0;
}
