//! Running one command line over a store in files.

ghost use Rattle.std.specs.Prelude.{◌≡◌, ◌⊎◌, ℕ, Ok, Option, map, string_bytes};
ghost use Rattle.std.specs.Io.KnownBytes.{Appends};
ghost use Rattle.sqlite.specs.Recovery.{Image};
ghost use Rattle.sqlite.specs.WalFiles.{image_at};
ghost use Rattle.ee_desk_model.specs.Repeats.{Content};
ghost use Rattle.ee_units.specs.declared.denoms.Denom.{Denom};
ghost use Rattle.ee_value.specs.Chain.{rates_with};
ghost use Rattle.ee_cli_value.specs.Printed.{value_line};
ghost use Rattle.ee_cli_commands.specs.Answer.{AsksForVersion, IsAsked};
ghost use Rattle.ee_cli_commands.specs.CommandLine.{value};
ghost use Rattle.ee_cli_program.specs.Statuses.{Carries, HasRun, IsRun, version_line};
ghost use Rattle.ee_store.specs.NextRun.{HoldsContent};
ghost use Rattle.ee_cli_stores.specs.Running.{DoesInFiles, MayBeFound};

use crate::files::{Refused, StoreFiles, Unclosed};
use crate::laws::lines_law;
use ee_cli_program::{Host, Ran, Stream, run_words};
use ee_io::{Sink, Source};
use sqlite::{FileFrom, Files, Start};
use std::io::Write;

/// Runs the line of these words, as `run_words` does, over a store in files; the start of `stores` represents what its two
/// files held when they were opened.
///
/// - `line`: if the files held this content, and are found so afterwards, as they read or as a stop of the machine leaves
///   them (`MayBeFound`), the line did what its command is to do at that content. The files hold what it left, and its
///   requests are the events that led there (`DoesInFiles`). They are those in its input, in the file that `host` opened, or
///   in what was read from the connections that came to its port. Or it opened no store, and they are as they were.
/// - `ends`: the same by the exit status.
/// - `status`, `printed`, `version`: as of `run_words`.
///
/// The law of lines in a row (`lines_law`, `accounts`) takes `line` and `ends` of each line.
pub fn run_line<'a, H: Host, F: Start + Drop, R: Source + Stream, W: Sink + Stream, E: Write>(
    host: &H,
    stores: StoreFiles<'a, F>,
    words: &[String],
    explains: bool,
    input: &mut R,
    output: &mut W,
    faults: &mut E,
) -> Ran<StoreFiles<'a, F>, Refused<FileFrom<F>>, Files<FileFrom<F>>, Unclosed<FileFrom<F>>>
    ensures line { (c : Content) → HoldsContent (image_at F.Start) c → (found : Image) → MayBeFound (image_at F.Start) result.left found
        → HasRun (map (λ w. string_bytes w) words.now)
        (DoesInFiles (image_at F.Start) found c (H.file host.now) (H.coming host.now) (R.remaining input.old) (R.remaining input.new) (W.contents output.old) (W.contents output.new)) result.status
        ⊎ (found ≡ image_at F.Start) }
    ensures ends { (c : Content) → HoldsContent (image_at F.Start) c → (found : Image) → MayBeFound (image_at F.Start) result.left found
        → IsRun (map (λ w. string_bytes w) words.now)
        (DoesInFiles (image_at F.Start) found c (H.file host.now) (H.coming host.now) (R.remaining input.old) (R.remaining input.new) (W.contents output.old) (W.contents output.new))
        ((found ≡ image_at F.Start) × (W.contents output.new ≡ W.contents output.old)) result.status }
    ensures status { IsRun (map (λ w. string_bytes w) words.now) (Carries (W.contents output.old) (W.contents output.new))
        (W.contents output.new ≡ W.contents output.old) result.status }
    ensures printed { (denom : Denom) (issued month rate : ℕ) (extension : Option ℕ)
        → IsAsked (map (λ w. string_bytes w) words.now) (Ok (value denom issued month rate extension)) → result.status ≡ 0
        → Appends (W.contents output.old) (W.contents output.new) (value_line denom issued month (rates_with rate extension)) }
    ensures version { AsksForVersion (map (λ w. string_bytes w) words.now) → result.status ≡ 0
        → Appends (W.contents output.old) (W.contents output.new) version_line }
{
    lines_law::<FileFrom<F>>();
    run_words(host, stores, words, explains, input, output, faults)
}
