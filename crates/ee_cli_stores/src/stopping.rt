//! A line that is cut off, as its files stop. The program doesn't run it: what a stop leaves is proved of this line.

ghost use Rattle.std.specs.Prelude.{◌≡◌, ◌⊎◌, ◌*◌, IfErr, IfOk, map, string_bytes};
ghost use Rattle.sqlite.specs.Files.{file_state, image_of};
ghost use Rattle.sqlite.specs.Recovery.{Image};
ghost use Rattle.ee_desk_model.specs.Repeats.{Content};
ghost use Rattle.ee_store_schema.specs.declared.faults.OpenFault.{OpenFault};
ghost use Rattle.ee_store_tables.specs.Rows.{HasRoom};
ghost use Rattle.ee_cli_program.specs.Statuses.{HasRun, IsRun};
ghost use Rattle.ee_store.specs.History.{HasLeft};
ghost use Rattle.ee_store.specs.Holding.{AreSettled};
ghost use Rattle.ee_store.specs.NextRun.{HoldsContent};
ghost use Rattle.ee_cli_stores.specs.Faults.{HandsBack, IsStill};
ghost use Rattle.ee_cli_stores.specs.Running.{DoesInFiles, MayBeStopped};

use crate::files::{Refused, fault_of, left_of};
use crate::laws::lines_law;
use ee_cli_actions::{RunFault, StoreFault};
use ee_cli_program::{Host, Ran, Stores, Stream, Unopened, run_words};
use ee_io::{Sink, Source};
use ee_store::{SqlKeeper, open_on};
use sqlite::{FileStore, Files, Options};
use sqlite_disk::Disk;
use std::alloc::Global;
use std::io::Write;

/// The store in two files, which is opened as `StoreFiles` opens one, and is never closed. The files are of any kind: also
/// of one that passes on so many calls, fails each later one, and then changes nothing (`Fuse` of `sqlite_disk`).
#[derive(Drop)]
pub struct StoppingFiles<D: Disk> {
    pub alloc: Global,
    pub files: Files<D>,
    pub options: Options,
}

impl<D: Disk + Drop> Stores for StoppingFiles<D> {
    type Store = SqlKeeper<FileStore<D>>;

    type Rest = ();

    type Refused = Refused<D>;

    type Left = FileStore<D>;

    // Both files together held that content: a store of either version, whatever its log has, or no store yet.
    ghost holds = { λ stores _ content. HoldsContent (image_of D.Disk stores.files) content };

    // Each file held what these events led to from that content.
    ghost opens = { λ stores _ start events. HasLeft start events (image_of D.Disk stores.files) };

    ghost has_room = { λ n store. HasRoom (501 * n) (file_state store.conn) };

    // None comes to rest.
    ghost rests = { λ _ _. ⊥ };

    // What the files held is still there, if a crash left of them what they held, as when they were opened.
    ghost refuses = { λ stores _ _ left. AreSettled D.Disk stores.files → (cause : OpenFault) × IsStill (image_of D.Disk stores.files) cause left };

    // A crash leaves of it what it could leave of the store.
    ghost keeps = { λ store last. HandsBack store.conn last };

    fn open(self, path: &str) -> Result<SqlKeeper<FileStore<D>>, Unopened<Refused<D>>> {
        let StoppingFiles {
            alloc,
            files,
            options,
        } = self;
        if !files.may_be_used() {
            return Err(Unopened {
                fault: RunFault::Store(StoreFault::StoreFailed),
                cause: None,
                rest: Refused::Nothing,
            });
        }
        match open_on(alloc, files, options) {
            Ok(keeper) => {
                // For the proof alone, as in `StoreFiles`.
                lines_law::<D>();
                Ok(keeper)
            }
            Err(not) => Err(Unopened {
                fault: fault_of(not.fault),
                cause: not.cause,
                rest: left_of(not.rest),
            }),
        }
    }

    fn close(store: SqlKeeper<FileStore<D>>) -> Result<(), FileStore<D>>
        ensures rests { IfOk result (λ _. ⊥) }
        ensures keeps { IfErr result (λ last. HandsBack store.conn last) }
    {
        Err(store.stop())
    }
}

/// Runs the line of these words as `run_line` does, over two files that may stop. That is the line which is cut off, if they
/// stop after as many calls as it made of either until then, whichever these numbers are: it makes the same calls, and no
/// later one changes what a stop leaves of the files. Its clauses are those that `run_line` has, if a crash left of the files
/// what they held as they were opened (`AreSettled`). They are found as a stop leaves them (`MayBeStopped`).
pub fn run_stopped<H: Host, D: Disk + Drop, R: Source + Stream, W: Sink + Stream, E: Write>(
    host: &H,
    stores: StoppingFiles<D>,
    words: &[String],
    explains: bool,
    input: &mut R,
    output: &mut W,
    faults: &mut E,
) -> Ran<StoppingFiles<D>, Refused<D>, (), FileStore<D>>
    ensures line { AreSettled D.Disk stores.files → (c : Content) → HoldsContent (image_of D.Disk stores.files) c
        → (found : Image) → MayBeStopped (image_of D.Disk stores.files) result.left found
        → HasRun (map (λ w. string_bytes w) words.now)
        (DoesInFiles (image_of D.Disk stores.files) found c (H.file host.now) (H.coming host.now) (R.remaining input.old) (R.remaining input.new) (W.contents output.old) (W.contents output.new)) result.status
        ⊎ (found ≡ image_of D.Disk stores.files) }
    ensures ends { AreSettled D.Disk stores.files → (c : Content) → HoldsContent (image_of D.Disk stores.files) c
        → (found : Image) → MayBeStopped (image_of D.Disk stores.files) result.left found
        → IsRun (map (λ w. string_bytes w) words.now)
        (DoesInFiles (image_of D.Disk stores.files) found c (H.file host.now) (H.coming host.now) (R.remaining input.old) (R.remaining input.new) (W.contents output.old) (W.contents output.new))
        ((found ≡ image_of D.Disk stores.files) × (W.contents output.new ≡ W.contents output.old)) result.status }
{
    lines_law::<D>();
    run_words(host, stores, words, explains, input, output, faults)
}
