//! Tells a damaged log from one that a loss of power left torn. Nothing is written.
//!
//! Each transaction is synced before the next is begun. So behind the last frame that recovery takes, a stop
//! leaves one transaction at most. If two stand there, or the count with which a later one begins, a frame before
//! them was damaged, and recovery would drop replies that were given. A page without its checksum was written by
//! another program.

ghost use Rattle.std.specs.Prelude.{◌≡◌, ◌⊎◌, ◌+◌, ◌^◌, ◌%◌, ◌<◌, ◌≤◌, ◌↔◌, ◌≢◌, ℕ, false, length, IsTrue, IfOk, IfErr, OnOk, MatchOption};
ghost use Rattle.sqlite_disk.specs.Disk.{CountsFault, CountsFaultIf};
ghost use Rattle.sqlite_wal.specs.Format.{part, be32, is_big, frame_sum, count_page, stored_sum, IsSigned};
ghost use Rattle.sqlite_wal.specs.Recovery.{frame_at, frames_len as wal_len, header};
ghost use Rattle.sqlite_wal.specs.Reads.{IsClean, AreClean, OnlyReads};
ghost use Rattle.sqlite_wal.specs.PageSize.{bytes_of};
ghost use Rattle.sqlite_pool.specs.Stored.{sum_bytes};
ghost use Rattle.sqlite.specs.Opening.{is_open_error};
ghost use Rattle.sqlite.specs.Files.{image_of, faults_of};
ghost use Rattle.ee_store_files.specs.Damage.{BeginsAsLog, HasLostHeader, IsOpenAt, EndsOne, HasTwoMore, IsUnwritten, HasCountBehind, page_at, IsSummed, size_after, LacksSum, HasUnsummed, SaysSums, IsWrongAt, IsDamaged};
ghost use Rattle.ee_store_files.specs.Inner.Damage.{IsFrontOf, IsFrameAt, IsLateCountAt, AreNumbersOf, IsReplaced};
ghost use Rattle.ee_store_files.specs.Opening.{Fails};
ghost use Rattle.ee_store_files.specs.Inner.Opening.{FailsToRead, IsLongFor};

use crate::errors::{DAMAGED, FULL, IO, NO_MEMORY, probe_error};
use sqlite::{Error, Files};
use sqlite_disk::Disk;
use sqlite_pager::PageSize;
use sqlite_wal::{checksum_of, probe_frames};
use std::alloc::Global;
use std::io;

/// The length of the log's header.
const HEADER: usize = 32;

/// The length of a frame's header.
const FRAME: usize = 24;

/// The offset of the salt in the log's header.
const SALT: usize = 16;

/// The offset of a frame's salt. Its first byte is the gate.
const GATE: usize = 8;

/// The offset of a frame's checksum.
const SUM: usize = 16;

/// The page number of a frame that counts what its transaction lacks.
const COUNT_PAGE: u32 = 0xff00_0000;

/// The number at offset 20 of a database file whose pages end in checksums.
const WITH_SUMS: u32 = 0x0840_2020;

/// The four bytes at `at` as a number, the highest first.
pub fn be32_at(bytes: &[u8], at: usize) -> u32
    requires { at + 4 ≤ length bytes.now }
    ensures { result ≡ be32 bytes.now at }
{
    bytes[at] as u32 * 0x100_0000
        + bytes[at + 1] as u32 * 0x1_0000
        + bytes[at + 2] as u32 * 0x100
        + bytes[at + 3] as u32
}

/// Whether the header passes its checksum.
pub fn is_signed(head: &[u8; 32]) -> bool
    ensures { IsTrue result ↔ IsSigned head.now }
{
    if head[0] != 0x37 || head[1] != 0x7f || head[2] != 0x06 {
        return false;
    }
    if head[3] != 0x82 && head[3] != 0x83 {
        return false;
    }
    checksum_of(head[3] == 0x83, (0, 0), &head[..24]) == (be32_at(head, 24), be32_at(head, 28))
}

/// Reads the log's header, if the file begins as a log.
pub fn read_header<D: Disk>(log: &mut D) -> io::Result<Option<[u8; 32]>>
    requires { IsTrue (D.Disk.is_usable log.old) }
    ensures ok { IfOk result (λ r. IsClean D.Disk log.new → MatchOption r (¬ BeginsAsLog (D.Disk.seen log.old))
        (λ head. BeginsAsLog (D.Disk.seen log.old) × (head ≡ header (D.Disk.seen log.old)))) }
    ensures faults { CountsFault result (D.Disk.faults log.old) (D.Disk.faults log.new) }
    ensures same { OnlyReads D.Disk log.old log.new }
{
    if log.len()? < HEADER + FRAME {
        return Ok(None);
    }
    let mut head = [0; 32];
    log.read_at(0, &mut head)?;
    if head[0] == 0x37 {
        Ok(Some(head))
    } else {
        Ok(None)
    }
}

/// Whether a file that doesn't begin as a log has room for a frame, and lacks a header that is being written.
fn has_lost_header<D: Disk>(log: &mut D) -> io::Result<bool>
    requires { IsTrue (D.Disk.is_usable log.old) }
    ensures ok { IfOk result (λ b. IsClean D.Disk log.new → (IsTrue b ↔ HasLostHeader (D.Disk.seen log.old))) }
    ensures faults { CountsFault result (D.Disk.faults log.old) (D.Disk.faults log.new) }
    ensures same { OnlyReads D.Disk log.old log.new }
{
    let len = log.len()?;
    if len < HEADER + FRAME {
        return Ok(false);
    }
    let mut first = [0; 3];
    log.read_at(0, &mut first)?;
    Ok(first[0] != 0x37 && (first[1] != 0x7f || first[2] != 0x06))
}

/// The length of `frames` frames with their headers.
fn frames_len(page_size: usize, frames: usize) -> usize
    requires size { page_size ≤ 65536 }
    requires few { frames ≤ 0xffff_ffff }
    ensures len { result ≡ wal_len page_size frames }
    ensures small { result < 2 ^ 50 }
{
    frames * (FRAME + page_size)
}

/// The offset of frame `i`.
fn frame_offset(page_size: usize, i: usize) -> usize
    requires size { page_size ≤ 65536 }
    requires few { i ≤ 0xffff_ffff }
    ensures at { result ≡ frame_at page_size i }
    ensures small { result < 2 ^ 51 }
{
    HEADER + frames_len(page_size, i)
}

/// Reads the header of frame `i`, if the file has all of the frame.
fn read_front<D: Disk>(
    log: &mut D,
    len: usize,
    page_size: usize,
    i: usize,
) -> io::Result<Option<[u8; 24]>>
    requires usable { IsTrue (D.Disk.is_usable log.old) }
    requires len { IsClean D.Disk log.old → len ≡ length (D.Disk.seen log.old) }
    requires size { page_size ≤ 65536 }
    requires few { i ≤ 0xffff_ffff }
    ensures ok { IfOk result (λ r. IsClean D.Disk log.new → MatchOption r (length (D.Disk.seen log.old) < frame_at page_size i + (24 + page_size))
        (λ front. IsFrontOf page_size (D.Disk.seen log.old) i front)) }
    ensures faults { CountsFault result (D.Disk.faults log.old) (D.Disk.faults log.new) }
    ensures same { OnlyReads D.Disk log.old log.new }
{
    let at = frame_offset(page_size, i);
    if len < at + (FRAME + page_size) {
        return Ok(None);
    }
    let mut front = [0; 24];
    log.read_at(at, &mut front)?;
    Ok(Some(front))
}

/// Whether a frame with this header ends a transaction of the log with the header `head`.
fn is_end(front: &[u8; 24], head: &[u8; 32]) -> bool
    ensures { IsTrue result ↔ ((part front.now 8 8 ≡ part head.now 16 8) × (be32 front.now 4 ≢ 0)) }
{
    if front[8..16] != head[16..24] {
        return false;
    }
    be32_at(front, 4) != 0
}

/// Whether frame `i` ends a transaction of the log with this header; `None` if the file ends before it, or its
/// gate is shut.
fn ends_one<D: Disk>(
    log: &mut D,
    len: usize,
    head: &[u8; 32],
    page_size: usize,
    i: usize,
) -> io::Result<Option<bool>>
    requires usable { IsTrue (D.Disk.is_usable log.old) }
    requires len { IsClean D.Disk log.old → len ≡ length (D.Disk.seen log.old) }
    requires head { IsClean D.Disk log.old → head.now ≡ header (D.Disk.seen log.old) }
    requires size { page_size ≤ 65536 }
    requires few { i ≤ 0xffff_ffff }
    ensures ok { IfOk result (λ r. IsClean D.Disk log.new → MatchOption r (¬ IsOpenAt page_size (D.Disk.seen log.old) i)
        (λ b. IsOpenAt page_size (D.Disk.seen log.old) i × (IsTrue b ↔ EndsOne page_size (D.Disk.seen log.old) i))) }
    ensures faults { CountsFault result (D.Disk.faults log.old) (D.Disk.faults log.new) }
    ensures same { OnlyReads D.Disk log.old log.new }
{
    let Some(front) = read_front(log, len, page_size, i)? else {
        return Ok(None);
    };
    if front[GATE] != head[SALT] {
        return Ok(None);
    }
    Ok(Some(is_end(&front, head)))
}

/// Whether two transactions of the log stand behind its first `from` frames, with no gate shut up to the second.
///
/// # Errors
///
/// A log of 2^32 frames is refused as full, as recovery refuses it.
fn has_two_more<D: Disk>(
    log: &mut D,
    head: &[u8; 32],
    page_size: usize,
    from: usize,
) -> Result<bool, Error>
    requires usable { IsTrue (D.Disk.is_usable log.old) }
    requires head { IsClean D.Disk log.old → head.now ≡ header (D.Disk.seen log.old) }
    requires size { page_size ≤ 65536 }
    ensures named { IfErr result (λ e. IsTrue (is_open_error e)) }
    ensures ok { IfOk result (λ b. IsClean D.Disk log.new → (IsTrue b ↔ HasTwoMore page_size (D.Disk.seen log.old) from)) }
    ensures few { OnOk result (from ≤ 0xffff_ffff) }
    ensures counts { D.Disk.faults log.old ≤ D.Disk.faults log.new }
    ensures cause { IfErr result (λ e. IsClean D.Disk log.new → frame_at page_size from ≤ length (D.Disk.seen log.old)
        → Fails (D.Disk.faults log.old) (D.Disk.faults log.new) (IsLongFor page_size (D.Disk.seen log.old)) e) }
    ensures same { OnlyReads D.Disk log.old log.new }
{
    let Ok(len) = log.len() else {
        return Err(IO);
    };
    let mut has_one = false;
    for i in from..0xffff_ffff {
        match ends_one(log, len, head, page_size, i) {
            Ok(None) => return Ok(false),
            Ok(Some(false)) => {}
            Ok(Some(true)) if has_one => return Ok(true),
            Ok(Some(true)) => has_one = true,
            Err(_) => return Err(IO),
        }
    }
    Err(FULL)
}

/// The checksum that the frame has.
fn checksum_at(frame: &[u8]) -> (u32, u32)
    requires { 24 ≤ length frame.now }
    ensures { result ≡ stored_sum frame.now 16 }
{
    (be32_at(frame, SUM), be32_at(frame, SUM + 4))
}

/// Whether this frame is a count that passes its checksum behind a frame that has the checksum `before`, and has the
/// salt of the log with the header `head`, unless any will do.
fn is_count(head: &[u8; 32], before: (u32, u32), is_any: bool, frame: &[u8]) -> bool
    requires { 24 ≤ length frame.now }
    ensures { IsTrue result ↔ ((frame_sum (is_big head.now) before frame.now ≡ stored_sum frame.now 16) × (be32 frame.now 0 ≡ count_page)
        × ((part frame.now 8 8 ≡ part head.now 16 8) ⊎ IsTrue is_any)) }
{
    if be32_at(frame, 0) != COUNT_PAGE {
        return false;
    }
    if !is_any && frame[8..16] != head[16..24] {
        return false;
    }
    let is_big = head[3] == 0x83;
    let front = checksum_of(is_big, before, &frame[..8]);
    checksum_of(is_big, front, &frame[24..]) == checksum_at(frame)
}

/// Whether the header is doubted, and this frame leaves more pages than the file has.
fn leaves_more(is_doubted: bool, in_file: usize, frame: &[u8]) -> bool
    requires { 8 ≤ length frame.now }
    ensures { IsTrue result ↔ (IsTrue is_doubted × (in_file < be32 frame.now 4)) }
{
    is_doubted && in_file < be32_at(frame, 4) as usize
}

/// Reads frame `i`. `false` if the file ends before the frame does.
fn read_frame<D: Disk>(
    log: &mut D,
    len: usize,
    page_size: usize,
    i: usize,
    frame: &mut [u8],
) -> io::Result<bool>
    requires usable { IsTrue (D.Disk.is_usable log.old) }
    requires len { IsClean D.Disk log.old → len ≡ length (D.Disk.seen log.old) }
    requires size { page_size ≤ 65536 }
    requires few { i ≤ 0xffff_ffff }
    requires frame { length frame.old ≡ 24 + page_size }
    ensures read { IfOk result (λ b. IsClean D.Disk log.new → IsTrue b → IsFrameAt page_size (D.Disk.seen log.old) i frame.new) }
    ensures ends { IfOk result (λ b. IsClean D.Disk log.new → b ≡ false → length (D.Disk.seen log.old) < frame_at page_size i + (24 + page_size)) }
    ensures faults { CountsFault result (D.Disk.faults log.old) (D.Disk.faults log.new) }
    ensures same { OnlyReads D.Disk log.old log.new }
{
    let at = frame_offset(page_size, i);
    if len < at + (FRAME + page_size) {
        return Ok(false);
    }
    log.read_at(at, frame)?;
    Ok(true)
}

/// Whether a late count stands behind the frame after the log's first `from` frames. There is room for a frame.
fn finds_count<D: Disk>(
    log: &mut D,
    head: &[u8; 32],
    page_size: usize,
    from: usize,
    is_doubted: bool,
    in_file: usize,
    frame: &mut [u8],
) -> Result<bool, Error>
    requires usable { IsTrue (D.Disk.is_usable log.old) }
    requires head { IsClean D.Disk log.old → head.now ≡ header (D.Disk.seen log.old) }
    requires size { page_size ≤ 65536 }
    requires few { from ≤ 0xffff_ffff }
    requires frame { length frame.old ≡ 24 + page_size }
    ensures named { IfErr result (λ e. IsTrue (is_open_error e)) }
    ensures ok { IfOk result (λ b. IsClean D.Disk log.new → (IsTrue b ↔ ((i : ℕ) × (from < i) × IsLateCountAt is_doubted in_file page_size (D.Disk.seen log.old) i))) }
    ensures counts { D.Disk.faults log.old ≤ D.Disk.faults log.new }
    ensures cause { IfErr result (λ e. IsClean D.Disk log.new
        → Fails (D.Disk.faults log.old) (D.Disk.faults log.new) (IsLongFor page_size (D.Disk.seen log.old)) e) }
    ensures same { OnlyReads D.Disk log.old log.new }
{
    let Ok(len) = log.len() else {
        return Err(IO);
    };
    match read_frame(log, len, page_size, from, frame) {
        Ok(true) => {}
        Ok(false) => return Ok(false),
        Err(_) => return Err(IO),
    }
    for i in from + 1..0xffff_ffff {
        let before = checksum_at(frame);
        let is_any = leaves_more(is_doubted, in_file, frame);
        match read_frame(log, len, page_size, i, frame) {
            Ok(true) => {}
            Ok(false) => return Ok(false),
            Err(_) => return Err(IO),
        }
        if is_count(head, before, is_any, frame) {
            return Ok(true);
        }
    }
    Err(FULL)
}

/// Whether recovery takes no frame, as `taken` says, and the first isn't written.
fn is_unwritten<D: Disk>(log: &mut D, taken: usize) -> io::Result<bool>
    requires { IsTrue (D.Disk.is_usable log.old) }
    ensures ok { IfOk result (λ b. IsClean D.Disk log.new → (IsTrue b ↔ ((taken ≡ 0) × IsUnwritten (D.Disk.seen log.old)))) }
    ensures faults { CountsFault result (D.Disk.faults log.old) (D.Disk.faults log.new) }
    ensures same { OnlyReads D.Disk log.old log.new }
{
    if taken > 0 {
        return Ok(false);
    }
    let len = log.len()?;
    if len < HEADER + FRAME {
        return Ok(false);
    }
    let mut front = [0; 24];
    log.read_at(HEADER, &mut front)?;
    Ok(front.iter().all(|byte| *byte == 0))
}

/// Whether a count stands behind the frame after the log's first `from` frames: one of the log, or of a log whose
/// header is lost.
///
/// # Errors
///
/// A log of 2^32 frames is refused as full, as recovery refuses it.
fn has_count_behind<D: Disk>(
    alloc: Global,
    files: &mut Files<D>,
    head: &[u8; 32],
    size: PageSize,
    from: usize,
) -> Result<bool, Error>
    requires log { IsTrue (D.Disk.is_usable files.old.log) }
    requires db { IsTrue (D.Disk.is_usable files.old.db) }
    requires head { IsClean D.Disk files.old.log → head.now ≡ header (D.Disk.seen files.old.log) }
    requires few { from ≤ 0xffff_ffff }
    ensures named { IfErr result (λ e. IsTrue (is_open_error e)) }
    ensures ok { IfOk result (λ b. AreClean D.Disk files.new.log files.new.db → (IsTrue b ↔ HasCountBehind (bytes_of size) (image_of D.Disk files.old) from)) }
    ensures counts { faults_of D.Disk files.old ≤ faults_of D.Disk files.new }
    ensures cause { IfErr result (λ e. AreClean D.Disk files.new.log files.new.db
        → Fails (faults_of D.Disk files.old) (faults_of D.Disk files.new) (IsLongFor (bytes_of size) (D.Disk.seen files.old.log)) e) }
    ensures log { OnlyReads D.Disk files.old.log files.new.log }
    ensures db { OnlyReads D.Disk files.old.db files.new.db }
{
    let Ok(is_doubted) = is_unwritten(&mut files.log, from) else {
        return Err(IO);
    };
    let Ok(len) = files.db.len() else {
        return Err(IO);
    };
    let Ok(mut frame) = vec![in alloc; 0; FRAME + size.bytes()] else {
        return Err(NO_MEMORY);
    };
    let in_file = len / size.bytes();
    finds_count(
        &mut files.log,
        head,
        size.bytes(),
        from,
        is_doubted,
        in_file,
        &mut frame,
    )
}

/// The checksum that a page with these bytes ends in.
fn sum_of(bytes: &[u8]) -> [u8; 8]
    ensures { result ≡ sum_bytes bytes.now }
{
    let (first, second) = checksum_of(false, (0, 0), bytes);
    let (a, b) = (first.to_le_bytes(), second.to_le_bytes());
    [a[0], a[1], a[2], a[3], b[0], b[1], b[2], b[3]]
}

/// Whether the page ends in its checksum.
fn is_summed(page: &[u8]) -> bool
    requires some { 8 ≤ length page.now }
    requires aligned { length page.now % 16 ≡ 0 }
    ensures { IsTrue result ↔ IsSummed (length page.now) page.now }
{
    let size = page.len() - 8;
    page[size..] == sum_of(&page[..size])[..]
}

/// Whether the page in frame `i` ends in its checksum.
fn is_summed_at<D: Disk>(log: &mut D, size: PageSize, i: usize, page: &mut [u8]) -> io::Result<bool>
    requires usable { IsTrue (D.Disk.is_usable log.old) }
    requires few { i ≤ 0xffff_ffff }
    requires page { length page.old ≡ bytes_of size }
    ensures ok { IfOk result (λ b. IsClean D.Disk log.new → (IsTrue b ↔ IsSummed (bytes_of size) (page_at (bytes_of size) (D.Disk.seen log.old) i))) }
    ensures faults { CountsFaultIf (IsClean D.Disk log.old → frame_at (bytes_of size) (i + 1) ≤ length (D.Disk.seen log.old)) result (D.Disk.faults log.old) (D.Disk.faults log.new) }
    ensures same { OnlyReads D.Disk log.old log.new }
{
    let at = frame_offset(size.bytes(), i) + FRAME;
    log.read_at(at, page)?;
    Ok(is_summed(page))
}

/// Whether a frame behind frame `i` has its page.
fn is_replaced(numbers: &[u32], i: usize) -> bool
    requires { i < length numbers.now }
    ensures { IsTrue result ↔ IsReplaced numbers.now i }
{
    for j in i + 1..numbers.len() {
        if numbers[j] == numbers[i] {
            return true;
        }
    }
    false
}

/// The number of pages of the database after the first `frames` frames.
fn size_after<D: Disk>(log: &mut D, size: PageSize, frames: usize) -> io::Result<u32>
    requires usable { IsTrue (D.Disk.is_usable log.old) }
    requires few { frames ≤ 0xffff_ffff }
    requires some { 0 < frames }
    ensures ok { IfOk result (λ n. IsClean D.Disk log.new → n ≡ size_after (bytes_of size) (D.Disk.seen log.old) frames) }
    ensures faults { CountsFaultIf (IsClean D.Disk log.old → frame_at (bytes_of size) frames ≤ length (D.Disk.seen log.old)) result (D.Disk.faults log.old) (D.Disk.faults log.new) }
    ensures same { OnlyReads D.Disk log.old log.new }
{
    let at = frame_offset(size.bytes(), frames - 1) + 4;
    let mut field = [0; 4];
    log.read_at(at, &mut field)?;
    Ok(be32_at(&field, 0))
}

/// Whether frame `i` has a page of the database, which has `count` pages, without its checksum, and none of the
/// frames behind it has that page.
fn lacks_sum<D: Disk>(
    log: &mut D,
    size: PageSize,
    numbers: &[u32],
    count: u32,
    i: usize,
    page: &mut [u8],
) -> io::Result<bool>
    requires usable { IsTrue (D.Disk.is_usable log.old) }
    requires few { length numbers.now ≤ 0xffff_ffff }
    requires low { i < length numbers.now }
    requires page { length page.old ≡ bytes_of size }
    requires numbers { IsClean D.Disk log.old → AreNumbersOf (bytes_of size) (D.Disk.seen log.old) numbers.now }
    requires count { IsClean D.Disk log.old → count ≡ size_after (bytes_of size) (D.Disk.seen log.old) (length numbers.now) }
    ensures ok { IfOk result (λ b. IsClean D.Disk log.new → (IsTrue b ↔ LacksSum (bytes_of size) (D.Disk.seen log.old) (length numbers.now) i)) }
    ensures faults { CountsFaultIf (IsClean D.Disk log.old → frame_at (bytes_of size) (length numbers.now) ≤ length (D.Disk.seen log.old)) result (D.Disk.faults log.old) (D.Disk.faults log.new) }
    ensures same { OnlyReads D.Disk log.old log.new }
{
    if numbers[i] > count {
        return Ok(false);
    }
    if is_summed_at(log, size, i, page)? {
        return Ok(false);
    }
    Ok(!is_replaced(numbers, i))
}

/// Whether recovery takes a page without its checksum from one of these frames.
fn has_unsummed<D: Disk>(
    alloc: Global,
    log: &mut D,
    size: PageSize,
    numbers: &[u32],
) -> Result<bool, Error>
    requires usable { IsTrue (D.Disk.is_usable log.old) }
    requires few { length numbers.now ≤ 0xffff_ffff }
    requires numbers { IsClean D.Disk log.old → AreNumbersOf (bytes_of size) (D.Disk.seen log.old) numbers.now }
    ensures named { IfErr result (λ e. IsTrue (is_open_error e)) }
    ensures ok { IfOk result (λ b. IsClean D.Disk log.new → (IsTrue b ↔ HasUnsummed (bytes_of size) (D.Disk.seen log.old) (length numbers.now))) }
    ensures counts { D.Disk.faults log.old ≤ D.Disk.faults log.new }
    ensures cause { IfErr result (λ e. IsClean D.Disk log.new → frame_at (bytes_of size) (length numbers.now) ≤ length (D.Disk.seen log.old)
        → Fails (D.Disk.faults log.old) (D.Disk.faults log.new) ⊥ e) }
    ensures same { OnlyReads D.Disk log.old log.new }
{
    if numbers.is_empty() {
        return Ok(false);
    }
    let Ok(mut page) = vec![in alloc; 0; size.bytes()] else {
        return Err(NO_MEMORY);
    };
    let Ok(count) = size_after(log, size, numbers.len()) else {
        return Err(IO);
    };
    for i in 0..numbers.len() {
        match lacks_sum(log, size, numbers, count, i, &mut page) {
            Ok(true) => return Ok(true),
            Ok(false) => {}
            Err(_) => return Err(IO),
        }
    }
    Ok(false)
}

/// Whether the database file says that each page ends in a checksum.
fn says_sums<D: Disk>(db: &mut D) -> io::Result<bool>
    requires { IsTrue (D.Disk.is_usable db.old) }
    ensures ok { IfOk result (λ b. IsClean D.Disk db.new → (IsTrue b ↔ SaysSums (D.Disk.seen db.old))) }
    ensures faults { CountsFault result (D.Disk.faults db.old) (D.Disk.faults db.new) }
    ensures same { OnlyReads D.Disk db.old db.new }
{
    if db.len()? < 24 {
        return Ok(false);
    }
    let mut field = [0; 4];
    db.read_at(20, &mut field)?;
    Ok(be32_at(&field, 0) == WITH_SUMS)
}

/// Whether two transactions or a count stand behind the frames that recovery takes, whose page numbers are
/// `numbers`, or one of those frames has a page without its checksum.
fn is_wrong<D: Disk>(
    alloc: Global,
    files: &mut Files<D>,
    head: &[u8; 32],
    size: PageSize,
    numbers: &[u32],
) -> Result<bool, Error>
    requires log { IsTrue (D.Disk.is_usable files.old.log) }
    requires db { IsTrue (D.Disk.is_usable files.old.db) }
    requires head { IsClean D.Disk files.old.log → head.now ≡ header (D.Disk.seen files.old.log) }
    requires numbers { IsClean D.Disk files.old.log → AreNumbersOf (bytes_of size) (D.Disk.seen files.old.log) numbers.now }
    ensures named { IfErr result (λ e. IsTrue (is_open_error e)) }
    ensures ok { IfOk result (λ b. AreClean D.Disk files.new.log files.new.db → (IsTrue b ↔ IsWrongAt (bytes_of size) (image_of D.Disk files.old) (length numbers.now))) }
    ensures counts { faults_of D.Disk files.old ≤ faults_of D.Disk files.new }
    ensures cause { IfErr result (λ e. AreClean D.Disk files.new.log files.new.db → frame_at (bytes_of size) (length numbers.now) ≤ length (D.Disk.seen files.old.log)
        → Fails (faults_of D.Disk files.old) (faults_of D.Disk files.new) (IsLongFor (bytes_of size) (D.Disk.seen files.old.log)) e) }
    ensures log { OnlyReads D.Disk files.old.log files.new.log }
    ensures db { OnlyReads D.Disk files.old.db files.new.db }
{
    if has_two_more(&mut files.log, head, size.bytes(), numbers.len())? {
        return Ok(true);
    }
    if has_count_behind(alloc, files, head, size, numbers.len())? {
        return Ok(true);
    }
    match says_sums(&mut files.db) {
        Ok(true) => has_unsummed(alloc, &mut files.log, size, numbers),
        Ok(false) => Ok(false),
        Err(_) => Err(IO),
    }
}

/// Whether the log isn't what a stop of the program leaves: it was damaged, or another program wrote it.
///
/// # Errors
///
/// A file that can't be read, or a log that recovery refuses: one of another version of SQLite.
pub fn is_damaged<D: Disk>(alloc: Global, files: &mut Files<D>) -> Result<bool, Error>
    requires log { IsTrue (D.Disk.is_usable files.old.log) }
    requires db { IsTrue (D.Disk.is_usable files.old.db) }
    ensures named { IfErr result (λ e. IsTrue (is_open_error e)) }
    ensures ok { IfOk result (λ b. AreClean D.Disk files.new.log files.new.db → (IsTrue b ↔ IsDamaged (image_of D.Disk files.old))) }
    ensures counts { faults_of D.Disk files.old ≤ faults_of D.Disk files.new }
    ensures cause { IfErr result (λ e. AreClean D.Disk files.new.log files.new.db
        → FailsToRead (image_of D.Disk files.old) (faults_of D.Disk files.old) (faults_of D.Disk files.new) e) }
    ensures log { OnlyReads D.Disk files.old.log files.new.log }
    ensures db { OnlyReads D.Disk files.old.db files.new.db }
{
    let head = match read_header(&mut files.log) {
        Ok(Some(head)) => head,
        Ok(None) => {
            let Ok(is_lost) = has_lost_header(&mut files.log) else {
                return Err(IO);
            };
            return Ok(is_lost);
        }
        Err(_) => return Err(IO),
    };
    if !is_signed(&head) {
        return Ok(true);
    }
    let Some(size) = PageSize::new(be32_at(&head, 8) as usize) else {
        return Err(DAMAGED);
    };
    match probe_frames(alloc, &mut files.log, size) {
        Ok(numbers) => is_wrong(alloc, files, &head, size, numbers.as_slice()),
        Err(error) => Err(probe_error(error)),
    }
}
