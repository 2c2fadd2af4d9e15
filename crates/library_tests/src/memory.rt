//! Calls over bytes in memory: no read fails, and a slice is full only at its end. Each function has that as a
//! clause, which follows from the clauses of the call alone.

ghost use Rattle.std.specs.Prelude.{◌≢◌, IfErr};
ghost use Rattle.ee_counter.specs.Filing.{IsFailedRead};

use crate::comparing::assert_same;
use ee_calculator::Bond;
use ee_counter::{Ended, ImportFault, Why, import_inventory, import_rates, serve};
use ee_desk::ListKeeper;
use ee_desk_model::{Desk, Number, Reply};
use ee_files::{FileCode, FileFault, read_inventory, read_rates};
use ee_io::{ReadFault, read_whole, write_whole};
use ee_value::RateRow;
use ee_wire_framing::{Buffer, Next, WireEnd, next_message};
use std::alloc::Global;
use std::io;
use std::test::Fail;

fn whole(alloc: Global, mut bytes: &[u8]) -> Result<Vec<u8>, ReadFault>
    ensures { IfErr result (λ fault. fault ≢ ReadFault.ReadFailed) }
{
    read_whole(alloc, &mut bytes, 9)
}

fn first(alloc: Global, mut bytes: &[u8]) -> Result<Next, WireEnd>
    ensures { IfErr result (λ end. end ≢ WireEnd.ReadFailed) }
{
    next_message(&mut bytes, &mut Buffer::new(alloc))
}

fn rates(alloc: Global, mut bytes: &[u8]) -> Result<Vec<RateRow>, FileFault>
    ensures { IfErr result (λ fault. fault.code ≢ FileCode.ReadFailed) }
{
    read_rates(alloc, &mut bytes)
}

fn bonds(alloc: Global, mut bytes: &[u8]) -> Result<Vec<Bond>, FileFault>
    ensures { IfErr result (λ fault. fault.code ≢ FileCode.ReadFailed) }
{
    read_inventory(alloc, &mut bytes)
}

fn entered(alloc: Global, number: Number, mut bytes: &[u8]) -> Result<Reply, ImportFault>
    ensures { IfErr result (λ fault. ¬ (IsFailedRead fault)) }
{
    let mut keeper = ListKeeper::empty(alloc);
    import_rates(alloc, &mut keeper, Desk::first(), number, &mut bytes)
}

fn registered(alloc: Global, number: Number, mut bytes: &[u8]) -> Result<Reply, ImportFault>
    ensures { IfErr result (λ fault. ¬ (IsFailedRead fault)) }
{
    let mut keeper = ListKeeper::empty(alloc);
    import_inventory(alloc, &mut keeper, Desk::first(), number, &mut bytes)
}

/// Answers go to a writer that takes all, so that nothing but memory can fail.
fn served(alloc: Global, mut bytes: &[u8]) -> Ended
    ensures read { result.why ≢ Why.ReadFailed }
    ensures written { result.why ≢ Why.WriteFailed }
{
    serve(
        alloc,
        &mut ListKeeper::empty(alloc),
        &mut bytes,
        &mut io::sink(),
    )
}

#[test]
fn no_read_of_memory_fails(rt: HostRuntime) -> Result<(), Fail> {
    let alloc = rt.alloc();
    assert_same(&rt, str::from_utf8(&whole(alloc, b"abc")?)?, "abc", "whole");
    assert!(rt; matches!(first(alloc, b""), Ok(Next::End)));
    assert!(rt; rates(alloc, b"from,rate\n")?.is_empty());
    assert!(rt; bonds(alloc, b"")?.is_empty());
    let number = Number::new(1).ok_or("number")?;
    assert!(rt; entered(alloc, number, b"from,rate\n2010-05,2.00\n").is_ok());
    assert!(rt; registered(alloc, number, b"").is_ok());
    assert!(rt; matches!(served(alloc, b"").why, Why::Closed));
    Ok(())
}

/// A slice takes what fits it, and is at fault only once it is full.
#[test]
fn a_slice_is_written_until_it_is_full(rt: HostRuntime) {
    let mut room = [0u8; 4];
    let mut rest = &mut room[..];
    assert!(rt; write_whole(&mut rest, b"abc"));
    assert!(rt; !write_whole(&mut rest, b"de"));
    assert!(rt; rest.is_empty());
    assert!(rt; &room[..] == b"abcd".as_slice());
}
