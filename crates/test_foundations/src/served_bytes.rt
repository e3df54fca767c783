//! What two gears' connections are answered.
ghost use Rattle.std.specs.Prelude.{◌≡◌, ◌<◌, ◌≤◌, All, IfOk, length};
ghost use Rattle.outside.specs.Gears.{new_gear, AreStarted, IsUnused};
ghost use Rattle.gnap_io.specs.MemoryForms.{IsUnusedConn};

use bytes_and_lists::bytes::Bytes;
use bytes_and_lists::memory::Mem;
use gnap_io::memory_conn::MemConn;
use gnap_io::memory_gear::MemGear;
use outside::gear::Counted;
use serving::threads::serve_gears;
use std::alloc::Global;
use std::sync::Wait;
use std::thread::Threads;
use test_adding::adder::Adder;
use test_adding::bytewise::Bytewise;

fn conn(alloc: Global, bytes: &[u8]) -> Result<MemConn, Mem>
    ensures { IfOk result IsUnusedConn }
{
    MemConn::new(
        alloc,
        Bytes::from_slice(alloc, bytes)?,
        2000,
        Vec::new(alloc),
        Vec::new(alloc),
    )
}

// A gear with two connections of these bytes.
fn gear(alloc: Global, first: &[u8], second: &[u8]) -> Result<MemGear, Mem>
    ensures { IfOk result (λ gear. ⟦<MemGear as Counted>⟧.state gear ≡ new_gear 2) }
{
    let mut conns = Vec::new(alloc);
    conns.push(conn(alloc, first)?)?;
    conns.push(conn(alloc, second)?)?;
    MemGear::new(conns, Vec::new(alloc), Vec::new(alloc), Vec::new(alloc))
}

// One has direct answers and a fault, the other a last message with a byte behind it and more messages than are answered.
fn two_gears(alloc: Global) -> Result<Vec<MemGear>, Mem>
    ensures { IfOk result (λ gears. AreStarted ⟦<MemGear as Counted>⟧.state 2 4294967295 gears.items) }
{
    let mut gears = Vec::new(alloc);
    gears.push(gear(alloc, &[254, 254, 0, 7], &[])?)?;
    gears.push(gear(alloc, &[255, 9], &[1; 1001])?)?;
    Ok(gears)
}

// One with a byte that enters two amounts, and one more.
fn one_gear(alloc: Global) -> Result<Vec<MemGear>, Mem>
    ensures { IfOk result (λ gears. AreStarted ⟦<MemGear as Counted>⟧.state 1 4294967295 gears.items) }
{
    let mut gears = Vec::new(alloc);
    gears.push(gear(alloc, &[253, 7], &[253, 255])?)?;
    Ok(gears)
}

// The gears after all was served.
fn served_gears<R: Threads + Wait + Sync>(
    rt: &R,
    alloc: Global,
    gears: Vec<MemGear>,
) -> Result<Vec<MemGear>, Mem>
    requires some { 0 < length gears.items }
    requires few { length gears.items ≤ 64 }
    requires unused { All (λ gear. IsUnused (⟦<MemGear as Counted>⟧.state gear)) gears.items }
    requires within { All (λ gear. (⟦<MemGear as Counted>⟧.state gear).left ≤ 4294967295) gears.items }
{
    let front = Bytewise { start: 0 };
    let (gears, served) = serve_gears(rt, alloc, Adder::new(alloc, 0, 0), &front, gears);
    served?;
    Ok(gears)
}

// What was written to a connection.
fn written(gears: &[MemGear], gear: usize, place: usize) -> Option<&[u8]> {
    Some(gears.get(gear)?.served().get(place)?.written())
}

/// Direct answers, the refusal of a byte and a last message give these bytes, and of 1,001 messages the 1,000th is the last one that is
/// answered.
#[test]
fn two_gears_are_served(rt: HostRuntime) -> Result<(), Mem> {
    let gears = served_gears(&rt, rt.alloc(), two_gears(rt.alloc())?)?;
    assert!(rt; written(&gears, 0, 0) == Some(&[254u8, 254, 0][..]));
    assert!(rt; written(&gears, 0, 1) == Some(&[][..]));
    assert!(rt; written(&gears, 1, 0) == Some(&[255u8, 255][..]));
    let many = written(&gears, 1, 1).unwrap_or(&[]);
    assert!(rt; many.len() == 1001);
    assert!(rt; many.ends_with(&[230, 231, 255]));
    Ok(())
}

/// 253 enters 250 and 3 and is answered by their sum, and what comes behind it counts both: 253 + 7 = 260, then 260 + 253 = 513 and 513 + 255 = 768,
/// each but for a multiple of 256. 255 is the last message, and its reply has one more byte.
#[test]
fn a_byte_enters_two_amounts(rt: HostRuntime) -> Result<(), Mem> {
    let gears = served_gears(&rt, rt.alloc(), one_gear(rt.alloc())?)?;
    assert!(rt; written(&gears, 0, 0) == Some(&[253u8, 4][..]));
    assert!(rt; written(&gears, 0, 1) == Some(&[1u8, 0, 255][..]));
    Ok(())
}
