//! What crashes leave, which calls fail, and what a rack lends.
ghost use Rattle.std.specs.Prelude.{◌≡◌, ◌≤◌, ◌++◌, ◌∷◌, [], true, Some, OnOk, IfOk};
ghost use Rattle.edge_traits.specs.Counts.{Rose};
ghost use Rattle.edge_traits.specs.DiskCalls.{DiskFails};
ghost use Rattle.ring_types.specs.declared.entries.CutAt.TheVariants as setting;
ghost use Rattle.disk_memory.specs.Meters.{is_reached};
ghost use Rattle.disk_memory.specs.Disks.{turn_of};

use disk_memory::{MemoryDisk, Rack};
use edge_traits::{Disk, DiskFault, FileId};
use ring_types::{Keep, Memory};
use std::alloc::{AllocError, Global};
use std::test::Fail;

const LOG: FileId = FileId::Binlog(1);

/// A caller that knows no more than the trait.
fn stage<D: Disk>(disk: &mut D, at: u64, bytes: &[u8]) -> Result<(), DiskFault>
    ensures story { D.story disk.new ≡ D.story disk.old }
    ensures later { D.faults disk.old ≤ D.faults disk.new }
    ensures failed { DiskFails (D.faults disk.old) (D.faults disk.new) result }
{
    disk.write(LOG, at, bytes)?;
    disk.sync(LOG)
}

/// One event of a replay: a turn with its setting, and whether it was cut.
fn event(disk: &mut MemoryDisk, call: u64, keep: Keep, bytes: &[u8]) -> Result<bool, Memory>
    ensures turns { OnOk result (disk.new.past.turns ≡ disk.old.past.turns ++ turn_of disk.old ∷ []) }
    ensures setting { OnOk result (disk.new.meter.setting ≡ Some (setting.Stop call keep)) }
    ensures cut { IfOk result (λ cut. cut ≡ is_reached disk.new.meter) }
    ensures rose { IfOk result (λ cut. cut ≡ true → Rose disk.old.meter.faults disk.new.meter.faults) }
{
    disk.stop_at(call, keep)?;
    let answer = stage(disk, 0, bytes);
    let cut = disk.stopped();
    match answer {
        Ok(()) => Ok(cut),
        Err(DiskFault::Failed) => {
            if cut {
                Ok(true)
            } else {
                // the count of faults stands at its last value
                Err(AllocError)
            }
        }
        Err(DiskFault::Memory) => Err(AllocError),
    }
}

#[test]
fn an_event_is_cut_at_its_call(rt: HostRuntime) -> Result<(), Fail> {
    let alloc = rt.alloc();
    let mut disk = MemoryDisk::new(alloc);
    assert_eq!(rt; event(&mut disk, 3, Keep::All, b"abc")?, false);
    assert_eq!(rt; event(&mut disk, 2, Keep::All, b"xyz")?, true);
    disk.crash()?;
    assert_eq!(rt; whole(alloc, &mut disk, LOG)?.as_slice(), b"xyz".as_slice());
    Ok(())
}

/// The whole file.
fn whole(alloc: Global, disk: &mut MemoryDisk, file: FileId) -> Result<Vec<u8>, Fail> {
    let length = disk.length(file).ok().ok_or("the length is told")?;
    let mut bytes = Vec::new(alloc);
    bytes.resize(length as usize, 0)?;
    disk.read(file, 0, &mut bytes)
        .ok()
        .ok_or("the bytes are told")?;
    Ok(bytes)
}

/// A disk whose log was synced as "abcd", and then edited: "XYZ" at 1, cut to 3, "!" at 6. The fourth
/// call of its turn is the one that stops it.
fn edited(alloc: Global, keep: Keep) -> Result<MemoryDisk, Fail> {
    let mut disk = MemoryDisk::new(alloc);
    disk.write(LOG, 0, b"abcd").ok().ok_or("written")?;
    disk.sync(LOG).ok().ok_or("synced")?;
    disk.stop_at(4, keep)?;
    disk.write(LOG, 1, b"XYZ").ok().ok_or("written")?;
    disk.cut(LOG, 3).ok().ok_or("cut")?;
    disk.write(LOG, 6, b"!").ok().ok_or("written")?;
    Ok(disk)
}

#[test]
fn a_stop_keeps_a_part(rt: HostRuntime) -> Result<(), Fail> {
    let alloc = rt.alloc();
    let parts = [
        (Keep::Nothing, b"abcd".as_slice()),
        (Keep::Half, b"aXcd".as_slice()),
        (Keep::All, b"aXY\0\0\0!".as_slice()),
    ];
    for (keep, left) in parts {
        let mut disk = edited(alloc, keep)?;
        assert_eq!(rt; disk.stopped(), false);
        assert_eq!(rt; disk.sync(LOG), Err(DiskFault::Failed));
        assert_eq!(rt; disk.sync(LOG), Err(DiskFault::Failed));
        assert_eq!(rt; disk.length(LOG), Err(DiskFault::Failed));
        assert_eq!(rt; disk.stopped(), true);
        disk.crash()?;
        assert_eq!(rt; disk.stopped(), true);
        assert_eq!(rt; whole(alloc, &mut disk, LOG)?.as_slice(), left);
    }
    Ok(())
}

#[test]
fn a_crash_without_a_stop_keeps_nothing(rt: HostRuntime) -> Result<(), Fail> {
    let alloc = rt.alloc();
    // the stop has made no call fail
    let mut disk = edited(alloc, Keep::All)?;
    disk.crash()?;
    // and goes on
    assert_eq!(rt; disk.length(LOG), Err(DiskFault::Failed));
    disk.crash()?;
    assert_eq!(rt;
        whole(alloc, &mut disk, LOG)?.as_slice(),
        b"abcd".as_slice()
    );
    Ok(())
}

#[test]
fn a_failing_call_does_nothing(rt: HostRuntime) -> Result<(), Fail> {
    let alloc = rt.alloc();
    let mut disk = MemoryDisk::new(alloc);
    disk.fail_at(2)?;
    assert_eq!(rt; disk.write(LOG, 0, b"ab"), Ok(()));
    assert_eq!(rt; disk.write(LOG, 0, b"xy"), Err(DiskFault::Failed));
    assert_eq!(rt; whole(alloc, &mut disk, LOG)?.as_slice(), b"ab".as_slice());
    assert_eq!(rt; disk.stopped(), true);
    let calls = disk.calls();
    assert_eq!(rt; disk.write(LOG, 1 << 63, b""), Err(DiskFault::Memory));
    assert_eq!(rt;
        disk.write(LOG, (1 << 63) - 1, b"a"),
        Err(DiskFault::Memory)
    );
    assert_eq!(rt; disk.calls(), calls);
    disk.crash()?;
    assert_eq!(rt; disk.length(LOG), Ok(0));
    Ok(())
}

#[test]
fn half_of_one_byte_is_none(rt: HostRuntime) -> Result<(), Fail> {
    let alloc = rt.alloc();
    let mut disk = MemoryDisk::new(alloc);
    disk.stop_at(3, Keep::Half)?;
    assert_eq!(rt; disk.write(FileId::VoteCtl, 5, b"a"), Ok(()));
    assert_eq!(rt; disk.write(FileId::Redo(1), 2, b"abc"), Ok(()));
    assert_eq!(rt; disk.sync(FileId::Redo(1)), Err(DiskFault::Failed));
    disk.crash()?;
    assert_eq!(rt;
        whole(alloc, &mut disk, FileId::VoteCtl)?.as_slice(),
        b"".as_slice()
    );
    assert_eq!(rt;
        whole(alloc, &mut disk, FileId::Redo(1))?.as_slice(),
        b"\0\0a".as_slice()
    );
    Ok(())
}

#[test]
fn a_rack_lends_its_disks(rt: HostRuntime) -> Result<(), Fail> {
    let alloc = rt.alloc();
    let mut rack = Rack::new(alloc);
    rack.add(MemoryDisk::new(alloc))?;
    rack.add(MemoryDisk::new(alloc))?;
    assert_eq!(rt; rack.length(), 2);
    if rack.length() == 2 {
        let first = rack.disk(0);
        assert_eq!(rt; first.write(LOG, 0, b"abc"), Ok(()));
        assert_eq!(rt; rack.disk(1).length(LOG), Ok(0));
        assert_eq!(rt; rack.disk(0).length(LOG), Ok(3));
    }
    Ok(())
}
