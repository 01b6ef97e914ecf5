// Each call of the outside failing in turn.
use crate::case::{Case, check_all};
use dl_disk::Disk;
use std::alloc::Global;
use std::process::Abort;
use std::test::Fail;

/// More calls than the outside gets in a run.
const CALLS: u64 = 200;

// Runs that come to their end where no call fails, and what is wanted of them then.
const RUNS: [&str; 4] = [
    "status 0 ; shows 0000000000000001|OK|5|5|0|a ; file a=hello ; none a.aria2",
    "words --out=a,--checksum=sha-1=aaf4c61ddcc5e8a2dabede0f3b482cd9aea9434d,http://m.test/a.bin ; status 0 ; shows 0000000000000001|OK|5|5|0|a ; file a=hello ; none a.aria2",
    "holds a=hellO ; status 0 ; shows 0000000000000001|OK|5|5|0|a ; file a=hello ; none a.aria2",
    "metainfo d4:infod5:filesld6:lengthi3e4:pathl1:xeed6:lengthi2e4:pathl1:yeee4:name1:n12:piece lengthi16384e6:pieces20:$e8:url-list14:http://m.test/e ; mirror m.test 80 Ranges /n/x=hel /n/y=lo ; status 0 ; shows 0000000000000001|OK|5|5|0|n ; file n/x=hel ; file n/y=lo ; none n.aria2",
];

// One call of the disk fails, and the status is 17; on the disk that is left the run comes to its end. Told is whether the
// call came.
fn try_call(rt: &impl Abort, alloc: Global, run: &str, call: u64) -> Result<bool, Fail> {
    let mut case = Case::of(alloc, run)?;
    case.disk_faults.push(call)?;
    let first = case.run()?;
    if first.disk.faults() == 0 {
        first.check(rt, alloc, run)?;
        return Ok(false);
    }
    assert_eq!(rt; first.status, 17, "where call {call} fails of {run}");
    let again = Case::of(alloc, run)?.run_on(first.disk.healed())?;
    let items = format!(in alloc; "{run} ; call {call}")?;
    again.check(rt, alloc, items.as_str())?;
    Ok(true)
}

#[test]
fn each_call_of_the_disk(rt: HostRuntime) -> Result<(), Fail> {
    let alloc = rt.alloc();
    for run in RUNS {
        let mut calls = 0;
        for call in 0..CALLS {
            if !try_call(&rt, alloc, run, call)? {
                calls = call;
                break;
            }
        }
        // A control file is written, synced and put in its place, the payload gets its length, is written and synced, and the
        // control file is removed.
        assert!(rt; calls >= 7, "{calls} calls of {run}");
    }
    Ok(())
}

// A fault while the metainfo file is read comes before what its bytes say. It is told by a line of its own.
const DISK: &str = "\
disk 0 ; status 17 ; error 17 ; none a
disk 1 ; status 17 ; error 17 ; none a
words s.torrent ; disk 0 ; status 17 ; error 17
words s.torrent ; disk 1 ; status 3 ; error 3
metainfo i03e ; disk 1 ; status 17 ; error 17
metainfo i03e ; disk 2 ; status 25 ; error 25
words t ; disk 0 ; status 28 ; error 28
words t.torrent,http://n.test/b ; mirror m.test 80 Ranges ; mirror n.test 80 Ranges /b=hello ; disk 5 ; status 17 ; shows 0000000000000001|ERR|0|5|17|a
";

// 41 comes before every status of a summary, and after those that say why there was nothing to fetch.
const SINK: &str = "\
status 41 ; file a=hello ; none a.aria2
mirror m.test 80 Ranges /a.bin=hellO ; status 41
mirror m.test 80 Ranges /b.bin=hello ; status 41
disk 3 ; status 41
disk 1 ; status 17 ; none a
metainfo i03e ; status 25 ; none a
words s.torrent ; status 3 ; none a
words t ; status 28 ; none a
words --enable-rpc ; status 41
";

#[test]
fn calls_of_the_disk_and_the_sink(rt: HostRuntime) -> Result<(), Fail> {
    let alloc = rt.alloc();
    check_all(&rt, alloc, DISK, "")?;
    check_all(&rt, alloc, SINK, "sink 0 ; silent")
}

// One call of the link fails. The calls are: the link is dialled, the request is sent, and the 84 bytes of the reply are
// received, as many calls as the cut makes of them. Where a mirror has one try the status is 6, and otherwise the mirror is
// asked again.
#[test]
fn each_call_of_the_link(rt: HostRuntime) -> Result<(), Fail> {
    let alloc = rt.alloc();
    let whole = "status 0 ; shows 0000000000000001|OK|5|5|0|a ; file a=hello ; none a.aria2";
    let lost = "status 6 ; shows 0000000000000001|ERR|0|5|6|a";
    for (cut, calls) in [(7, 14), (65_536, 3)] {
        for call in 0..calls + 2 {
            let case = format!(in alloc; "cut {cut} ; link {call}")?;
            check_all(&rt, alloc, case.as_str(), whole)?;
            let once = format!(in alloc; "words -m,1,t.torrent ; {case}")?;
            let want = if call < calls { lost } else { whole };
            check_all(&rt, alloc, once.as_str(), want)?;
        }
    }
    Ok(())
}
