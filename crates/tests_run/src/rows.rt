// Whole runs: what is asked, what stands on the disk behind them, what is written, and the exit status.
use crate::case::{Case, check_all};
use std::alloc::Global;
use std::process::Abort;
use std::test::Fail;

// Of a metainfo file with one seed. The request is one of RFC 9112 with a range of RFC 9110. Where no piece is right the
// control file lists nothing: its version, that an info hash stands in it, the SHA-1 digest of the info dictionary, the
// piece length, the total, 0, one byte of bits, and no piece in flight.
const WORKED: &str = "\
status 0 ; shows 0000000000000001|OK|5|5|0|a ; file a=hello ; none a.aria2 ; none a.aria2__temp ; dials 1 ; sends 117 ; asks 1 m.test /a.bin 0-4
cut 1 ; clock 1000 ; status 0 ; shows 0000000000000001|OK|5|5|0|a ; file a=hello ; none a.aria2 ; dials 1 ; sends 117 ; asks 1 m.test /a.bin 0-4
mirror m.test 80 Ranges /a.bin=hellO ; status 32 ; shows 0000000000000001|ERR|0|5|32|a ; control a.aria2=00010000000100000014ed805b7547c5b2b740bc29316d9eeb9a4f4ed7610000400000000000000000050000000000000000000000010000000000 ; asks 5 m.test /a.bin 0-4
words --max-tries=2,t.torrent ; mirror m.test 80 Ranges /a.bin=hellO ; status 32 ; shows 0000000000000001|ERR|0|5|32|a ; control a.aria2=00010000000100000014ed805b7547c5b2b740bc29316d9eeb9a4f4ed7610000400000000000000000050000000000000000000000010000000000 ; asks 2 m.test /a.bin 0-4
swap i16384e -> i3e ; swap 20:$ -> 40:%36%17%b3%d6%6d%38%04%96%64%28%83%66%ce%2e%f9%f8%b9%74%78%83%63%8e%8f%01%71%57%58%64%32%6f%06%d2%a5%f8%e7%22%87%42%7b%15 ; status 0 ; shows 0000000000000001|OK|5|5|0|a ; file a=hello ; none a.aria2 ; dials 1 ; asks 1 m.test /a.bin 0-4
gids 0 ; status 0 ; shows 9e3779b97f4a7c15|OK|5|5|0|a ; file a=hello
words --dir=d,t.torrent ; status 0 ; shows 0000000000000001|OK|5|5|0|d/a ; file d/a=hello ; none d/a.aria2 ; none a
words --pause,t.torrent ; status 0 ; shows 0000000000000001|OK|5|5|0|a ; file a=hello
swap i5e -> i0e ; swap 20:$ -> 0: ; dials 0 ; status 0 ; shows 0000000000000001|OK|0|0|0|a ; file a= ; none a.aria2
";

#[test]
fn worked_runs(rt: HostRuntime) -> Result<(), Fail> {
    check_all(&rt, rt.alloc(), WORKED, "")
}

// Without doors a run with a console ends when its own download did, or when that is paused.
const CONSOLE: &str = "\
words --enable-rpc ; status 0 ; heading ; none a ; dials 0
words --enable-rpc,t.torrent ; status 0 ; shows 0000000000000001|OK|5|5|0|a ; file a=hello ; dials 1
words --enable-rpc,--pause,t.torrent ; status 7 ; shows 0000000000000001|INPR|0|5|0|a ; none a ; dials 0
";

// The words of the manual's options: no word at all, a word that names nothing, a value out of range or of another form, an
// option that stands twice, that isn't there, that is of calls alone or takes no value.
const WITHOUT_MEANING: &str = "\
no-words
words
words t
words t.TORRENT
words --split=65,t.torrent
words --split=0,t.torrent
words --split,t.torrent
words --split=5,--split=5,t.torrent
words --nothing=1,t.torrent
words --gid=0000000000000002,t.torrent
words --enable-rpc=true
words --pause=true,t.torrent
words t.torrent,t.torrent
words http://m.test/a.bin,t.torrent
words https://m.test/a.bin
words t.torrent,https://m.test/a.bin
words --checksum=md5=00,http://m.test/a.bin
words --out=a/b,http://m.test/a.bin
words --min-split-size=512K,t.torrent
words --dir=,t.torrent
";

#[test]
fn words(rt: HostRuntime) -> Result<(), Fail> {
    let alloc = rt.alloc();
    check_all(&rt, alloc, CONSOLE, "")?;
    check_all(
        &rt,
        alloc,
        WITHOUT_MEANING,
        "disk 0 ; status 28 ; error 28 ; none a ; none a.bin ; dials 0",
    )
}

// One file by its mirrors, of which the first that answers a probe tells the length. The digests are those of sha1sum and
// sha256sum, and others of one digit each.
const URIS: &str = "\
words --out=a,--checksum=sha-1=aaf4c61ddcc5e8a2dabede0f3b482cd9aea9434d,http://m.test/a.bin ; status 0 ; shows 0000000000000001|OK|5|5|0|a ; file a=hello ; none a.aria2 ; dials 2 ; asks 1 m.test /a.bin 0-0 + 1 m.test /a.bin 0-4
words --out=a,--checksum=sha-1=baf4c61ddcc5e8a2dabede0f3b482cd9aea9434d,http://m.test/a.bin ; status 32 ; shows 0000000000000001|ERR|5|5|32|a ; gets 2
words --out=a,--checksum=sha-256=2cf24dba5fb0a30e26e83b2ac5b9e29e1b161e5c1fa7425e73043362938b9824,http://m.test/a.bin ; status 0 ; shows 0000000000000001|OK|5|5|0|a ; file a=hello
words --out=a,--checksum=sha-256=2cf24dba5fb0a30e26e83b2ac5b9e29e1b161e5c1fa7425e73043362938b9825,http://m.test/a.bin ; status 32 ; shows 0000000000000001|ERR|5|5|32|a ; gets 2
words --out=a,http://m.test/a.bin ; holds a=other bytes ; status 13 ; shows 0000000000000001|ERR|0|5|13|a ; file a=other bytes ; none a.aria2 ; gets 1
words --out=a,http://m.test/a.bin ; holds a=hello ; status 13 ; shows 0000000000000001|ERR|0|5|13|a ; file a=hello ; none a.aria2 ; gets 1
words http://m.test/a.bin ; status 0 ; shows 0000000000000001|OK|5|5|0|a.bin ; file a.bin=hello ; none a.bin.aria2
words --dir=d,http://m.test/a%20b ; mirror m.test 80 Ranges /a%20b=hello ; status 0 ; shows 0000000000000001|OK|5|5|0|d/a b ; file d/a b=hello
words http://m.test/d/ ; mirror m.test 80 Ranges /d/=hello ; status 0 ; shows 0000000000000001|OK|5|5|0|index.html ; file index.html=hello
words http://m.test/a.bin ; mirror m.test 80 Ranges /a.bin= ; status 0 ; shows 0000000000000001|OK|0|0|0|a.bin ; file a.bin= ; none a.bin.aria2 ; asks 1 m.test /a.bin 0-0
words http://m.test/a.bin ; mirror m.test 80 Whole /a.bin= ; status 0 ; shows 0000000000000001|OK|0|0|0|a.bin ; file a.bin= ; none a.bin.aria2 ; asks 1 m.test /a.bin 0-0
words http://m.test/a.bin ; mirror m.test 80 ToEnd /a.bin=hello ; status 22 ; shows 0000000000000001|ERR|0|0|22|http://m.test/a.bin ; none a.bin ; gets 5
words http://m.test/b.bin ; status 3 ; shows 0000000000000001|ERR|0|0|3|http://m.test/b.bin ; none b.bin ; gets 5
words http://m.test/a.bin,http://n.test/b.bin ; mirror m.test 80 Ranges /b.bin=hellO ; mirror n.test 80 Whole /b.bin=hello ; status 0 ; shows 0000000000000001|OK|5|5|0|a.bin ; file a.bin=hello ; asks 1 m.test /a.bin 0-0 + 1 n.test /b.bin 0-0 + 1 n.test /b.bin 0-4
";

#[test]
fn files_by_their_uris(rt: HostRuntime) -> Result<(), Fail> {
    check_all(&rt, rt.alloc(), URIS, "")
}

// What stands before the run: a payload, and a control file that lists block 0 in flight, or piece 0, or is of another
// metainfo file, version, piece length or total.
const STANDING: &str = "\
holds a=hello ; status 0 ; shows 0000000000000001|OK|5|5|0|a ; file a=hello ; none a.aria2 ; dials 0
holds a=hellO ; status 0 ; shows 0000000000000001|OK|5|5|0|a ; file a=hello ; none a.aria2 ; asks 1 m.test /a.bin 0-4
holds a=hello, world ; status 0 ; shows 0000000000000001|OK|5|5|0|a ; file a=hello ; none a.aria2
holds a=hello ; codes a.aria2=00010000000100000014ed805b7547c5b2b740bc29316d9eeb9a4f4ed761000040000000000000000005000000000000000000000001000000000100000000000000050000000180 ; status 0 ; shows 0000000000000001|OK|5|5|0|a ; file a=hello ; none a.aria2 ; dials 0
holds a=hellO ; codes a.aria2=00010000000100000014ed805b7547c5b2b740bc29316d9eeb9a4f4ed761000040000000000000000005000000000000000000000001000000000100000000000000050000000180 ; status 0 ; shows 0000000000000001|OK|5|5|0|a ; file a=hello ; none a.aria2 ; asks 1 m.test /a.bin 0-4
holds a=hel ; codes a.aria2=00010000000100000014ed805b7547c5b2b740bc29316d9eeb9a4f4ed7610000400000000000000000050000000000000000000000018000000000 ; status 0 ; shows 0000000000000001|OK|5|5|0|a ; file a=hello ; none a.aria2 ; asks 1 m.test /a.bin 0-4
codes a.aria2=00010000000100000014ed805b7547c5b2b740bc29316d9eeb9a4f4ed7610000400000000000000000050000000000000000000000018000000000 ; status 0 ; shows 0000000000000001|OK|5|5|0|a ; file a=hello ; none a.aria2 ; asks 1 m.test /a.bin 0-4
words -V,t.torrent ; holds a=hellO ; codes a.aria2=00010000000100000014ed805b7547c5b2b740bc29316d9eeb9a4f4ed7610000400000000000000000050000000000000000000000018000000000 ; status 0 ; shows 0000000000000001|OK|5|5|0|a ; file a=hello ; none a.aria2 ; asks 1 m.test /a.bin 0-4
holds a=hello ; codes a.aria2=00010000000100000014ed805b7547c5b2b740bc29316d9eeb9a4f4ed7600000400000000000000000050000000000000000000000018000000000 ; status 1 ; shows 0000000000000001|ERR|0|5|1|a ; file a=hello ; control a.aria2=00010000000100000014ed805b7547c5b2b740bc29316d9eeb9a4f4ed7600000400000000000000000050000000000000000000000018000000000 ; dials 0
holds a=hello ; codes a.aria2=0002 ; status 1 ; shows 0000000000000001|ERR|0|5|1|a ; file a=hello ; control a.aria2=0002 ; dials 0
words --out=a,--piece-length=2M,http://m.test/a.bin ; mirror m.test 80 Ranges /a.bin=2097152*x ; codes a.aria2=000100000000000000000010000000000000002000000000000000000000000000018000000000 ; holds a=x ; status 10 ; shows 0000000000000001|ERR|0|2097152|10|a ; file a=x ; control a.aria2=000100000000000000000010000000000000002000000000000000000000000000018000000000 ; gets 1
words --out=a,http://m.test/a.bin ; codes a.aria2=000100000000000000000010000000000000002000000000000000000000000000018000000000 ; holds a=x ; status 1 ; shows 0000000000000001|ERR|0|5|1|a ; file a=x ; control a.aria2=000100000000000000000010000000000000002000000000000000000000000000018000000000 ; gets 1
";

#[test]
fn payloads_that_stand(rt: HostRuntime) -> Result<(), Fail> {
    check_all(&rt, rt.alloc(), STANDING, "")
}

// The run of the worked metainfo file, which names one mirror, with so many more of them.
fn try_mirrors(rt: &impl Abort, alloc: Global, count: u32, items: &str) -> Result<(), Fail> {
    let mut case = Case::of(alloc, items)?;
    for _ in 0..count {
        case.words
            .push(String::from_str(alloc, "http://m.test/a.bin")?)?;
    }
    case.run()?.check(rt, alloc, items)
}

// At most 256 mirrors, and at most 256 of them among the words.
#[test]
fn the_most_mirrors(rt: HostRuntime) -> Result<(), Fail> {
    let alloc = rt.alloc();
    try_mirrors(
        &rt,
        alloc,
        255,
        "status 0 ; shows 0000000000000001|OK|5|5|0|a ; gets 1",
    )?;
    try_mirrors(&rt, alloc, 256, "status 26 ; error 26 ; none a ; dials 0")?;
    try_mirrors(
        &rt,
        alloc,
        257,
        "disk 0 ; status 28 ; error 28 ; none a ; dials 0",
    )
}
