// What mirrors hold, how they reply, and how the run ends then.
use crate::case::{check, check_all};
use std::alloc::Global;
use std::process::Abort;
use std::test::Fail;

// By the status, and how many requests are sent. Where the resource has another length the status is 22, where its bytes
// don't have their digest it is 32, where there is none it is 3, and where no mirror answers it is 6. A resource that was
// moved is asked for where it is, at most 20 times. A bad answer is given once, in the place of a reply. A mirror has 5 tries.
const HELD: &str = "\
0 1 mirror m.test 80 Ranges /a.bin=hello
0 1 mirror m.test 80 Whole /a.bin=hello
0 1 mirror m.test 80 Chunked /a.bin=hello
0 1 mirror m.test 80 ToEnd /a.bin=hello
32 5 mirror m.test 80 Whole /a.bin=Hello
32 5 mirror m.test 80 Chunked /a.bin=hellO
32 5 mirror m.test 80 ToEnd /a.bin=hellO
22 5 mirror m.test 80 Ranges /a.bin=hello!
22 5 mirror m.test 80 Ranges /a.bin=hell
22 5 mirror m.test 80 Ranges /a.bin=
22 5 mirror m.test 80 Whole /a.bin=hello!
22 5 mirror m.test 80 Chunked /a.bin=hell
0 1 mirror m.test 80 ToEnd /a.bin=hello!
6 5 mirror m.test 80 ToEnd /a.bin=hell
3 5 mirror m.test 80 Ranges /b.bin=hello
6 0 mirror n.test 80 Ranges /a.bin=hello ; dials 5
6 0 mirror m.test 81 Ranges /a.bin=hello ; dials 5
0 2 mirror m.test 80 Ranges /a.bin>http://n.test/b.bin ; mirror n.test 80 Ranges /b.bin=hello ; dials 2
0 2 mirror m.test 80 Ranges /a.bin>b.bin /b.bin=hello
0 3 mirror m.test 80 Ranges /a.bin>//n.test/b ; mirror n.test 80 Whole /b>c /c=hello
3 10 mirror m.test 80 Ranges /a.bin>/b.bin
22 5 mirror m.test 80 Ranges /a.bin>https://n.test/b.bin
23 105 mirror m.test 80 Ranges /a.bin>/a.bin
0 2 bad status 500
0 2 bad status 404
0 2 bad cut 4
0 2 bad flip 0
0 1 bad cut 5
0 5 bad status 503 ; bad status 503 ; bad status 401 ; bad status 503
29 5 bad status 401 ; bad status 404 ; bad status 500 ; bad cut 1 ; bad status 503
24 5 bad status 503 ; bad status 503 ; bad status 503 ; bad status 503 ; bad status 401
22 1 words --max-tries=1,t.torrent ; bad status 500
6 1 words --max-tries=1,t.torrent ; bad cut 2
32 1 words --max-tries=1,t.torrent ; bad flip 4
0 2 words t.torrent,http://n.test/b ; mirror m.test 80 Ranges ; mirror n.test 80 Ranges /b=hello ; dials 2
0 2 words t.torrent,http://n.test/b ; mirror m.test 80 Ranges /a.bin=hellO ; mirror n.test 80 Ranges /b=hello ; dials 2
3 10 words t.torrent,http://n.test/b ; mirror m.test 80 Ranges ; mirror n.test 80 Ranges
";

// What is wanted where the run of the worked example ends with this status.
fn end_of(alloc: Global, status: &str) -> Result<String, Fail> {
    Ok(match status {
        "0" => String::from_str(
            alloc,
            "status 0 ; shows 0000000000000001|OK|5|5|0|a ; file a=hello ; none a.aria2",
        )?,
        _ => format!(in alloc; "status {status} ; shows 0000000000000001|ERR|0|5|{status}|a")?,
    })
}

// Checks the case of each line, where so many bytes come at once.
fn check_ends(rt: &impl Abort, alloc: Global, lines: &str, cut: u32) -> Result<(), Fail> {
    for line in lines.lines() {
        let (status, rest) = line.split_once(' ').ok_or("no status")?;
        let (gets, items) = rest.split_once(' ').ok_or("no requests")?;
        let end = end_of(alloc, status)?;
        let case = format!(in alloc; "{items} ; gets {gets} ; cut {cut} ; {end}")?;
        check(rt, alloc, case.as_str())?;
    }
    Ok(())
}

#[test]
fn what_a_mirror_holds_decides(rt: HostRuntime) -> Result<(), Fail> {
    let alloc = rt.alloc();
    for cut in [1, 65_536] {
        check_ends(&rt, alloc, HELD, cut)?;
    }
    Ok(())
}

// Two pieces: 16,384 times `z`, and then 8,192 times `ab`.
const TWO_PIECES: &str =
    "swap i5e -> i32768e ; swap 20:$ -> 40:%a2%b0%ac%02%0a%f1%00%18%31%4a%cf%93%30%2a%bd%c7%df%05%23%a7%2b%9a%ab%cc%be%35%6c%89%47%b9%ab%83%38%b7%1b%df%b0%f3%9f%a1 ; status 0 ; shows 0000000000000001|OK|32768|32768|0|a ; file a=16384*z+8192*ab ; none a.aria2";

// What is missing or wrong at one mirror comes from another one, and what came right isn't asked for again.
const PIECES: &str = "\
mirror m.test 80 Ranges /a.bin=16384*z+8192*ab ; asks 1 m.test /a.bin 0-32767
mirror m.test 80 Whole /a.bin=16384*z+8192*ab ; cut 1000 ; asks 1 m.test /a.bin 0-32767
mirror m.test 80 Ranges /a.bin=16384*z+8192*ab ; bad flip 20000 ; asks 1 m.test /a.bin 0-32767 + 1 m.test /a.bin 16384-32767
mirror m.test 80 Ranges /a.bin=16384*z+8192*ab ; bad cut 20000 ; asks 1 m.test /a.bin 0-32767 + 1 m.test /a.bin 16384-32767
words t.torrent,http://n.test/b ; mirror m.test 80 Ranges /b=x ; mirror n.test 80 Ranges /b=16384*z+8192*ab ; asks 1 m.test /a.bin 0-32767 + 1 n.test /b 0-32767
words t.torrent,http://n.test/b ; mirror m.test 80 Ranges /a.bin=16384*y+8192*ab ; mirror n.test 80 Ranges /b=16384*z+8192*aB ; asks 1 m.test /a.bin 0-32767 + 1 n.test /b 0-16383
";

const FILES: &str =
    "metainfo d4:infod5:filesld6:lengthi3e4:pathl1:d1:xeed6:lengthi0e4:pathl1:eeed6:lengthi2e4:pathl5:y é!eee4:name1:n12:piece lengthi16384e6:pieces20:$e8:url-list15:http://m.test/se";

// One piece in three files, of which one is empty. It is asked for file by file, at the URL of each.
const THREE_FILES: &str = "\
mirror m.test 80 Ranges /s/n/d/x=hel /s/n/y%20%C3%A9%21=lo ; status 0 ; shows 0000000000000001|OK|5|5|0|n ; file n/d/x=hel ; file n/e= ; file n/y é!=lo ; none n.aria2 ; asks 1 m.test /s/n/d/x 0-2 + 1 m.test /s/n/y%20%C3%A9%21 0-1
mirror m.test 80 Chunked /s/n/d/x=hel /s/n/y%20%C3%A9%21=lo ; words --dir=q,t.torrent ; status 0 ; shows 0000000000000001|OK|5|5|0|q/n ; file q/n/d/x=hel ; file q/n/e= ; file q/n/y é!=lo ; none q/n.aria2
mirror m.test 80 Ranges /s/n/d/x=hel ; status 3 ; shows 0000000000000001|ERR|0|5|3|n
";

#[test]
fn several_pieces_and_files(rt: HostRuntime) -> Result<(), Fail> {
    let alloc = rt.alloc();
    check_all(&rt, alloc, PIECES, TWO_PIECES)?;
    check_all(&rt, alloc, THREE_FILES, FILES)
}
