// Metainfo files that are missing or refused.
use crate::case::check_all;
use std::test::Fail;

const MISSING: &str = "\
words s.torrent ; none s.torrent
words .torrent ; none .torrent
words d/t.torrent ; none d/t.torrent
words s.torrent,http://m.test/a.bin ; none s.torrent
";

// Bytes that are no bencoded value.
const NO_VALUES: &str = "\
metainfo
metainfo i03e
metainfo d4:infod
metainfo d8:url-list19:http://m.test/a.bin4:infod6:lengthi5e4:name1:a12:piece lengthi16384e6:pieces20:$ee
swap bine -> bin
swap bine -> binee
swap bine -> bine%0a
swap d4:infod -> %20d4:infod
swap 6:lengthi5e4:name1:a -> 4:name1:a6:lengthi5e
swap i5e -> i05e
swap i5e -> i+5e
swap i5e -> ie
swap i5e -> i-0e
swap i5e -> i18446744073709551621e
swap name1:a -> name01:a
swap name1:a -> name18446744073709551617:a
swap 19:http -> 20:http
";

// Metainfo files that break another rule, or name no seed that can be asked.
const UNUSABLE: &str = "\
metainfo i5e
metainfo le
metainfo de
metainfo d4:infodee
metainfo d4:infod6:lengthi5e4:name1:a12:piece lengthi16384e6:pieces20:$ee
metainfo d4:infod5:filesld6:lengthi2e4:pathl1:xeed6:lengthi3e4:pathl1:xeee4:name1:n12:piece lengthi16384e6:pieces20:$e8:url-list14:http://m.test/e
metainfo d4:infod5:filesld6:lengthi5e4:pathl2:..eee4:name1:n12:piece lengthi16384e6:pieces20:$e8:url-list14:http://m.test/e
swap 6:length -> 6:Length
swap i5e -> 1:5
swap i5e -> i-5e
swap i5e -> i0e
swap i5e -> i16385e
swap i16384e -> i4e
swap i16384e -> i0e
swap i16384e -> i67108865e
swap 1:a -> 0:
swap 1:a -> 2:..
swap 1:a -> 1:/
swap 1:a -> 3:a%00b
swap 1:a -> 1:%ff
swap 20:$ -> 0:
swap 20:$ -> 21:$x
swap 20:$ -> 40:$$
swap 19:http://m.test/a.bin -> 0:
swap 19:http://m.test/a.bin -> 20:https://m.test/a.bin
swap 19:http://m.test/a.bin -> i1e
swap 19:http://m.test/a.bin -> li1ee
";

// Without a seed the words name the mirrors.
const SEEDLESS: &str = "\
words t.torrent,http://m.test/a.bin ; metainfo d4:infod6:lengthi5e4:name1:a12:piece lengthi16384e6:pieces20:$ee
words t.torrent,http://m.test/a.bin ; swap 19:http://m.test/a.bin -> 20:https://m.test/a.bin
";

#[test]
fn files_that_are_refused(rt: HostRuntime) -> Result<(), Fail> {
    let alloc = rt.alloc();
    check_all(&rt, alloc, MISSING, "status 3 ; error 3 ; none a ; dials 0")?;
    check_all(
        &rt,
        alloc,
        NO_VALUES,
        "status 25 ; error 25 ; none a ; none a.aria2 ; dials 0",
    )?;
    check_all(
        &rt,
        alloc,
        UNUSABLE,
        "status 26 ; error 26 ; none a ; none a.aria2 ; dials 0",
    )?;
    check_all(
        &rt,
        alloc,
        SEEDLESS,
        "status 0 ; shows 0000000000000001|OK|5|5|0|a ; file a=hello ; gets 1",
    )
}
