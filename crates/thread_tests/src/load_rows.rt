//! What `mcload` writes and reports, worked out by hand.
use mc_load::run_load;
use std::alloc::Global;
use std::test::Fail;
use std::thread::Threads;
use std::time::Clock;

/// Whether the program writes and reports these texts, and ends with this status.
fn tells<R: Threads + Sync + Clock>(
    rt: &R,
    alloc: Global,
    words: &[&str],
    written: &str,
    told: &str,
    status: u8,
) -> bool {
    let mut output = Vec::new(alloc);
    let mut errors = Vec::new(alloc);
    let ended = run_load(rt, alloc, words, &mut output, &mut errors);
    ended == status
        && output.as_slice() == written.as_bytes()
        && errors.as_slice() == told.as_bytes()
}

#[test]
fn a_load_writes_its_totals(rt: HostRuntime) -> Result<(), Fail> {
    let words = ["mcload", "run", "--readers", "3", "--lookups", "2000"];
    let lines = "lookups 6000\nwrites 2000\nsum ok\nwrong 0\n";
    assert!(rt; tells(&rt, rt.alloc(), words.as_slice(), lines, "", 0));
    let words = ["mcload", "run", "--lookups", "0", "--writes", "0"];
    let lines = "lookups 0\nwrites 0\nsum ok\nwrong 0\n";
    assert!(rt; tells(&rt, rt.alloc(), words.as_slice(), lines, "", 0));
    Ok(())
}

#[test]
fn readers_ask_for_many_keys_at_once(rt: HostRuntime) -> Result<(), Fail> {
    let words = ["mcload", "run", "--many", "64", "--lookups", "100"];
    let lines = "lookups 300\nwrites 2000\nsum ok\nwrong 0\n";
    assert!(rt; tells(&rt, rt.alloc(), words.as_slice(), lines, "", 0));
    for many in ["0", "65"] {
        let told = format!(in rt.alloc();
            "error: invalid value '{many}' for '--many <many>': {many} is not in 1..=64\n\nFor more information, try '--help'.\n"
        )?;
        let words = ["mcload", "run", "--many", many];
        assert!(rt; tells(&rt, rt.alloc(), words.as_slice(), "", told.as_str(), 2));
    }
    Ok(())
}

#[test]
fn keys_are_refused_before_readers(rt: HostRuntime) -> Result<(), Fail> {
    let words = ["mcload", "run", "--readers", "0"];
    let told = "refused: readers must be from 1 to 1024\n";
    assert!(rt; tells(&rt, rt.alloc(), words.as_slice(), "", told, 2));
    let words = ["mcload", "run", "--readers", "0", "--keys", "0"];
    let told = "refused: keys must be from 1 to 4294967296\n";
    assert!(rt; tells(&rt, rt.alloc(), words.as_slice(), "", told, 2));
    Ok(())
}

#[test]
fn writers_take_turns(rt: HostRuntime) -> Result<(), Fail> {
    let words = ["mcload", "run", "--writers", "2"];
    let lines = "lookups 6000\nwrites 4000\nsum ok\nwrong 0\n";
    assert!(rt; tells(&rt, rt.alloc(), words.as_slice(), lines, "", 0));
    for (shards, writers, writes) in [("4", "1", "2000"), ("256", "8", "16000")] {
        let words = ["mcload", "run", "--shards", shards, "--writers", writers];
        let lines = format!(in rt.alloc(); "lookups 6000\nwrites {writes}\nsum ok\nwrong 0\n")?;
        assert!(rt; tells(&rt, rt.alloc(), words.as_slice(), lines.as_str(), "", 0));
    }
    Ok(())
}

#[test]
fn writers_are_refused_before_keys_shards_and_readers(rt: HostRuntime) -> Result<(), Fail> {
    for (writers, readers, keys, shards, why) in [
        ("0", "0", "0", "0", "writers must be from 1 to 8"),
        ("9", "1", "64", "1", "writers must be from 1 to 8"),
        ("8", "0", "0", "0", "keys must be from 1 to 4294967296"),
        (
            "1",
            "0",
            "64",
            "0",
            "shards must be a power of two from 1 to 256",
        ),
        (
            "8",
            "0",
            "64",
            "512",
            "shards must be a power of two from 1 to 256",
        ),
        ("8", "0", "64", "1", "readers must be from 1 to 1024"),
        ("8", "1017", "64", "1", "readers must be from 1 to 1024"),
        ("1", "1024", "64", "2", "readers must be from 1 to 1024"),
    ] {
        let words = [
            "mcload",
            "run",
            "--writers",
            writers,
            "--readers",
            readers,
            "--keys",
            keys,
            "--shards",
            shards,
        ];
        let told = format!(in rt.alloc(); "refused: {why}\n")?;
        assert!(rt; tells(&rt, rt.alloc(), words.as_slice(), "", told.as_str(), 2));
    }
    Ok(())
}

#[test]
fn readers_and_writers_are_1024_together(rt: HostRuntime) -> Result<(), Fail> {
    let lines = "lookups 0\nwrites 0\nsum ok\nwrong 0\n";
    for shards in ["1", "2"] {
        let words = [
            "mcload",
            "run",
            "--shards",
            shards,
            "--writers",
            "8",
            "--readers",
            "1016",
            "--lookups",
            "0",
            "--writes",
            "0",
        ];
        assert!(rt; tells(&rt, rt.alloc(), words.as_slice(), lines, "", 0));
    }
    Ok(())
}

/// Whether the text is the first part, some digits, and then the last part.
fn is_number_between(text: &[u8], first: &[u8], last: &[u8]) -> bool {
    let Some(rest) = text.strip_prefix(first) else {
        return false;
    };
    let Some(number) = rest.strip_suffix(last) else {
        return false;
    };
    !number.is_empty() && number.iter().all(|digit| digit.is_ascii_digit())
}

#[test]
fn a_histogram_has_a_line_for_each_worker(rt: HostRuntime) -> Result<(), Fail> {
    let words = [
        "mcload",
        "run",
        "--readers",
        "1",
        "--lookups",
        "5",
        "--writes",
        "0",
        "--histogram",
    ];
    let mut output = Vec::new(rt.alloc());
    let mut errors = Vec::new(rt.alloc());
    let status = run_load(&rt, rt.alloc(), words.as_slice(), &mut output, &mut errors);
    let before =
        "lookups 5\nwrites 0\nsum ok\nwrong 0\nchanges behind: 0, 1 to 9, 10 to 99, 100 to 999, more\n\
        writer calls/s 0 busy 0 behind 0 0 0 0 0\nreader 0 calls/s ";
    let behind = " busy 0 behind 5 0 0 0 0\n";
    assert!(rt; status == 0 && errors.is_empty());
    assert!(rt; is_number_between(output.as_slice(), before.as_bytes(), behind.as_bytes()));
    Ok(())
}

#[test]
fn a_histogram_tells_what_came_of_each_writers_tries(rt: HostRuntime) -> Result<(), Fail> {
    let words = [
        "mcload",
        "run",
        "--readers",
        "1",
        "--lookups",
        "0",
        "--writers",
        "2",
        "--writes",
        "0",
        "--histogram",
    ];
    let lines =
        "lookups 0\nwrites 0\nsum ok\nwrong 0\nchanges behind: 0, 1 to 9, 10 to 99, 100 to 999, more\n\
        writer 0 calls/s 0 busy 0 behind 0 0 0 0 0 held 0 answered 0\nreader 0 calls/s 0 busy 0 behind 0 0 0 0 0\n\
        writer 1 calls/s 0 busy 0 behind 0 0 0 0 0 held 0 answered 0\n";
    assert!(rt; tells(&rt, rt.alloc(), words.as_slice(), lines, "", 0));
    Ok(())
}
