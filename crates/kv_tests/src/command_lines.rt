//! Command lines: what they ask for, and which are refused.

use kv_conf::{Words, WordsFault, read_words};
use std::alloc::{AllocError, Global};
use std::test::Fail;

/// Reads a command line with a space between each two words.
fn read(alloc: Global, line: &str) -> Result<Words, WordsFault> {
    let mut words = Vec::new(alloc);
    for word in line.split(' ') {
        let word = String::from_str(alloc, word).map_err(|_| WordsFault::NoMem)?;
        words.push(word).map_err(|_| WordsFault::NoMem)?;
    }
    read_words(alloc, words.as_slice())
}

fn shown(alloc: Global, words: &Words) -> Result<String, AllocError> {
    match words {
        Words::Script(dir) => format!(in alloc; "script in {}", dir.text()),
        Words::Drill(dir) => format!(in alloc; "drill in {}", dir.text()),
        Words::Load { dir, seed, count } => {
            format!(in alloc; "load of {count} from {seed} in {}", dir.text())
        }
        Words::Serve(file) => format!(in alloc; "serve by {}", file.text()),
    }
}

/// Is the command line in front of ` => ` read as what is shown behind it?
fn is_told(alloc: Global, line: &str) -> Result<bool, AllocError> {
    match line.split_once(" => ") {
        Some((line, told)) => match read(alloc, line) {
            Ok(words) => Ok(shown(alloc, &words)?.as_str() == told),
            Err(_) => Ok(false),
        },
        None => Ok(false),
    }
}

#[test]
fn reads_command_lines(rt: HostRuntime) -> Result<(), Fail> {
    let lines = [
        "script --dir /srv/store => script in /srv/store",
        "script --dir=/srv/store => script in /srv/store",
        "script --dir=-x => script in -x",
        "script --dir=a=b => script in a=b",
        "script --dir a=b => script in a=b",
        "script --dir=--dir => script in --dir",
        "script --dir \u{e9} => script in \u{e9}",
        "drill --dir . => drill in .",
        "drill --dir== => drill in =",
        "load --dir D --seed 1 --count 2 => load of 2 from 1 in D",
        "load --count=0 --seed 0 --dir=D => load of 0 from 0 in D",
        "load --seed=7 --dir D --count 100 => load of 100 from 7 in D",
        "load --dir 5 --count 6 --seed 7 => load of 6 from 7 in 5",
        "load --seed 18446744073709551615 --count=18446744073709551615 --dir D => load of 18446744073709551615 from 18446744073709551615 in D",
        "serve --conf kvr.toml => serve by kvr.toml",
        "serve --conf=kvr.toml => serve by kvr.toml",
    ];
    for line in lines {
        assert!(rt; is_told(rt.alloc(), line)?, "at {line}");
    }
    Ok(())
}

#[test]
fn refuses_other_command_lines(rt: HostRuntime) {
    let lines = [
        "",
        "script",
        "Script --dir D",
        "--dir D script",
        "dump --dir D",
        "script D",
        "script --dir",
        "script --dir ",
        "script --dir=",
        "script --dir -x",
        "script --dir --dir",
        "script --dir -- D",
        "script -- --dir D",
        "script --dir D E",
        "script E --dir D",
        "script --dir D ",
        "script --dir D --dir D",
        "script --dir=D --dir=E",
        "script --conf D",
        "script --seed 1",
        "script --dir D --seed 1",
        "script -d D",
        "script -dir D",
        "script dir=D",
        "script --di D",
        "script --dirs D",
        "script --Dir D",
        "script --dir D --help",
        "script --help",
        "script -h",
        "script --version",
        "--help",
        "help",
        "drill",
        "drill --dir=",
        "drill --conf D",
        "load",
        "load --dir D --seed 1",
        "load --dir D --count 1",
        "load --seed 1 --count 1",
        "load --dir D --seed 1 --count 1 --count 1",
        "load --dir D --seed 1 --seed 1",
        "load --dir D --seed 1 --count 1 x",
        "load --dir D --seed 01 --count 1",
        "load --dir D --seed 1 --count +1",
        "load --dir D --seed= --count 1",
        "load --dir D --seed 1 --count -1",
        "load --dir D --seed 1 --count=-1",
        "load --dir D --seed 1 --count=00",
        "load --dir D --seed x --count 1",
        "load --dir D --seed 0x1 --count 1",
        "load --dir= --seed 1 --count 1",
        "load --dir D --seed 18446744073709551616 --count 1",
        "load --dir D --seed 1 --count 18446744073709551617",
        "serve",
        "serve --dir D",
        "serve --conf",
        "serve --conf=",
        "serve --conf -x",
        "serve --conf a --conf b",
        "serve --conf a b",
    ];
    for line in lines {
        let fault = read(rt.alloc(), line).err();
        assert_eq!(rt; fault, Some(WordsFault::Usage), "at {line}");
    }
    let fault = read_words(rt.alloc(), &[]).err();
    assert_eq!(rt; fault, Some(WordsFault::Usage));
}
