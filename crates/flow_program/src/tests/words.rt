//! Words, options and the demo: what a run is asked for.

use super::{Devices, QUOTIENTS, is_told, run_on, steady};
use crate::arguments::words_of;
use crate::demo::demo_file;
use crate::top::refuse;
use crate::words::WordsError;
use flow_base::MemSink;
use std::env::FillError;
use std::rt::Env;
use std::test::Fail;

#[test]
fn words_that_ask_for_nothing_are_refused_with_their_place(rt: HostRuntime) -> Result<(), Fail> {
    let none: &[&str] = &[];
    let cases: [(&[&str], &str); 31] = [
        (none, "1"),
        (&["reconstruct"], "2"),
        (&["reconstruct", "f", "--second"], "3"),
        (&["sample"], "2"),
        (&["sample", "a", "b"], "3"),
        (&["sample", "--workers", "17", "f"], "3"),
        (&["sample", "--workers", "017", "f"], "3"),
        (&["sample", "--workers", "0", "f"], "3"),
        (&["sample", "--workers", "f"], "3"),
        (&["sample", "f", "--workers"], "4"),
        (&["sample", "--workers", "2", "--workers", "2", "f"], "4"),
        (&["sample", "--report", "f"], "2"),
        (&["reconstruct", "--workers=2", "f"], "2"),
        (&["reconstruct", "--report", "f", "--report"], "4"),
        (&["learn", "--workers", "2", "f"], "2"),
        (&["demo"], "2"),
        (&["demo", "0"], "2"),
        (&["demo", "17"], "2"),
        (&["demo", "02"], "2"),
        (&["demo", "2", "--report"], "3"),
        (&["demo", "2", "f"], "3"),
        (&["sample", "--", "f"], "2"),
        (&["sample", ""], "2"),
        (&["learn"], "2"),
        (&["learn", "--second"], "2"),
        (&["learn", "f", "--second"], "3"),
        (&["learn", "a", "b"], "3"),
        (&["--help"], "1"),
        (&["sample", "-f"], "2"),
        (&["sample", "-", "-"], "3"),
        (&["sample", "--second", "f", "--second"], "4"),
    ];
    for (words, place) in cases {
        let told = run_on(&rt, words, steady(QUOTIENTS.as_bytes()))?;
        let err = format!(in rt.alloc(); "flow: bad words at {place}\n")?;
        assert!(rt; is_told(&told, 2, "", err.as_str()), "{words:?}: {told:?}");
    }
    Ok(())
}

#[test]
fn options_stand_before_the_file_and_behind_it(rt: HostRuntime) -> Result<(), Fail> {
    let at_second = run_on(
        &rt,
        &["sample", "f", "--second"],
        steady(QUOTIENTS.as_bytes()),
    )?;
    for words in [
        ["sample", "--workers", "2", "f", "--second"],
        ["sample", "f", "--second", "--workers", "16"],
        ["sample", "--second", "f", "--workers", "10"],
        ["sample", "--second", "--workers", "9", "f"],
    ] {
        let told = run_on(&rt, words.as_slice(), steady(QUOTIENTS.as_bytes()))?;
        assert!(rt;
            told.status == 0 && told.out == at_second.out && told.err.is_empty(),
            "{words:?}: {told:?}"
        );
    }
    Ok(())
}

/// The number of bytes, and their sum with each times its place, counted from 1.
fn sums(bytes: &[u8]) -> (usize, u64) {
    let mut sum = 0_u64;
    for (place, byte) in bytes.iter().enumerate() {
        let weight = place as u64 + 1;
        sum = sum.wrapping_add(weight.wrapping_mul(u64::from(*byte)));
    }
    (bytes.len(), sum)
}

#[test]
fn the_file_of_the_demo_has_each_step_64_times(rt: HostRuntime) -> Result<(), Fail> {
    let least = demo_file(rt.alloc(), 1)?;
    let begins =
        "flow 1\ngraph main\ninput d m\nnode c eval input = 2*m ; -1*(d-2) ; 4*m ; -2*(d-2)";
    assert!(rt; least.starts_with(begins.as_bytes()), "{least:?}");
    let ends = "\nrow 1 2\nrow 1 2\noutput s\nbounds all num 1 1 0 den 1 0 1\n";
    assert!(rt; least.ends_with(ends.as_bytes()), "{least:?}");
    assert_eq!(rt; sums(least.as_slice()), (1834, 98983458));
    let greatest = demo_file(rt.alloc(), 16)?;
    assert_eq!(rt; sums(greatest.as_slice()), (30384, 26521810223));
    Ok(())
}

#[test]
fn the_demo_prints_its_numbers_and_its_first_function(rt: HostRuntime) -> Result<(), Fail> {
    let nothing_there = Devices {
        file: None,
        failing_reads: &[1],
        ..steady(b"")
    };
    for words in [
        ["demo", "2"].as_slice(),
        ["demo", "--workers", "4", "2"].as_slice(),
    ] {
        let told = run_on(&rt, words, nothing_there)?;
        assert!(rt;
            is_told(
                &told,
                0,
                "demo 2\npoints 21\noutputs 6\nfound 6\nf1 = (1/8*d^2 - 3/4*d + 1)/(m^2)\n",
                ""
            ),
            "{told:?}"
        );
    }
    Ok(())
}

/// The arguments of a program: its name, which is no UTF-8, and these words.
#[derive(Drop)]
struct Arguments<'a> {
    words: &'a [&'a [u8]],
}

impl Env for Arguments<'_> {
    fn arg(&self, i: usize, buf: &mut [u8]) -> Result<usize, FillError> {
        let word: &[u8] = match i.checked_sub(1) {
            None => b"\xff",
            Some(place) => match self.words.get(place) {
                None => return Err(FillError::NotPresent),
                Some(word) => word,
            },
        };
        match buf.get_mut(..word.len()) {
            None => Err(FillError::TooLong),
            Some(front) => {
                front.copy_from_slice(word);
                Ok(word.len())
            }
        }
    }

    fn var(&self, _name: &str, _buf: &mut [u8]) -> Result<usize, FillError> {
        Err(FillError::NotPresent)
    }

    fn var_at(&self, _i: usize, _buf: &mut [u8]) -> Result<usize, FillError> {
        Err(FillError::NotPresent)
    }
}

#[test]
fn words_of_any_length_are_taken_as_they_are(rt: HostRuntime) -> Result<(), Fail> {
    let long = vec![in rt.alloc(); b'a'; 1000]?;
    let given = Arguments {
        words: &[b"sample", b"", long.as_slice()],
    };
    let words = words_of(rt.alloc(), &given)?;
    assert_eq!(rt; words.len(), 3);
    assert_eq!(rt; words[0].as_str(), "sample");
    assert_eq!(rt; words[1].as_str(), "");
    assert_eq!(rt; words[2].as_bytes(), long.as_slice());
    Ok(())
}

#[test]
fn words_that_are_no_text_are_bad_at_the_first_of_them(rt: HostRuntime) -> Result<(), Fail> {
    let given = Arguments {
        words: &[b"sample", b"f\xff", b"\xff"],
    };
    let mut err = MemSink::new(rt.alloc(), 4, Vec::new(rt.alloc()))?;
    match words_of(rt.alloc(), &given) {
        Ok(words) => return Err(Fail::from("words that are no text were taken")),
        Err(error) => assert_eq!(rt; refuse(rt.alloc(), error, &mut err).code(), 2),
    }
    assert_eq!(rt; err.held(), b"flow: bad words at 2\n".as_slice());
    Ok(())
}

#[test]
fn want_of_memory_for_the_words_is_told(rt: HostRuntime) -> Result<(), Fail> {
    let mut err = MemSink::new(rt.alloc(), 4, Vec::new(rt.alloc()))?;
    let status = refuse(rt.alloc(), WordsError::NoMemory, &mut err);
    assert_eq!(rt; status.code(), 8);
    assert_eq!(rt; err.held(), b"flow: no memory\n".as_slice());
    Ok(())
}
