//! The places of mistakes, as users make them: an input of each kind, and the line that names its place.

use fak_places::{Format, WhereFault, asks_version, format_of, print_version, serve};
use std::alloc::{AllocError, Global};
use std::fmt::Display;
use std::process::Abort;

/// Whether the reply to an input has this status and this line.
fn answers(alloc: Global, format: Format, input: &str, status: u8, want: &str) -> bool {
    let mut written = Vec::new(alloc);
    match serve(alloc, format, input.as_bytes(), &mut written) {
        Ok(found) => found == status && written.as_slice() == want.as_bytes(),
        Err(_) => false,
    }
}

#[test]
fn a_text_stops_being_json_at_its_place(rt: HostRuntime) {
    let rows = &[
        (
            "{\"object\":\"queue\",\n\"size\":1 \"seats\":1}",
            "line 2, column 10: a comma or }, not \"\n",
        ),
        (
            "{\"object\":\"room\",\"bound\":1e999}",
            "line 1, column 31: before this column, a number that a double can hold\n",
        ),
        (
            "{\"object\":[",
            "line 1, column 11: the text ends before all its brackets, braces and quotation marks are closed\n",
        ),
        (
            "\u{feff}{\"size\":1,\"marks\":[]}",
            "line 1, column 1: a value, not a byte order mark\n",
        ),
        ("{} {}", "line 1, column 4: the end, not {\n"),
    ];
    for (input, want) in rows {
        assert!(rt;
            answers(rt.alloc(), Format::Schedule, input, 1, want),
            "at {want}"
        );
    }
}

#[test]
fn a_schedule_is_wrong_at_its_place(rt: HostRuntime) {
    let rows = &[
        (
            "[]",
            "input: an input is an object of at most 1048576 bytes, not an array of 0\n",
        ),
        (
            "{\"object\":\"heap\"}",
            "object: an object is \"room\" or \"queue\", not the text \"heap\"\n",
        ),
        (
            "{\"object\":\"queue\",\"size\":\"1\"}",
            "size: a queue's size is a whole number from 1 to 4096, not the text \"1\"\n",
        ),
        (
            "{\"object\":\"queue\",\"size\":1}",
            "seats: the key is missing\n",
        ),
        (
            "{\"object\":\"queue\",\"size\":1,\"seats\":1,\"events\":{}}",
            "events: this is an array of at most 16384 events, not an object\n",
        ),
        (
            "{\"object\":\"queue\",\"size\":1,\"seats\":1,\"events\":[[0,\"delete\"],[0,\"step\",65]]}",
            "events[1][2]: a step count is a whole number from 1 to 64, not 65\n",
        ),
        (
            "{\"object\":\"queue\",\"size\":1,\"seats\":1,\"events\":[[0,\"tir\",1]]}",
            "events[0][1]: an operation of a queue is step, insert, delete or shut, not the text \"tir\"\n",
        ),
        (
            "{\"object\":\"room\",\"bound\":1,\"seats\":1,\"events\":[[0,\"tir\"]]}",
            "events[0]: an event of this operation has three elements, not an array of 2\n",
        ),
    ];
    for (input, want) in rows {
        assert!(rt;
            answers(rt.alloc(), Format::Schedule, input, 1, want),
            "at {want}"
        );
    }
}

#[test]
fn a_value_of_another_type_is_named(rt: HostRuntime) -> Result<(), AllocError> {
    let rows = &[
        ("\"2\"", "the text \"2\""),
        ("\"\"", "the text \"\""),
        (
            "\"0123456789012345678901234567890123456789x\"",
            "a text of 41 bytes",
        ),
        ("null", "null"),
        ("true", "true"),
        ("[1,2]", "an array of 2"),
        ("{\"size\":1}", "an object"),
        ("1.5", "1.5"),
        ("-1", "-1"),
    ];
    for (value, named) in rows {
        let input = format!(in rt.alloc(); "{{\"size\":{value},\"marks\":[]}}")?;
        let want = format!(in rt.alloc();
            "size: a queue's size is a whole number from 1 to 4096, not {named}\n"
        )?;
        assert!(rt;
            answers(rt.alloc(), Format::History, &input, 1, &want),
            "at {value}"
        );
    }
    Ok(())
}

#[test]
fn a_history_is_wrong_at_its_place(rt: HostRuntime) {
    let rows = &[
        (
            "{\"size\":0,\"size\":5000,\"marks\":[]}",
            "size: a queue's size is a whole number from 1 to 4096, not 5000\nrepeated: the key \"size\", whose last value counts\n",
        ),
        (
            "{\"size\":1,\"marks\":[[0]]}",
            "marks[0][1]: a mark's name is a text\n",
        ),
        (
            "{\"size\":1,\"marks\":[[64,\"close\"]]}",
            "marks[0][0]: a seat is a whole number from 0 to 63, not 64\n",
        ),
        (
            "{\"size\":1,\"marks\":[[0,\"claim-in\"],[0,\"put\",-1]]}",
            "marks[1][2]: an item or a ticket is a whole number, not -1\n",
        ),
        (
            "{\"size\":1,\"marks\":[[0,\"claim-in\",1]]}",
            "marks[0]: a mark of this name has two elements, not an array of 3\n",
        ),
        (
            "{\"size\":1,\"marks\":[[0,\"got\",1],[0,\"shut\"]]}",
            "marks[1][1]: a mark is claim-in, over-in, back-in, no-room, put, fill, end-in, claim-out, over-out, back-out, no-item, got, take, end-out, close, closed or late-in, not the text \"shut\"\n",
        ),
    ];
    for (input, want) in rows {
        assert!(rt;
            answers(rt.alloc(), Format::History, input, 1, want),
            "at {want}"
        );
    }
}

/// A script of version 1 with 2 slots, whose other keys are these.
fn script(
    alloc: Global,
    semaphores: &str,
    programs: &str,
    start: &str,
) -> Result<String, AllocError> {
    format!(in alloc;
        "{{\"version\":1,\"slots\":2,\"births\":0,\"quantum\":1,\"semaphores\":{semaphores},\"files\":1,\"programs\":{programs},\"start\":{start}}}"
    )
}

#[test]
fn a_script_is_wrong_at_its_place(rt: HostRuntime) -> Result<(), AllocError> {
    let rows = &[
        (
            "[0,1000001]",
            "[]",
            "[]",
            "semaphores[1]: a semaphore's value is a whole number from 0 to 1000000, not 1000001\n",
        ),
        (
            "[]",
            "[[],7]",
            "[]",
            "programs[1]: a program is an array of at most 1000 steps, not 7\n",
        ),
        (
            "[]",
            "[[[\"down\",0]]]",
            "[]",
            "programs[0][0][1]: semaphore 0 does not exist: the script has no semaphores\n",
        ),
        (
            "[0]",
            "[[[\"yield\"]],[[\"yield\"],[\"up\",1]]]",
            "[]",
            "programs[1][1][1]: semaphore 1 does not exist: the script has only semaphore 0\n",
        ),
        (
            "[0,0]",
            "[[[\"down\",1],[\"down\",2]]]",
            "[]",
            "programs[0][1][1]: semaphore 2 does not exist: the script has semaphores 0 to 1\n",
        ),
        (
            "[]",
            "[[[\"down\",\"0\"]]]",
            "[]",
            "programs[0][0][1]: a semaphore is named by a whole number, not the text \"0\"\n",
        ),
        (
            "[]",
            "[[[\"open\",0]]]",
            "[]",
            "programs[0][0][1]: an inode is a whole number from 1 to 4294967296, not 0\n",
        ),
        (
            "[]",
            "[[[\"spawn\",1]]]",
            "[]",
            "programs[0][0][1]: program 1 does not exist: the script has only program 0\n",
        ),
        (
            "[]",
            "[[[\"shutdown\"]]]",
            "[]",
            "programs[0][0][0]: a step is say, yield, down, up, open, close, stat or spawn, in version 2 also shutdown, not the text \"shutdown\"\n",
        ),
        (
            "[]",
            "[[]]",
            "[0,1]",
            "start[1]: program 1 does not exist: the script has only program 0\n",
        ),
        (
            "[]",
            "[]",
            "[0]",
            "start[0]: program 0 does not exist: the script has no programs\n",
        ),
        (
            "[]",
            "[[]]",
            "[0,null]",
            "start[1]: a program is named by a whole number, not null\n",
        ),
        (
            "[]",
            "[[]]",
            "[0,0,0]",
            "start: this is an array of at most 2 programs' numbers, one for each slot, not an array of 3\n",
        ),
    ];
    for (semaphores, programs, start, want) in rows {
        let input = script(rt.alloc(), semaphores, programs, start)?;
        assert!(rt;
            answers(rt.alloc(), Format::Script, &input, 1, want),
            "at {want}"
        );
    }
    Ok(())
}

#[test]
fn ignored_keys_are_named(rt: HostRuntime) {
    let rows = &[
        (
            Format::Script,
            "{\"version\":1,\"slots\":2,\"births\":0,\"quantum\":1,\"stnit\":5,\"semaphores\":[],\"files\":1,\"programs\":[],\"start\":[]}",
            0,
            "nothing is wrong\nignored: the key \"stnit\"\n",
        ),
        (
            Format::History,
            "{\"size\":1,\"marks\":[],\"size \":2,\"\":3,\"\\n\":{\"deep\":4},\"01234567890123456789012345678901234567890\":5}",
            0,
            "the form is right; fak check says whether the history is legal\nignored: the key \"\"\nignored: the key \"\\n\"\nignored: a key of 41 bytes\nignored: the key \"size \"\n",
        ),
        (
            Format::History,
            "{\"size\":1,\"marsk\":[]}",
            1,
            "marks: the key is missing\nignored: the key \"marsk\"\n",
        ),
        (
            Format::Schedule,
            "{\"object\":\"room\",\"bound\":1,\"size\":1,\"seats\":1,\"events\":[]}",
            0,
            "nothing is wrong\nignored: the key \"size\"\n",
        ),
        (
            Format::Schedule,
            "{\"object\":\"queue\",\"bound\":1,\"size\":1,\"seats\":0,\"events\":[]}",
            1,
            "seats: the number of seats is a whole number from 1 to 64, not 0\nignored: the key \"bound\"\n",
        ),
        (
            Format::Schedule,
            "{\"object\":\"heap\",\"bound\":1,\"size\":1,\"seat\":1}",
            1,
            "object: an object is \"room\" or \"queue\", not the text \"heap\"\nignored: the key \"seat\"\n",
        ),
        (
            Format::Script,
            "[\"stnit\"]",
            1,
            "input: an input is an object of at most 1048576 bytes, not an array of 1\n",
        ),
    ];
    for (format, input, status, want) in rows {
        assert!(rt;
            answers(rt.alloc(), *format, input, *status, want),
            "at {want}"
        );
    }
}

#[test]
fn check_judges_a_history_that_is_read(rt: HostRuntime) {
    let want = "the form is right; fak check says whether the history is legal\n";
    let inputs = &[
        "{\"size\":1,\"marks\":[[0,\"close\"]]}",
        "{\"size\":1,\"marks\":[[0,\"claim-out\"]]}",
    ];
    for input in inputs {
        assert!(rt;
            answers(rt.alloc(), Format::History, input, 0, want),
            "at {input}"
        );
    }
}

/// Texts, and where each stops being JSON.
const STOPS: &[(&str, &str)] = &[
    ("]", "1, column 1: a value, not ]"),
    ("{\"a\":}", "1, column 6: a value, not }"),
    ("[1,]", "1, column 4: a value, not ]"),
    ("[,1]", "1, column 2: a value or ], not ,"),
    ("[1 2]", "1, column 4: a comma or ], not 2"),
    ("[[1],\n [2}]", "2, column 4: a comma or ], not }"),
    (
        "{a:1}",
        "1, column 2: a key in double quotation marks or }, not a",
    ),
    (
        "{1:2}",
        "1, column 2: a key in double quotation marks or }, not 1",
    ),
    (
        "{\"a\":1,}",
        "1, column 8: a key in double quotation marks, not }",
    ),
    ("{\"a\",\"b\"}", "1, column 5: a colon, not ,"),
    ("{\"a\" 1}", "1, column 6: a colon, not 1"),
    ("{\"a\":[1]]", "1, column 9: a comma or }, not ]"),
    ("{\"a\":\"]\\\"\";}", "1, column 11: a comma or }, not ;"),
    ("{}\n\n}", "3, column 1: the end, not }"),
];

#[test]
fn what_can_stand_at_a_place_is_named(rt: HostRuntime) -> Result<(), AllocError> {
    for (input, place) in STOPS {
        let want = format!(in rt.alloc(); "line {place}\n")?;
        assert!(rt;
            answers(rt.alloc(), Format::History, input, 1, &want),
            "at {input}"
        );
    }
    Ok(())
}

/// Values that are not JSON, and what each is called.
const WRONG_VALUES: &[(&str, &str)] = &[
    ("01", "a number with a leading zero"),
    ("-00", "a number with a leading zero"),
    ("'x'", "a single quotation mark"),
    (
        "\"\\q\"",
        "a text with a control character or a wrong escape",
    ),
    (
        "\"\n\"",
        "a text with a control character or a wrong escape",
    ),
    (
        "\"\\ud800\"",
        "a text with a control character or a wrong escape",
    ),
    ("True", "True"),
    ("1.", "1."),
    ("+1", "+1"),
    ("0x10", "0x10"),
];

#[test]
fn a_wrong_word_or_text_is_named(rt: HostRuntime) -> Result<(), AllocError> {
    for (value, named) in WRONG_VALUES {
        let input = format!(in rt.alloc(); "{{\"size\":{value},\"marks\":[]}}")?;
        let want = format!(in rt.alloc(); "line 1, column 9: a value, not {named}\n")?;
        assert!(rt;
            answers(rt.alloc(), Format::History, &input, 1, &want),
            "at {value}"
        );
    }
    let quoted =
        "line 1, column 2: a key in double quotation marks or }, not a single quotation mark\n";
    assert!(rt; answers(rt.alloc(), Format::History, "{'size':1}", 1, quoted));
    Ok(())
}

/// This number of brackets, one after the other.
fn brackets(alloc: Global, count: usize, bracket: &str) -> Result<String, AllocError> {
    let mut text = String::new(alloc);
    for _ in 0..count {
        text.push_str(bracket)?;
    }
    Ok(text)
}

/// What 126 arrays are around, and the line for it.
const DEEP: &[(&str, &str)] = &[
    (
        "[]",
        "input: an input is an object of at most 1048576 bytes, not an array of 1",
    ),
    (
        "[[]]",
        "line 1, column 128: a value or ], not an array inside 127 arrays and objects",
    ),
    (
        "[1,{}]",
        "line 1, column 130: a value, not an object inside 127 arrays and objects",
    ),
];

#[test]
fn too_deep_nesting_is_named(rt: HostRuntime) -> Result<(), AllocError> {
    let opened = brackets(rt.alloc(), 126, "[")?;
    let closed = brackets(rt.alloc(), 126, "]")?;
    for (inside, line) in DEEP {
        let input = format!(in rt.alloc(); "{opened}{inside}{closed}")?;
        let want = format!(in rt.alloc(); "{line}\n")?;
        assert!(rt;
            answers(rt.alloc(), Format::History, &input, 1, &want),
            "at {inside}"
        );
    }
    Ok(())
}

#[test]
fn bytes_that_are_no_text_are_named(rt: HostRuntime) {
    let mut written = Vec::new(rt.alloc());
    let input: &[u8] = &[123, 34, 255, 34, 125];
    let served = serve(rt.alloc(), Format::History, input, &mut written);
    assert!(rt; served == Ok(1));
    let want = "line 1, column 3: a text in UTF-8, not byte 255\n";
    assert!(rt; written.as_slice() == want.as_bytes());
}

/// Histories with keys that occur more than once, and the reply to each.
const REPEATED: &[(&str, u8, &str)] = &[
    (
        "{\"size\":1,\"marks\":[],\"s\\u0069ze\":2}",
        0,
        "the form is right; fak check says whether the history is legal\nrepeated: the key \"size\", whose last value counts\n",
    ),
    (
        "{\"marks\":[],\"size\":1,\"size\":0,\"marks\":[],\"marks\":[],\"other\":1,\"other\":1}",
        1,
        "size: a queue's size is a whole number from 1 to 4096, not 0\nignored: the key \"other\"\nrepeated: the key \"size\", whose last value counts\nrepeated: the key \"marks\", whose last value counts\n",
    ),
    (
        "{\"size\":1,\"marks\":[],\"other\":{\"size\":1,\"size\":2}}",
        0,
        "the form is right; fak check says whether the history is legal\nignored: the key \"other\"\n",
    ),
];

#[test]
fn repeated_keys_are_named(rt: HostRuntime) {
    for (input, status, want) in REPEATED {
        assert!(rt;
            answers(rt.alloc(), Format::History, input, *status, want),
            "at {want}"
        );
    }
}

/// Whether a value is written so.
fn is_written<D: Display>(alloc: Global, value: &D, want: &str) -> bool {
    match value.to_string(alloc) {
        Ok(text) => text.as_str() == want,
        Err(_) => false,
    }
}

#[test]
fn faults_are_one_line_each(rt: HostRuntime) {
    let rows = &[
        (
            WhereFault::Usage,
            2,
            "fak_where: usage: fak_where replay, fak_where check, fak_where run, fak_where --version",
        ),
        (WhereFault::Memory, 1, "fak_where: out of memory"),
        (WhereFault::Read, 1, "fak_where: input could not be read"),
        (
            WhereFault::Write,
            1,
            "fak_where: output could not be written",
        ),
    ];
    for (fault, status, want) in rows {
        assert!(rt;
            fault.status() == *status && is_written(rt.alloc(), fault, want),
            "at {want}"
        );
    }
}

#[test]
fn words_name_a_format(rt: HostRuntime) -> Result<(), AllocError> {
    let words = vec![in rt.alloc();
        format!(in rt.alloc(); "fak_where")?,
        format!(in rt.alloc(); "run")?,
    ]?;
    assert!(rt; format_of(&words) == Ok(Format::Script));
    assert!(rt; format_of(&words[..1]) == Err(WhereFault::Usage));
    Ok(())
}

/// Whether these words, after the program's name, ask for the version.
fn ask_version(alloc: Global, words: &[&str]) -> Result<bool, AllocError> {
    let mut all = vec![in alloc; format!(in alloc; "fak_where")?]?;
    for word in words {
        all.push(format!(in alloc; "{word}")?)?;
    }
    Ok(asks_version(&all))
}

#[test]
fn one_word_asks_for_the_version(rt: HostRuntime) -> Result<(), AllocError> {
    assert!(rt; ask_version(rt.alloc(), &["--version"])?);
    assert!(rt; !ask_version(rt.alloc(), &[])?);
    assert!(rt; !ask_version(rt.alloc(), &["version"])?);
    assert!(rt; !ask_version(rt.alloc(), &["--version", "run"])?);
    let mut written = Vec::new(rt.alloc());
    assert!(rt; print_version(&mut written) == Ok(0));
    assert!(rt; written.as_slice() == "fak_where 0.1.0\n".as_bytes());
    Ok(())
}
