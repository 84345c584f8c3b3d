//! Small scripts that are drawn at random, by a fixed seed.

use crate::Draws;
use std::alloc::Global;
use std::fmt::Write;
use std::process::Abort;

/// How much of each there is.
#[derive(Clone, Copy, Drop)]
struct Sizes {
    version: u64,
    programs: u64,
    semaphores: u64,
    slots: u64,
}

/// The other numbers of a script: the name, the bound of the draw, and the least.
const FIELDS: [(&str, u64, u64); 3] = [
    (",\"births\":", 5, 0),
    (",\"quantum\":", 3, 1),
    (",\"files\":", 3, 1),
];

/// A script of a few short programs.
pub(super) fn drawn_script(rt: &impl Abort, alloc: Global, draws: &mut Draws) -> String {
    let mut text = String::new(alloc);
    let sizes = drawn_sizes(draws);
    add_head(rt, &mut text, draws, sizes);
    add_lists(rt, &mut text, draws, sizes);
    text
}

fn drawn_sizes(draws: &mut Draws) -> Sizes {
    Sizes {
        version: draws.below(2).saturating_add(1),
        programs: draws.below(3).saturating_add(1),
        semaphores: draws.below(2).saturating_add(1),
        slots: draws.below(6).saturating_add(2),
    }
}

fn add(rt: &impl Abort, text: &mut String, part: &str) {
    text.push_str(part).expect(rt, "a script");
}

fn add_number(rt: &impl Abort, text: &mut String, front: &str, number: u64) {
    write!(text, "{front}{number}").expect(rt, "a script");
}

fn add_head(rt: &impl Abort, text: &mut String, draws: &mut Draws, sizes: Sizes) {
    add_number(rt, text, "{\"version\":", sizes.version);
    add_number(rt, text, ",\"slots\":", sizes.slots);
    for &(front, bound, least) in &FIELDS {
        let number = draws.below(bound).saturating_add(least);
        add_number(rt, text, front, number);
    }
}

fn add_lists(rt: &impl Abort, text: &mut String, draws: &mut Draws, sizes: Sizes) {
    add(rt, text, ",\"semaphores\":[");
    add_numbers(rt, text, draws, sizes.semaphores, 3);
    add(rt, text, "],\"programs\":[");
    add_programs(rt, text, draws, sizes);
    add(rt, text, "],\"start\":[");
    let started = draws.below(sizes.slots).saturating_add(1);
    add_numbers(rt, text, draws, started, sizes.programs);
    add(rt, text, "]}");
}

/// A comma, except before the first.
fn comma(i: u64) -> &'static str {
    if i > 0 { "," } else { "" }
}

/// This many numbers below the bound.
fn add_numbers(rt: &impl Abort, text: &mut String, draws: &mut Draws, count: u64, bound: u64) {
    for i in 0..count {
        add_number(rt, text, comma(i), draws.below(bound));
    }
}

fn add_programs(rt: &impl Abort, text: &mut String, draws: &mut Draws, sizes: Sizes) {
    for i in 0..sizes.programs {
        add(rt, text, comma(i));
        add(rt, text, "[");
        add_program(rt, text, draws, sizes);
        add(rt, text, "]");
    }
}

fn add_program(rt: &impl Abort, text: &mut String, draws: &mut Draws, sizes: Sizes) {
    for i in 0..draws.below(8) {
        add(rt, text, comma(i));
        add_step(rt, text, draws, sizes);
    }
}

/// Each step that is drawn, up to its number, and the place of that number among those drawn: 3 if it has none.
const STEPS: [(&str, usize); 16] = [
    ("[\"yield\"", 3),
    ("[\"yield\"", 3),
    ("[\"down\",", 0),
    ("[\"down\",", 0),
    ("[\"down\",", 0),
    ("[\"up\",", 0),
    ("[\"up\",", 0),
    ("[\"up\",", 0),
    ("[\"open\",", 1),
    ("[\"close\",", 1),
    ("[\"stat\",", 1),
    ("[\"spawn\",", 2),
    ("[\"spawn\",", 2),
    ("[\"spawn\",", 2),
    ("", 3),
    ("[\"say\",\"x\"", 3),
];

/// The row of `STEPS` that has no text of its own: `drawn_end` draws it.
const END: u64 = 14;

fn add_step(rt: &impl Abort, text: &mut String, draws: &mut Draws, sizes: Sizes) {
    let numbers = [
        draws.below(sizes.semaphores),
        draws.below(2).saturating_add(1),
        draws.below(sizes.programs),
    ];
    let drawn = draws.below(STEPS.len() as u64);
    if let Some(&(front, place)) = STEPS.get(drawn as usize) {
        add(rt, text, front);
        if let Some(number) = numbers.get(place) {
            add_number(rt, text, "", *number);
        }
    }
    if drawn == END {
        add(rt, text, drawn_end(draws, sizes.version));
    }
    add(rt, text, "]");
}

/// A shutdown, rarely and only in version 2, otherwise a say; each without the bracket that ends it.
fn drawn_end(draws: &mut Draws, version: u64) -> &'static str {
    if version == 2 && draws.below(3) == 0 {
        return "[\"shutdown\"";
    }
    "[\"say\",\"\""
}
